// A plot: a small map of its own on which pushes are searched for and tested, without a byte of the position.
#![tactic(auto)]

pub mod chain;

ghost use Rattle.std.specs.Prelude.{◌≡◌, ◌<◌, ◌≤◌, length};
ghost use Rattle.plot.specs.Plot.{stand_in, side_bit, next_in, restood, shifted};

use chains::Stand;
use position::{bits, layout};

// Its columns, its rows, and its places.
pub const WIDE: usize = 14;

pub const HIGH: usize = 13;

pub const PLACES: usize = 182;

// What place `i` is to those who move.
pub fn stand_in(plot: &[u8; 182], i: usize) -> Stand
    requires { (length plot.now ≡ 182) × (i < 182) }
    ensures { result ≡ stand_in plot.now i }
{
    let m = layout::wide(plot[i]) % 4;
    if m == 1 {
        return Stand::Free;
    }
    if m == 2 {
        return Stand::Loose;
    }
    Stand::Shut
}

// The bit of direction `d`.
pub fn side_bit(d: usize) -> usize
    requires { d < 6 }
    ensures { (result ≡ side_bit d) × (4 ≤ result) × (result ≤ 128) }
{
    match d {
        0 => 4,
        1 => 8,
        2 => 16,
        3 => 32,
        4 => 64,
        _ => 128,
    }
}

// Where a step from place `i` in direction `d` leads.
pub fn next_in(plot: &[u8; 182], i: usize, d: usize) -> Option<usize>
    requires { (length plot.now ≡ 182) × (i < 182) × (d < 6) }
    ensures { result ≡ next_in plot.now i d }
{
    if bits::has(side_bit(d), layout::wide(plot[i])) {
        return grid::neighbour(WIDE, HIGH, i, d);
    }
    None
}

// The byte `m` with another stand.
fn restood(m: usize, k: usize) -> usize
    requires { (m < 256) × (k < 4) }
    ensures { (result ≡ restood m k) × (result < 256) }
{
    m - m % 4 + k
}

// A chain from place `x` to place `y` is done.
pub fn shift(plot: &mut [u8; 182], x: usize, y: usize)
    requires { (length plot.old ≡ 182) × (x < 182) × (y < 182) }
    ensures { plot.new ≡ shifted plot.old x y }
{
    plot[x] = restood(layout::wide(plot[x]), 1) as u8;
    plot[y] = restood(layout::wide(plot[y]), 2) as u8;
}
