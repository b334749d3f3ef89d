// Whether stacks are at most three units, of one force, in one pass over the units for each block of the map.
#![tactic(auto)]

ghost use Rattle.std.specs.Prelude.{◌≡◌, ℕ, ◌+◌, ◌<◌, length};
ghost use Rattle.position.specs.Layout.{count, forces};
ghost use Rattle.position.specs.Board.{board, force_of};
ghost use Rattle.position.specs.Laid.{Laid, Says};
ghost use Rattle.acceptance.specs.Asked.{AloneOk, StacksIn, StacksOk};
ghost use Rattle.acceptance.specs.Seats.{block, table, Empty, AddsTo, SeatedOf};

use position::{View, layout, read};

// How many hexes a block has, and how many bytes its table: hexes k and k + 256 of the block share byte k.
const BLOCK: usize = 512;

const TABLE: usize = 256;

// What a unit of force `f` adds to a seat that says `x`; nothing if the hex is full or holds another force.
fn adds(x: usize, f: usize) -> usize
    requires { f < forces }
    ensures { AddsTo x f result }
{
    if x == 0 {
        return 1 + 4 * f;
    }
    if x / 4 != f {
        return 0;
    }
    if x % 4 == 3 {
        return 0;
    }
    1
}

// Unit `u` takes its seat in the table of the block that begins at `base`, if it stands there; false if the hex is full or holds another force.
fn seat(p: &[u8], v: View, seats: &mut [u8], base: usize, u: usize) -> bool
    requires { Laid p.now v × (u < v.count) × (force_of (board p.now) u < forces) × (length seats.old ≡ table) }
    ensures { SeatedOf (board p.now) base u seats.old seats.new result }
{
    let h = read::hex(p, v, u);
    if h < base {
        return true;
    }
    let k = h - base;
    if BLOCK <= k {
        return true;
    }
    let f = forces::force_of(p, v, u);
    if k < TABLE {
        let m = layout::wide(seats[k]);
        let low = adds(m % 16, f);
        seats[k] = (m + low) as u8;
        return 0 < low;
    }
    let j = k % TABLE;
    let n = layout::wide(seats[j]);
    let high = adds(n / 16, f);
    seats[j] = (n + 16 * high) as u8;
    0 < high
}

// The stacks on the block of hexes that begins at `base`, by a table that is empty yet.
fn seat_all(p: &[u8], v: View, seats: &mut [u8], base: usize) -> bool
    requires { Laid p.now v × ((u : ℕ) → u < count p.now → force_of (board p.now) u < forces) × Empty seats.old }
    ensures { Says result (StacksIn (board p.now) base (base + block)) }
{
    for u in 0..v.count {
        if !seat(p, v, seats, base, u) {
            return false;
        }
    }
    true
}

// The same with a table of its own.
fn block_ok(p: &[u8], v: View, base: usize) -> bool
    requires { Laid p.now v × ((u : ℕ) → u < count p.now → force_of (board p.now) u < forces) }
    ensures { Says result (StacksIn (board p.now) base (base + block)) }
{
    let mut seats = [0u8; TABLE];
    seat_all(p, v, &mut seats, base)
}

// The stacks on all hexes, block by block.
pub fn stacks_ok(p: &[u8], v: View) -> bool
    requires { Laid p.now v × ((u : ℕ) → u < count p.now → AloneOk (board p.now) u) }
    ensures { Says result (StacksOk (board p.now)) }
{
    (0..v.hexes.div_ceil(BLOCK)).all(|k| block_ok(p, v, BLOCK * k))
}
