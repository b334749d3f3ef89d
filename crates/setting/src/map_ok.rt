// Whether the map keeps its lines of document 01.
ghost use Rattle.std.specs.Prelude.{ℕ, ◌+◌, ◌≤◌, ◌<◌};
ghost use Rattle.position.specs.Board.{ground};
ghost use Rattle.setting.specs.Setting.{EdgeOk, HexOk, MapOk};
ghost use Rattle.setting.specs.Rim.{EdgesOk};
ghost use Rattle.position.specs.Laid.{Laid, Says};

use grid::rim;
use position::{View, layout, read};

// Each number of a hex is measured, whatever the one before it says: without a branch between them the compiler measures many at once.
fn hex_ok(p: &[u8], v: View, h: usize) -> bool
    requires { Laid p.now v × (h < v.hexes) }
    ensures { Says result (HexOk (ground p.now) h) }
{
    let terrain = layout::map_byte(p, v, h, layout::TERRAIN) <= 15;
    let surface = layout::map_byte(p, v, h, layout::SURFACE) <= 3;
    let flags = layout::map_byte(p, v, h, layout::FLAGS) <= 7;
    let country = layout::map_byte(p, v, h, layout::COUNTRY) <= 2;
    let sides = layout::map_byte(p, v, h, layout::SIDES) <= 63;
    terrain & surface & flags & country & sides
}

// The sixteen hexes from hex `first` on, all of them whatever the first one says, for the same reason.
// A loop and no fold: that the closure may be asked is not found where its answer changes with each call.
fn sixteen_ok(p: &[u8], v: View, first: usize) -> bool
    requires { Laid p.now v × (first + 16 ≤ v.hexes) }
    ensures { Says result ((k : ℕ) → k < 16 → HexOk (ground p.now) (first + k)) }
{
    let mut fit = true;
    for k in 0..16 {
        fit &= hex_ok(p, v, first + k);
    }
    fit
}

// Sixteen hexes at a time, and the last ones one by one.
fn hexes_ok(p: &[u8], v: View) -> bool
    requires { Laid p.now v }
    ensures { Says result ((h : ℕ) → h < (ground p.now).hexes → HexOk (ground p.now) h) }
{
    let whole = v.hexes / 16;
    (0..whole).all(|k| sixteen_ok(p, v, 16 * k)) && (16 * whole..v.hexes).all(|h| hex_ok(p, v, h))
}

// A stored side that no hex lies beyond is 0.
#[tactic(auto, using(position::proofs::Sides::beside_view))]
fn edge_ok(p: &[u8], v: View, h: usize, d: usize) -> bool
    requires { Laid p.now v × (d < 3) }
    ensures { Says result (EdgeOk (ground p.now) h d) }
{
    if let Some(_) = grid::neighbour(v.width, v.height, h, d) {
        return true;
    }
    if ground::stored(p, v, h, d) != 0 {
        return false;
    }
    true
}

// The three sides of a hex. Most hexes have nothing at any side, and so there is nothing to look for beyond.
fn edges_ok(p: &[u8], v: View, h: usize) -> bool
    requires { Laid p.now v }
    ensures { Says result (EdgesOk (ground p.now) h) }
{
    read::sides(p, v, h) == 0 || (0..3).all(|d| edge_ok(p, v, h, d))
}

// Off-map sides are 0: only hexes of the rim have a side N, NE or SE with no hex beyond it.
fn rim_ok(p: &[u8], v: View) -> bool
    requires { Laid p.now v }
    ensures { Says result ((h : ℕ) → h < (ground p.now).hexes → EdgesOk (ground p.now) h) }
{
    let hexes = v.hexes;
    let mut h = 0;
    while h < hexes {
        if !edges_ok(p, v, h) {
            return false;
        }
        h = rim::after(v.width, v.height, h);
    }
    true
}

#[tactic(auto, unfolding(position::specs::Layout::hexes))]
pub fn map_ok(p: &[u8], v: View) -> bool
    requires { Laid p.now v }
    ensures { Says result (MapOk (ground p.now)) }
{
    hexes_ok(p, v) && rim_ok(p, v)
}
