// Lists of units and of hexes that are sent to a call: refusal 3 along them, and who is named.
ghost use Rattle.std.specs.Prelude.{◌≡◌, ◌<◌, ◌≤◌, length, take};
ghost use Rattle.position.specs.Board.{board};
ghost use Rattle.position.specs.Laid.{Laid};
ghost use Rattle.ruling.specs.Judged.{TestedOf};
ghost use Rattle.field.specs.Listed.{all_there, Counted, on_map_all, on_map_from, Charted, named};

use position::View;
use ruling::Refusal;

// Refusal 3 along the list: every number is a unit's.
pub fn all_there(p: &[u8], v: View, units: &[u16]) -> Result<(), Refusal>
    requires { Laid p.now v × (length units.now ≤ 18) }
    ensures { TestedOf p.now (all_there (board p.now) units.now) (Counted (board p.now) units.now) result }
{
    let count = v.count;
    for (i, &u) in units.iter().enumerate() {
        if count <= u as usize {
            return Err(Refusal::OutOfRange(i + 1));
        }
    }
    Ok(())
}

// Refusal 3 along a list of hexes whose places are counted from `k` on: every number is a hex of the map.
pub fn on_map_from(p: &[u8], v: View, path: &[u16], k: usize) -> Result<(), Refusal>
    requires { Laid p.now v × (length path.now < 31) × (k < 65536) }
    ensures { TestedOf p.now (on_map_from (board p.now) path.now k) (Charted (board p.now) path.now) result }
{
    let hexes = v.hexes;
    for (i, &h) in path.iter().enumerate() {
        if hexes <= h as usize {
            return Err(Refusal::OutOfRange(i + k));
        }
    }
    Ok(())
}

// The same for a path, whose first place is 1.
pub fn on_map_all(p: &[u8], v: View, path: &[u16]) -> Result<(), Refusal>
    requires { Laid p.now v × (length path.now < 31) }
    ensures { TestedOf p.now (on_map_all (board p.now) path.now) (Charted (board p.now) path.now) result }
{
    on_map_from(p, v, path, 1)
}

// Whether unit `u` is among the first `n` of the list.
pub fn named(units: &[u16], n: usize, u: usize) -> bool
    requires { n ≤ length units.now }
    ensures { result ≡ named (take n units.now) u }
{
    units[..n].iter().any(|w| *w as usize == u)
}
