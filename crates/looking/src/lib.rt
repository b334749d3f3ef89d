// Looking round from a hex for one with a mark, a direction after the other: 1 for one to enter, 2 for a source.
#![tactic(auto)]

ghost use Rattle.std.specs.Prelude.{◌≡◌, ◌<◌, length};
ghost use Rattle.grid.specs.Spot.{SpotOf, NearOf};
ghost use Rattle.position.specs.Board.{ground};
ghost use Rattle.position.specs.Ground.{next};
ghost use Rattle.position.specs.Laid.{Laid};
ghost use Rattle.walk.specs.Chain.{mark};
ghost use Rattle.walk.specs.Trail.{LeadsOf, LooksOf, FirstOf};

use grid::{Spot, near};
use position::View;

// Whether a step from spot `s` in direction `dir`, where `b` lies, leads to a hex that is marked `m`. The mark is looked at first, as most
// are of no use.
pub fn leads(p: &[u8], v: View, buf: &[u8], s: Spot, dir: usize, b: Option<Spot>, m: u8) -> bool
    requires laid { Laid p.now v × (dir < 6) × NearOf v.width v.height s.hex dir b }
    requires buf_len { length buf.now ≡ v.hexes }
    ensures { LeadsOf (next (ground p.now)) (mark buf.now) m s.hex dir result }
{
    let Some(t) = b else {
        return false;
    };
    let n = t.hex;
    if buf[n] != m {
        return false;
    }
    if ground::between(p, v, s.hex, n, dir) == ground::BLOCKED {
        return false;
    }
    true
}

// Whether a step from spot `s` in direction `D` leads to a hex marked `m`, where it is not passed over: those before `from` are. Each direction
// has a copy of its own, which looks at its own neighbour alone.
fn opens<const D: usize>(p: &[u8], v: View, buf: &[u8], s: Spot, from: usize, m: u8) -> bool
    requires laid { Laid p.now v × SpotOf v.width v.height s × (D < 6) }
    requires buf_len { length buf.now ≡ v.hexes }
    ensures { LooksOf (next (ground p.now)) (mark buf.now) m s.hex from D result }
{
    if D < from {
        return false;
    }
    leads(p, v, buf, s, D, near::near(v.width, v.height, s, D), m)
}

// The first direction from `from` on in which a step from spot `s` leads to a hex marked `m`, if there is one.
pub fn look(p: &[u8], v: View, buf: &[u8], s: Spot, from: usize, m: u8) -> Option<usize>
    requires laid { Laid p.now v × SpotOf v.width v.height s }
    requires buf_len { length buf.now ≡ v.hexes }
    ensures { FirstOf (next (ground p.now)) (mark buf.now) m s.hex from result }
{
    if opens::<0>(p, v, buf, s, from, m) {
        return Some(0);
    }
    if opens::<1>(p, v, buf, s, from, m) {
        return Some(1);
    }
    if opens::<2>(p, v, buf, s, from, m) {
        return Some(2);
    }
    if opens::<3>(p, v, buf, s, from, m) {
        return Some(3);
    }
    if opens::<4>(p, v, buf, s, from, m) {
        return Some(4);
    }
    if opens::<5>(p, v, buf, s, from, m) {
        return Some(5);
    }
    None
}
