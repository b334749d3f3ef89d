// One step of the walk: into a hex beside it, or home.
ghost use Rattle.std.specs.Prelude.{◌≡◌, ◌+◌, ◌-◌, ◌*◌, ◌/◌, ◌<◌, length, set};
ghost use Rattle.grid.specs.Spot.{SpotOf};
ghost use Rattle.position.specs.Board.{ground};
ghost use Rattle.position.specs.Ground.{beside, next};
ghost use Rattle.position.specs.Laid.{Laid};
ghost use Rattle.walk.specs.Chain.{mark};
ghost use Rattle.walk.specs.Trail.{Ready, HomeOf, EnterOf, StepOf};

use grid::{Spot, near};
use position::View;

// Home from spot `s` in direction `dir`; over if it is 6, in which nothing lies. There the walk goes on after the opposite direction, in
// which it had entered `s`.
fn home(w: usize, h: usize, s: Spot, dir: usize) -> Option<(Spot, usize)>
    requires { SpotOf w h s }
    ensures { HomeOf w h s.hex dir result }
{
    if 6 <= dir {
        return None;
    }
    let t = near::near(w, h, s, dir)?;
    Some((t, (dir + 3) % 6 + 1))
}

// Leaves spot `s` for home.
fn leave(v: View, buf: &mut [u8], s: Spot) -> Option<(Spot, usize)>
    requires { SpotOf v.width v.height s × Ready buf.old s.hex }
    ensures home_of { HomeOf v.width v.height s.hex (mark buf.old s.hex / 8 - 1) result }
    ensures buf_after { buf.new ≡ set buf.old s.hex (mark buf.old s.hex + 7) }
{
    let at = s.hex;
    let m = buf[at];
    buf[at] = m + 7;
    home(v.width, v.height, s, (m / 8 - 1) as usize)
}

// Enters the hex beside spot `s` in direction `dir`.
fn enter(v: View, buf: &mut [u8], s: Spot, dir: usize) -> Option<(Spot, usize)>
    requires spot_of { SpotOf v.width v.height s × (dir < 6) }
    requires buf_len { length buf.old ≡ v.width * v.height }
    ensures { EnterOf v.width v.height buf.old s.hex dir buf.new result }
{
    let t = near::near(v.width, v.height, s, dir)?;
    let n = t.hex;
    buf[n] = (8 * ((dir + 3) % 6 + 1)) as u8;
    Some((t, 0))
}

// One step of the walk from spot `s`, where it was done with the directions below `from`: it enters the first hex that it finds from there
// on, or goes home.
pub fn step(p: &[u8], v: View, buf: &mut [u8], s: Spot, from: usize) -> Option<(Spot, usize)>
    requires laid { Laid p.now v × SpotOf v.width v.height s }
    requires buf_len { length buf.old ≡ v.hexes }
    requires ready { Ready buf.old s.hex }
    ensures { StepOf v.width v.height (next (ground p.now)) (beside (ground p.now)) buf.old s.hex from buf.new result }
{
    match looking::look(p, v, buf, s, from, 1) {
        Some(dir) => enter(v, buf, s, dir),
        _ => leave(v, buf, s),
    }
}
