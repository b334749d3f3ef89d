// Where a unit casts its zone.
ghost use Rattle.std.specs.Prelude.{◌≡◌, ◌<◌};
ghost use Rattle.grid.specs.Spot.{SpotOf};
ghost use Rattle.position.specs.Board.{board, ground};
ghost use Rattle.position.specs.Laid.{Laid};
ghost use Rattle.field.specs.Scene.{scene};
ghost use Rattle.paint.specs.Room.{Room, StandsAt};
ghost use Rattle.paint.specs.Paint.{in_zone, casts_against, Adds, cast_to, reaches, part};

use crate::ink;
use grid::region::Region;
use grid::{Spot, near};
use position::kind::Kind;
use position::{View, layout, read};

const ALL_SEA: usize = 2;

// The zone of a caster on the spot over the hex in direction `d`.
fn over(p: &[u8], v: View, at: Region, s: Spot, d: usize, buf: &mut [u8])
    requires { Laid p.now v × Room at buf.old × SpotOf v.width v.height s × (d < 6) }
    ensures { Adds v.width v.height at (cast_to (ground p.now) s.hex d) buf.old buf.new }
{
    let Some(t) = near::near(v.width, v.height, s, d) else {
        return;
    };
    if ground::MAJOR_RIVER <= ground::between(p, v, s.hex, t.hex, d) {
        return;
    }
    if read::surface(p, v, t.hex) == ALL_SEA {
        return;
    }
    ink::stamp(v, at, t, crate::ZONE, buf);
}

// Its zone in all directions.
fn around(p: &[u8], v: View, at: Region, s: Spot, buf: &mut [u8])
    requires { Laid p.now v × Room at buf.old × SpotOf v.width v.height s }
    ensures { Adds v.width v.height at (reaches (ground p.now) s.hex 6) buf.old buf.new }
{
    for d in 0..6 {
        over(p, v, at, s, d, buf);
    }
}

// Whether unit `u` casts a zone against force `f`.
fn casts_against(p: &[u8], v: View, f: usize, u: usize) -> bool
    requires { Laid p.now v }
    ensures { result ≡ casts_against (scene (board p.now)) f u }
{
    let g = forces::force_of(p, v, u);
    if layout::FORCES <= g {
        return false;
    }
    if forces::enemy(p, v, f, g) {
        return Kind(read::kind(p, v, u)).casts_zone();
    }
    false
}

// The zone that unit `u` on the spot casts against force `f`, if it does.
pub fn cast(p: &[u8], v: View, at: Region, f: usize, u: usize, s: Spot, buf: &mut [u8])
    requires { Laid p.now v × Room at buf.old × StandsAt p.now v u s }
    ensures { Adds v.width v.height at (part (scene (board p.now)) f in_zone u) buf.old buf.new }
{
    if casts_against(p, v, f, u) {
        around(p, v, at, s, buf);
    }
}
