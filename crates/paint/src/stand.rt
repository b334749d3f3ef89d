// What a unit marks its own hex with.
ghost use Rattle.position.specs.Board.{board};
ghost use Rattle.position.specs.Laid.{Laid};
ghost use Rattle.field.specs.Scene.{scene};
ghost use Rattle.paint.specs.Room.{Room, StandsAt};
ghost use Rattle.paint.specs.Paint.{by_enemy, by_own, by_depot, Adds, part, stands};

use crate::ink;
use grid::Spot;
use grid::region::Region;
use position::kind::Kind;
use position::{View, read};

fn enemy(p: &[u8], v: View, at: Region, f: usize, u: usize, s: Spot, buf: &mut [u8])
    requires { Laid p.now v × Room at buf.old × StandsAt p.now v u s }
    ensures { Adds v.width v.height at (part (scene (board p.now)) f by_enemy u) buf.old buf.new }
{
    if forces::enemy(p, v, f, forces::force_of(p, v, u)) {
        ink::stamp(v, at, s, crate::ENEMY, buf);
    }
}

fn own(p: &[u8], v: View, at: Region, f: usize, u: usize, s: Spot, buf: &mut [u8])
    requires { Laid p.now v × Room at buf.old × StandsAt p.now v u s }
    ensures { Adds v.width v.height at (part (scene (board p.now)) f by_own u) buf.old buf.new }
{
    if forces::force_of(p, v, u) == f {
        ink::stamp(v, at, s, crate::OWN, buf);
    }
}

fn depot(p: &[u8], v: View, at: Region, f: usize, u: usize, s: Spot, buf: &mut [u8])
    requires { Laid p.now v × Room at buf.old × StandsAt p.now v u s }
    ensures { Adds v.width v.height at (part (scene (board p.now)) f by_depot u) buf.old buf.new }
{
    if forces::force_of(p, v, u) != f {
        return;
    }
    if read::kind(p, v, u) == Kind::SUPPLY {
        ink::stamp(v, at, s, crate::DEPOT, buf);
    }
}

// All that unit `u` on the spot says to force `f` but its zone.
pub fn stand(p: &[u8], v: View, at: Region, f: usize, u: usize, s: Spot, buf: &mut [u8])
    requires { Laid p.now v × Room at buf.old × StandsAt p.now v u s }
    ensures { Adds v.width v.height at (stands (scene (board p.now)) f u) buf.old buf.new }
{
    ink::stamp(v, at, s, crate::HELD, buf);
    enemy(p, v, at, f, u, s, buf);
    own(p, v, at, f, u, s, buf);
    depot(p, v, at, f, u, s, buf);
}
