// How a group goes off along its route, pushing friends out of its road.
#![tactic(auto)]

pub mod clear;
pub mod group;

ghost use Rattle.std.specs.Prelude.{◌≡◌};
ghost use Rattle.position.specs.Board.{board};
ghost use Rattle.position.specs.Change.{makes};
ghost use Rattle.position.specs.Laid.{Laid};
ghost use Rattle.shoves.specs.Shoves.{marches};

use position::View;

// The group in hex `h` goes off along the route, with these pushes.
pub fn march_off(p: &mut [u8], v: View, h: usize, route: &[u16], pushes: &[u16])
    requires { Laid p.old v }
    ensures { p.new ≡ makes p.old (marches (board p.old) h route.now pushes.now) }
{
    let mut a = h;
    let mut k = 0;
    for &to in route {
        let x = to as usize;
        k = clear::clear(p, v, x, pushes, k);
        group::step_all(p, v, a, x);
        a = x;
    }
    group::free_all(p, v, a);
}
