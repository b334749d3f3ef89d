// What comes of the search for a legal route round the start of a retreat, and of the route that was sent.
#![tactic(auto)]

ghost use Rattle.std.specs.Prelude.{◌<◌, ◌≤◌};
ghost use Rattle.position.specs.Board.{board};
ghost use Rattle.position.specs.Laid.{Laid};
ghost use Rattle.routes.specs.Outlook.{OutlookOf, RouteTested};

mod friends;

use grid::{near, region};
use position::View;
use routes::Outlook;
use window::Painted;

// No route has more hexes.
const FAR: usize = 3;

// How many steps the route is tested for: those that are owed, or its own where it has fewer and no legal route exists.
fn tested(found: bool, n: usize, k: usize) -> usize
    ensures { RouteTested found n k result }
{
    if found {
        return n;
    }
    if k < n {
        return k;
    }
    n
}

// What the outlook of a group of force `f` in hex `start` is that owes `n` hexes and was sent this route: a window round the start tells
// whether a legal route exists, whether the route sent is one, or a run, and whether there are friends if none exists.
pub fn judge(p: &[u8], v: View, f: usize, start: usize, n: usize, route: &[u16]) -> Outlook
    requires { Laid p.now v × (start < v.hexes) × (1 ≤ n) × (n ≤ 3) }
    ensures { OutlookOf (board p.now) f start n route.now result }
{
    let mut room = [0u8; 56];
    let here = near::spot(v.width, v.height, start);
    let at = region::round(v.width, v.height, here, FAR);
    paint::paint_blank(p, v, at, f, &mut room);
    let window = Painted {
        p,
        v,
        at,
        marks: &room,
        f,
        start,
    };
    let found = window.finds(n);
    let fits = window.is_legal(tested(found, n, route.len()), route);
    if !found {
        if friends::near(&mut room, region::place(v.width, v.height, at, here)) {
            return Outlook::Friends(fits);
        }
        return Outlook::Alone(fits);
    }
    if fits {
        return Outlook::Legal;
    }
    Outlook::Illegal
}
