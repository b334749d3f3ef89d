// What comes of a group that owes: it is lost, goes along a vacant route, pushes friends, or what was sent is refused.
#![tactic(auto)]

ghost use Rattle.std.specs.Prelude.{◌≡◌, cond, false, not, ◌<◌, ◌≤◌, get_or};
ghost use Rattle.position.specs.Tally.{any};
ghost use Rattle.position.specs.Board.{board};
ghost use Rattle.position.specs.Laid.{Laid};
ghost use Rattle.routes.specs.Outlook.{OutlookOf};
ghost use Rattle.routes.specs.Part.{is_run, part_route};
ghost use Rattle.routes.specs.Search.{first_route, found};
ghost use Rattle.chains.specs.Follows.{none};
ghost use Rattle.pushes.specs.Pushes.{served};
ghost use Rattle.shoves.specs.Group.{group, group_force};
ghost use Rattle.retreat.specs.Retreat.{has_route, walks_from};
ghost use Rattle.retreat.specs.declared.Fate.TheVariants.{WrongRoute, Walking};
ghost use Rattle.retreat.specs.Fate.{fate_of, lost_fate, served_fate};

use position::kind::Kind;
use position::{View, read};
use pushes::Served;
use retreat::Fate;
use routes::Outlook;
use shoves::group;

// Whether unit `u` owes in hex `h` and is no supply unit.
#[tactic(auto, unfolding(retreat::specs::Retreat::walks_from))]
fn walks_from(p: &[u8], v: View, h: usize, u: usize) -> bool
    requires { Laid p.now v }
    ensures { result ≡ walks_from (board p.now) h u }
{
    if !group::owes_at(p, v, h, u) {
        return false;
    }
    read::kind(p, v, u) != Kind::SUPPLY
}

// Whether others than supply units owe in hex `h`.
fn any_walks(p: &[u8], v: View, h: usize) -> bool
    requires { Laid p.now v }
    ensures { result ≡ any (walks_from (board p.now) h) (board p.now).units.count }
{
    (0..v.count).any(|u| walks_from(p, v, h, u))
}

// The first unit that owes in hex `h`, 0 if none does.
fn leader(p: &[u8], v: View, h: usize) -> usize
    requires { Laid p.now v }
    ensures { result ≡ get_or (group (board p.now) h) 0 0 }
{
    (0..v.count)
        .find(|u| group::owes_at(p, v, h, *u))
        .unwrap_or(0)
}

// The force that owes in hex `h`.
#[tactic(auto, unfolding(shoves::specs::Group::group_force))]
fn group_force(p: &[u8], v: View, h: usize) -> usize
    requires { Laid p.now v }
    ensures { result ≡ group_force (board p.now) h }
{
    forces::force_of(p, v, leader(p, v, h))
}

// What the outlook of the group in hex `h` is, if it goes `n` hexes and was sent this route.
fn judge(p: &[u8], v: View, h: usize, n: usize, route: &[u16]) -> Outlook
    requires { Laid p.now v × (h < v.hexes) × (1 ≤ n) × (n ≤ 3) }
    ensures { OutlookOf (board p.now) (group_force (board p.now) h) h n route.now result }
{
    outlook::judge(p, v, group_force(p, v, h), h, n, route)
}

// Whether the group has no run of `n` hexes.
fn no_run(p: &[u8], v: View, h: usize, n: usize, route: &[u16]) -> bool
    requires { Laid p.now v × (h < v.hexes) × (1 ≤ n) × (n ≤ 3) }
    ensures { result ≡ not (found (first_route (board p.now) (group_force (board p.now) h) h n)) }
{
    matches!(
        judge(p, v, h, n, route),
        Outlook::Friends(_) | Outlook::Alone(_)
    )
}

// Whether the route is a part route, where no vacant route exists; `run` tells whether it is a run. A longer run is looked for only if it
// would be shorter than the route that is owed.
fn is_part(p: &[u8], v: View, h: usize, run: bool, route: &[u16]) -> bool
    requires { Laid p.now v × (h < v.hexes) × ((board p.now).desk.battle.owed ≤ 3) × (has_route (board p.now) h ≡ false) × (run ≡ is_run (board p.now) (group_force (board p.now) h) h route.now) }
    ensures { result ≡ part_route (board p.now) (group_force (board p.now) h) h route.now }
{
    if !run {
        return false;
    }
    let longer = route.len() + 1;
    if read::owed(p, v) <= longer {
        return true;
    }
    no_run(p, v, h, longer, route)
}

// What comes of it where the route is legal: no pushes may be sent with it.
fn by_route(pushes: &[u16]) -> Fate
    ensures { result ≡ cond (none pushes.now) Walking WrongRoute }
{
    if !pushes.is_empty() {
        return Fate::WrongRoute;
    }
    Fate::Walking
}

// What comes of it where it is destroyed: its part route must have been sent, and no pushes with it.
#[tactic(auto, unfolding(retreat::specs::Fate::lost_fate))]
fn by_part(part: bool, pushes: &[u16]) -> Fate
    ensures { result ≡ lost_fate part pushes.now }
{
    if !part {
        return Fate::WrongRoute;
    }
    if !pushes.is_empty() {
        return Fate::WrongRoute;
    }
    Fate::Lost
}

// What comes of it where no vacant route exists; `run` tells whether the route is a run.
#[tactic(auto, using(retreat::proofs::Groups::served_as))]
fn by_pushes(p: &[u8], v: View, h: usize, run: bool, route: &[u16], pushes: &[u16]) -> Fate
    requires { Laid p.now v × (h < v.hexes) × ((board p.now).desk.battle.owed ≤ 3) × (has_route (board p.now) h ≡ false) × (run ≡ is_run (board p.now) (group_force (board p.now) h) h route.now) }
    ensures { result ≡ served_fate (lost_fate (part_route (board p.now) (group_force (board p.now) h) h route.now) pushes.now) (served (board p.now) (group_force (board p.now) h) h (board p.now).desk.battle.owed route.now pushes.now) }
{
    match pushes::judge(
        p,
        v,
        group_force(p, v, h),
        h,
        read::owed(p, v),
        route,
        pushes,
    ) {
        Served::None => by_part(is_part(p, v, h, run, route), pushes),
        Served::Wrong => Fate::WrongPushes,
        Served::Right => Fate::Pushing,
    }
}

// What comes of the group in hex `h`, which was sent this route and these pushes. Where only supply units owe, the part route is empty.
// Where nobody near might be pushed, pushes are not looked for: a series without one would be a vacant route.
pub fn decide(p: &[u8], v: View, h: usize, route: &[u16], pushes: &[u16]) -> Fate
    requires { Laid p.now v × (h < v.hexes) × (1 ≤ (board p.now).desk.battle.owed) × ((board p.now).desk.battle.owed ≤ 3) }
    ensures { result ≡ fate_of (board p.now) h route.now pushes.now }
{
    if !any_walks(p, v, h) {
        return by_part(route.is_empty(), pushes);
    }
    match judge(p, v, h, read::owed(p, v), route) {
        Outlook::Legal => by_route(pushes),
        Outlook::Illegal => Fate::WrongRoute,
        Outlook::Friends(run) => by_pushes(p, v, h, run, route, pushes),
        Outlook::Alone(run) => by_part(is_part(p, v, h, run, route), pushes),
    }
}
