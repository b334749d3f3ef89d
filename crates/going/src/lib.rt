// How a group leaves its hex: the route is written, each unit goes or is destroyed, and the stage passes on.
#![tactic(auto)]

ghost use Rattle.std.specs.Prelude.{◌≡◌, cond, [], ◌∷◌, map, ◌<◌, ◌≤◌, get_or};
ghost use Rattle.position.specs.Board.{board, nowhere};
ghost use Rattle.position.specs.Crowd.{owes_at};
ghost use Rattle.position.specs.Change.{make, makes};
ghost use Rattle.position.specs.Change.Change.{destroyed};
ghost use Rattle.position.specs.Laid.{Laid, Read};
ghost use Rattle.aftermath.specs.Stage.{then_on};
ghost use Rattle.shoves.specs.Group.{group};
ghost use Rattle.retreat.specs.Retreat.{leaves, goes_off, end_of, note_of, retreat_changes, push_changes, doom_changes};

use position::kind::Kind;
use position::{View, layout, read, role};
use shoves::group;

// Number `i` of the route, 65535 if it has no more.
fn hex_at(route: &[u16], i: usize) -> usize
    ensures { Read (get_or route.now i nowhere) 65536 result }
{
    route.get(i).map_or(layout::NOWHERE, |x| *x as usize)
}

// Unit `u` goes to hex `end` with no role; a supply unit is destroyed.
#[tactic(auto, using(retreat::proofs::Leaving::leave_supply))]
fn leave(p: &mut [u8], v: View, end: usize, u: usize)
    requires { Laid p.old v }
    ensures { p.new ≡ makes p.old (leaves (board p.old) end u) }
{
    if read::kind(p, v, u) == Kind::SUPPLY {
        write::destroy(p, v, u);
        return;
    }
    write::place(p, v, u, end);
    write::assign(p, v, u, role::NONE);
}

// Unit `u` leaves if it owes in hex `h`.
fn leave_one(p: &mut [u8], v: View, h: usize, end: usize, u: usize)
    requires { Laid p.old v }
    ensures { p.new ≡ makes p.old (cond (owes_at (board p.old) h u) (leaves (board p.old) end u) []) }
{
    if !group::owes_at(p, v, h, u) {
        return;
    }
    leave(p, v, end, u);
}

// Every unit that owes in hex `h` leaves.
fn leave_all(p: &mut [u8], v: View, h: usize, end: usize)
    requires { Laid p.old v }
    ensures { p.new ≡ makes p.old (goes_off (board p.old) end (group (board p.old) h)) }
{
    for u in 0..v.count {
        leave_one(p, v, h, end, u);
    }
}

// Unit `u` is destroyed if it owes in hex `h`.
fn fall_one(p: &mut [u8], v: View, h: usize, u: usize)
    requires { Laid p.old v }
    ensures { p.new ≡ makes p.old (cond (owes_at (board p.old) h u) (destroyed u ∷ []) []) }
{
    if !group::owes_at(p, v, h, u) {
        return;
    }
    write::destroy(p, v, u);
}

// Every unit that owes in hex `h` is destroyed.
fn fall_all(p: &mut [u8], v: View, h: usize)
    requires { Laid p.old v }
    ensures { p.new ≡ makes p.old (map destroyed (group (board p.old) h)) }
{
    for u in 0..v.count {
        fall_one(p, v, h, u);
    }
}

// Start and route are written as the next route.
fn note(p: &mut [u8], v: View, h: usize, route: &[u16])
    requires { Laid p.old v × (h < 65536) }
    ensures { p.new ≡ make p.old (note_of (board p.old) h route.now) }
{
    let r = crowd::routes(p, v);
    write::set_route(
        p,
        v,
        r,
        h,
        hex_at(route, 0),
        hex_at(route, 1),
        hex_at(route, 2),
    );
}

// Where the route ends.
fn end_of(p: &[u8], v: View, route: &[u16]) -> usize
    requires { Laid p.now v × (1 ≤ (board p.now).desk.battle.owed) }
    ensures { result ≡ end_of (board p.now) route.now }
{
    hex_at(route, read::owed(p, v) - 1)
}

// The group in hex `h` goes off along the vacant route; the answer is where it ends.
pub fn go_off(p: &mut [u8], v: View, h: usize, route: &[u16]) -> usize
    requires { Laid p.old v × (h < 65536) × (1 ≤ (board p.old).desk.battle.owed) }
    ensures { (result ≡ end_of (board p.old) route.now) × (p.new ≡ makes p.old (then_on (board p.old) (retreat_changes (board p.old) h route.now))) }
{
    let end = end_of(p, v, route);
    note(p, v, h, route);
    leave_all(p, v, h, end);
    passing::pass_on(p, v);
    end
}

// The group in hex `h` goes off along the route and pushes friends out of it; the answer is where it ends.
pub fn push_off(p: &mut [u8], v: View, h: usize, route: &[u16], pushes: &[u16]) -> usize
    requires { Laid p.old v × (h < 65536) × (1 ≤ (board p.old).desk.battle.owed) }
    ensures { (result ≡ end_of (board p.old) route.now) × (p.new ≡ makes p.old (then_on (board p.old) (push_changes (board p.old) h route.now pushes.now))) }
{
    let end = end_of(p, v, route);
    note(p, v, h, route);
    shoves::march_off(p, v, h, route, pushes);
    passing::pass_on(p, v);
    end
}

// The group in hex `h` is destroyed at the end of its part route.
pub fn fall(p: &mut [u8], v: View, h: usize, route: &[u16])
    requires { Laid p.old v × (h < 65536) }
    ensures { p.new ≡ makes p.old (then_on (board p.old) (doom_changes (board p.old) h route.now)) }
{
    note(p, v, h, route);
    fall_all(p, v, h);
    passing::pass_on(p, v);
}
