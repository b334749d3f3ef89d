// A result is written: who is turned over, who is destroyed, owes or may advance, the routes, and the desk.
ghost use Rattle.std.specs.Prelude.{◌≡◌, [], map, ◌<◌, ◌≤◌, length};
ghost use Rattle.position.specs.Board.{board};
ghost use Rattle.position.specs.Layout.{hex};
ghost use Rattle.position.specs.Change.{make, makes};
ghost use Rattle.position.specs.Laid.{Laid};
ghost use Rattle.ruling.specs.Verdict.{turned_all};
ghost use Rattle.field.specs.Listed.{named};
ghost use Rattle.results.specs.Participants.{participants};
ghost use Rattle.results.specs.Results.{suffers, once_each, routes_written, routed_from, battle_changes};
ghost use Rattle.results.specs.Settled.{MarksAll, RoutesOnce, Fitting};

use crate::Upshot;
use crate::codes::LOST;
use position::{View, bits, layout, read};

// Every unit of the list is turned over.
fn turn_all(p: &mut [u8], v: View, us: &[u16])
    requires { Laid p.old v }
    ensures { p.new ≡ turned_all p.old us.now }
{
    for u in us {
        write::turn_over(p, v, *u as usize);
    }
}

// Every unit of the list gets fought.
fn mark_all(p: &mut [u8], v: View, us: &[u16])
    requires { Laid p.old v }
    ensures { MarksAll p.old us.now p.new }
{
    for u in us {
        let m = read::marks(p, v, *u as usize);
        write::mark(p, v, *u as usize, bits::with(bits::FOUGHT, m));
    }
}

// What becomes of unit `u`.
fn suffer_one(p: &mut [u8], v: View, u: usize, fate: usize)
    requires { Laid p.old v × (fate < 256) }
    ensures { p.new ≡ make p.old (suffers fate u) }
{
    if fate == LOST {
        write::destroy(p, v, u);
        return;
    }
    write::assign(p, v, u, fate);
}

// What becomes of every unit of the list.
fn suffer(p: &mut [u8], v: View, us: &[u16], fate: usize)
    requires { Laid p.old v × (fate < 256) }
    ensures { p.new ≡ makes p.old (map (suffers fate) us.now) }
{
    for u in us {
        suffer_one(p, v, *u as usize, fate);
    }
}

// Whether one of the units stands on hex `h`.
fn one_stands(p: &[u8], v: View, units: &[u16], h: usize) -> bool
    requires { Laid p.now v }
    ensures { result ≡ named (map (hex p.now) units.now) h }
{
    units.iter().any(|u| read::hex(p, v, *u as usize) == h)
}

// The hex of unit `u` is written as route `r`, unless one before it stands there; then the number of the next route.
fn route_once(p: &mut [u8], v: View, before: &[u16], u: usize, r: usize) -> usize
    requires { Laid p.old v × (r < 65536) }
    ensures { RoutesOnce p.old (named (map (hex p.old) before.now) (hex p.old u)) r (hex p.old u) result p.new }
{
    let h = read::hex(p, v, u);
    if one_stands(p, v, before, h) {
        return r;
    }
    write::set_route(
        p,
        v,
        r,
        h,
        layout::NOWHERE,
        layout::NOWHERE,
        layout::NOWHERE,
    );
    r + 1
}

// The hexes of the units are written as routes, by first naming, once each.
fn route_hexes(p: &mut [u8], v: View, units: &[u16])
    requires { Laid p.old v × (length units.now ≤ 18) }
    ensures { p.new ≡ makes p.old (routed_from 0 (once_each [] (map (hex p.old) units.now))) }
{
    let mut r = 0;
    for (i, u) in units.iter().enumerate() {
        r = route_once(p, v, &units[..i], *u as usize, r);
    }
}

// The routes that a destroyed side leaves.
fn write_routes(p: &mut [u8], v: View, target: usize, units: &[u16], o: Upshot)
    requires { Laid p.old v × (length units.now ≤ 18) × (target < 65536) }
    ensures { p.new ≡ makes p.old (routed_from 0 (routes_written (board p.old) target units.now o)) }
{
    if o.attackers == LOST {
        route_hexes(p, v, units);
        return;
    }
    if o.defenders == LOST {
        write::set_route(
            p,
            v,
            0,
            target,
            layout::NOWHERE,
            layout::NOWHERE,
            layout::NOWHERE,
        );
    }
}

// Everything that a battle changes, once it is decided: `all` are the participants.
pub fn settle(
    p: &mut [u8],
    v: View,
    target: usize,
    units: &[u16],
    all: &[u16],
    o: Upshot,
    need: usize,
)
    requires { Laid p.old v × (length units.now ≤ 18) × (target < 65536) × (all.now ≡ participants (board p.old) target units.now) × Fitting o × (need < 65536) }
    ensures { p.new ≡ makes (turned_all p.old all.now) (battle_changes (board p.old) target units.now o need) }
{
    turn_all(p, v, all);
    mark_all(p, v, all);
    write_routes(p, v, target, units, o);
    suffer(p, v, units, o.attackers);
    suffer(p, v, &all[units.len()..], o.defenders);
    write::set_stage(p, v, o.stage, o.owed, need);
}
