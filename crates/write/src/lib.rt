// All that a call may do to a position: one function for each kind of change. Each does nothing for a unit, a hex or a route that is not there.
#![tactic(auto)]

ghost use Rattle.std.specs.Prelude.{◌≡◌, ◌<◌};
ghost use Rattle.position.specs.Layout.{route_count, route_hexes, set_hex, set_route_hex};
ghost use Rattle.position.specs.Change.{make, turned};
ghost use Rattle.position.specs.Change.Change.{placed, destroyed, marked, assigned, timed, staged, routed, unrouted};
ghost use Rattle.position.specs.Laid.{Laid};

use position::{View, bits, layout, read, role};

fn set_hex(p: &mut [u8], v: View, u: usize, h: usize)
    requires { Laid p.old v × (h < 65536) }
    ensures { p.new ≡ set_hex p.old u h }
{
    layout::set_unit(p, v, u, layout::HEX, h % 256);
    layout::set_unit(p, v, u, layout::HEX + 1, h / 256);
}

// Unit `u` stands on hex `h` of the map.
pub fn place(p: &mut [u8], v: View, u: usize, h: usize)
    requires { Laid p.old v }
    ensures { p.new ≡ make p.old (placed u h) }
{
    let hexes = v.hexes;
    if h < hexes {
        set_hex(p, v, u, h);
    }
}

// Unit `u` is destroyed: it has no role and no mark but tried.
pub fn destroy(p: &mut [u8], v: View, u: usize)
    requires { Laid p.old v }
    ensures { p.new ≡ make p.old (destroyed u) }
{
    let old = read::marks(p, v, u);
    set_hex(p, v, u, layout::NOWHERE);
    layout::set_unit(p, v, u, layout::MARKS, old % 2);
    layout::set_unit(p, v, u, layout::ROLE, role::NONE);
}

// Unit `u` has the marks `m`, with tried as it was.
pub fn mark(p: &mut [u8], v: View, u: usize, m: usize)
    requires { Laid p.old v × (m < 256) }
    ensures { p.new ≡ make p.old (marked u m) }
{
    let old = read::marks(p, v, u);
    layout::set_unit(p, v, u, layout::MARKS, m / 2 * 2 + old % 2);
}

// Unit `u` is turned over.
pub fn turn_over(p: &mut [u8], v: View, u: usize)
    requires { Laid p.old v }
    ensures { p.new ≡ turned p.old u }
{
    let old = read::marks(p, v, u);
    layout::set_unit(p, v, u, layout::MARKS, bits::with(bits::TRIED, old));
}

// Unit `u` has the role `r`.
pub fn assign(p: &mut [u8], v: View, u: usize, r: usize)
    requires { Laid p.old v × (r < 256) }
    ensures { p.new ≡ make p.old (assigned u r) }
{
    layout::set_unit(p, v, u, layout::ROLE, r);
}

pub fn set_clock(p: &mut [u8], v: View, turn: usize, force: usize, phase: usize)
    requires { Laid p.old v × (turn < 256) × (force < 256) × (phase < 256) }
    ensures { p.new ≡ make p.old (timed turn force phase) }
{
    layout::set_desk(p, v, layout::TURN, turn);
    layout::set_desk(p, v, layout::FORCE, force);
    layout::set_desk(p, v, layout::PHASE, phase);
}

pub fn set_stage(p: &mut [u8], v: View, stage: usize, owed: usize, need: usize)
    requires { Laid p.old v × (stage < 256) × (owed < 256) × (need < 65536) }
    ensures { p.new ≡ make p.old (staged stage owed need) }
{
    layout::set_desk(p, v, layout::STAGE, stage);
    layout::set_desk(p, v, layout::OWED, owed);
    layout::set_desk(p, v, layout::NEED, need % 256);
    layout::set_desk(p, v, layout::NEED + 1, need / 256);
}

fn set_route_hex(p: &mut [u8], v: View, r: usize, j: usize, h: usize)
    requires { Laid p.old v × (r < route_count) × (j < route_hexes) × (h < 65536) }
    ensures { p.new ≡ set_route_hex p.old r j h }
{
    let at = layout::ROUTES + layout::ROUTE_SIZE * r + layout::PLACE_SIZE * j;
    layout::set_desk(p, v, at, h % 256);
    layout::set_desk(p, v, at + 1, h / 256);
}

// Route `r` is these four numbers, 65535 for none.
pub fn set_route(p: &mut [u8], v: View, r: usize, a: usize, b: usize, c: usize, d: usize)
    requires { Laid p.old v × (a < 65536) × (b < 65536) × (c < 65536) × (d < 65536) }
    ensures { p.new ≡ make p.old (routed r a b c d) }
{
    if layout::ROUTE_COUNT <= r {
        return;
    }
    set_route_hex(p, v, r, 0, a);
    set_route_hex(p, v, r, 1, b);
    set_route_hex(p, v, r, 2, c);
    set_route_hex(p, v, r, 3, d);
}

// No route is filled.
pub fn clear_routes(p: &mut [u8], v: View)
    requires { Laid p.old v }
    ensures { p.new ≡ make p.old unrouted }
{
    for r in 0..layout::ROUTE_COUNT {
        set_route(
            p,
            v,
            r,
            layout::NOWHERE,
            layout::NOWHERE,
            layout::NOWHERE,
            layout::NOWHERE,
        );
    }
}
