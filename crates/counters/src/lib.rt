// Whether the units keep their lines of document 01: each alone, then their stacks and their roles.
#![tactic(auto)]

ghost use Rattle.std.specs.Prelude.{ℕ, ◌<◌};
ghost use Rattle.position.specs.Layout.{count};
ghost use Rattle.position.specs.Board.{board};
ghost use Rattle.position.specs.Laid.{Laid, Says};
ghost use Rattle.acceptance.specs.Accepted.{StrengthsOk, DestroyedOk, CounterOk, DutyOk, UnitsOk};
ghost use Rattle.acceptance.specs.Asked.{GroundOk, AloneOk};

use position::kind::Kind;
use position::{View, bits, layout, read, role};

pub fn strengths_ok(p: &[u8], v: View) -> bool
    requires { Laid p.now v }
    ensures { Says result (StrengthsOk p.now) }
{
    (0..v.count).all(|u| shape::within(1, read::strength(p, v, u), 60))
}

fn destroyed_ok(p: &[u8], v: View, u: usize) -> bool
    requires { Laid p.now v }
    ensures { Says result (DestroyedOk (board p.now) u) }
{
    read::role(p, v, u) == role::NONE && read::marks(p, v, u) <= bits::TRIED
}

// On the map or in the box, whichever the unit's hex says.
fn ground_ok(p: &[u8], v: View, u: usize) -> bool
    requires { Laid p.now v }
    ensures { Says result (GroundOk (board p.now) u) }
{
    let h = read::hex(p, v, u);
    if h == layout::NOWHERE {
        return destroyed_ok(p, v, u);
    }
    ground::standable(p, v, h)
}

fn counter_ok(p: &[u8], v: View, u: usize) -> bool
    requires { Laid p.now v }
    ensures { Says result (CounterOk (board p.now) u) }
{
    let kind = Kind(read::kind(p, v, u));
    let marks = read::marks(p, v, u);
    kind.may_belong(read::nationality(p, v, u))
        && kind.may_allow(read::allowance(p, v, u))
        && marks < bits::MARKS_END
        && (bits::has(bits::TRIED, marks) || !kind.always_tried())
}

// A unit with a role is tried and on the map.
fn duty_ok(p: &[u8], v: View, u: usize) -> bool
    requires { Laid p.now v }
    ensures { Says result (DutyOk (board p.now) u) }
{
    let role = read::role(p, v, u);
    role == role::NONE
        || role <= role::ADVANCES
            && read::hex(p, v, u) != layout::NOWHERE
            && bits::has(bits::TRIED, read::marks(p, v, u))
}

// Unit `u`, whoever stands with it.
fn alone_ok(p: &[u8], v: View, u: usize) -> bool
    requires { Laid p.now v }
    ensures { Says result (AloneOk (board p.now) u) }
{
    counter_ok(p, v, u) && duty_ok(p, v, u) && ground_ok(p, v, u)
}

fn each_ok(p: &[u8], v: View) -> bool
    requires { Laid p.now v }
    ensures { Says result ((u : ℕ) → u < count p.now → AloneOk (board p.now) u) }
{
    (0..v.count).all(|u| alone_ok(p, v, u))
}

// The stacks and the roles come last: they ask of units that stand on the map, and of forces 0 to 3.
pub fn units_ok(p: &[u8], v: View) -> bool
    requires { Laid p.now v }
    ensures { Says result (UnitsOk (board p.now)) }
{
    each_ok(p, v) && stacks::stacks_ok(p, v) && roles::roles_ok(p, v)
}
