// How a battle's stages pass on, for every call that ends one.
#![tactic(auto)]

ghost use Rattle.std.specs.Prelude.{◌≡◌, cond, [], ◌∷◌, ◌<◌, eqb};
ghost use Rattle.position.specs.Board.{board};
ghost use Rattle.position.specs.Change.{makes};
ghost use Rattle.position.specs.Change.Change.{assigned};
ghost use Rattle.position.specs.Laid.{Laid};
ghost use Rattle.aftermath.specs.Stage.{reassigned, passes_on};

use position::{View, read, role, stage};

// Unit `u` gets the role `to` if it has the role `from`.
fn reassign_one(p: &mut [u8], v: View, u: usize, from: usize, to: usize)
    requires { Laid p.old v × (to < 256) }
    ensures { p.new ≡ makes p.old (cond (eqb ((board p.old).units.state.role u) from) (assigned u to ∷ []) []) }
{
    if read::role(p, v, u) == from {
        write::assign(p, v, u, to);
    }
}

// Every unit with the role `from` gets the role `to`.
pub fn reassign(p: &mut [u8], v: View, from: usize, to: usize)
    requires { Laid p.old v × (to < 256) }
    ensures { p.new ≡ makes p.old (reassigned (board p.old) from to) }
{
    for u in 0..v.count {
        reassign_one(p, v, u, from, to);
    }
}

// The stage that follows, once a call's own changes are written.
pub fn pass_on(p: &mut [u8], v: View)
    requires { Laid p.old v }
    ensures { p.new ≡ makes p.old (passes_on (board p.old)) }
{
    if crowd::holders(p, v, role::OWES) != 0 {
        return;
    }
    if crowd::holders(p, v, role::ADVANCES) != 0 {
        write::set_stage(p, v, stage::ADVANCES, 0, 0);
        return;
    }
    write::set_stage(p, v, stage::QUIET, 0, 0);
    write::clear_routes(p, v);
}
