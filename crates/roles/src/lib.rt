// Whether each role is held by units of one force, and the two by different ones.
#![tactic(auto)]

ghost use Rattle.std.specs.Prelude.{◌≡◌, ℕ, ◌<◌};
ghost use Rattle.position.specs.Layout.{count, role};
ghost use Rattle.position.specs.Board.{board, force_of};
ghost use Rattle.position.specs.Laid.{Laid, Says};
ghost use Rattle.acceptance.specs.Asked.{OneForce, RolesApart, RolesOk};
ghost use Rattle.acceptance.specs.Holder.{HolderOf};

use position::{View, read, role};

// The first unit that has role `r`.
fn holder(p: &[u8], v: View, r: usize) -> Option<usize>
    requires { Laid p.now v }
    ensures { HolderOf (board p.now) r result }
{
    (0..v.count).find(|u| read::role(p, v, *u) == r)
}

// Whether every unit of role `r` is of force `f`.
fn all_of(p: &[u8], v: View, r: usize, f: usize) -> bool
    requires { Laid p.now v }
    ensures { Says result ((u : ℕ) → u < count p.now → role p.now u ≡ r → force_of (board p.now) u ≡ f) }
{
    (0..v.count).all(|u| read::role(p, v, u) != r || forces::force_of(p, v, u) == f)
}

// Whether the units of role `r` are of one force: that of the first of them, if there is one.
fn one_force(p: &[u8], v: View, r: usize, first: Option<usize>) -> bool
    requires { Laid p.now v × HolderOf (board p.now) r first }
    ensures { Says result (OneForce (board p.now) r) }
{
    match first {
        None => true,
        Some(u) => all_of(p, v, r, forces::force_of(p, v, u)),
    }
}

// Whether the force of role 1 is another than that of role 2, by the first that owes and the first that may advance.
fn apart(p: &[u8], v: View, owing: Option<usize>, advancing: Option<usize>) -> bool
    requires laid { Laid p.now v × OneForce (board p.now) 1 × OneForce (board p.now) 2 }
    requires holder_of { HolderOf (board p.now) 1 owing × HolderOf (board p.now) 2 advancing }
    ensures { Says result (RolesApart (board p.now)) }
{
    let (Some(u), Some(w)) = (owing, advancing) else {
        return true;
    };
    forces::force_of(p, v, w) != forces::force_of(p, v, u)
}

pub fn roles_ok(p: &[u8], v: View) -> bool
    requires { Laid p.now v }
    ensures { Says result (RolesOk (board p.now)) }
{
    let owing = holder(p, v, role::OWES);
    let advancing = holder(p, v, role::ADVANCES);
    one_force(p, v, role::OWES, owing)
        && one_force(p, v, role::ADVANCES, advancing)
        && apart(p, v, owing, advancing)
}
