// How the group takes a step, and has no role any more at its end.
ghost use Rattle.std.specs.Prelude.{◌≡◌, cond, []};
ghost use Rattle.position.specs.Board.{board};
ghost use Rattle.position.specs.Crowd.{owes_at};
ghost use Rattle.position.specs.Change.{makes};
ghost use Rattle.position.specs.Laid.{Laid};
ghost use Rattle.shoves.specs.Group.{group, gather};
ghost use Rattle.shoves.specs.Shoves.{goes_to, group_to, frees};

use position::kind::Kind;
use position::{View, read, role};

// Whether unit `u` owes in hex `h`.
pub fn owes_at(p: &[u8], v: View, h: usize, u: usize) -> bool
    requires { Laid p.now v }
    ensures { result ≡ owes_at (board p.now) h u }
{
    if read::role(p, v, u) != role::OWES {
        return false;
    }
    read::hex(p, v, u) == h
}

// Unit `u` goes to hex `x`; a supply unit is destroyed.
fn go(p: &mut [u8], v: View, x: usize, u: usize)
    requires { Laid p.old v }
    ensures { p.new ≡ makes p.old (goes_to (board p.old) x u) }
{
    if read::kind(p, v, u) == Kind::SUPPLY {
        write::destroy(p, v, u);
        return;
    }
    write::place(p, v, u, x);
}

// Unit `u` goes if it owes in hex `a`.
fn step_one(p: &mut [u8], v: View, a: usize, x: usize, u: usize)
    requires { Laid p.old v }
    ensures { p.new ≡ makes p.old (cond (owes_at (board p.old) a u) (goes_to (board p.old) x u) []) }
{
    if !owes_at(p, v, a, u) {
        return;
    }
    go(p, v, x, u);
}

// The group of hex `a` goes to hex `x`.
pub fn step_all(p: &mut [u8], v: View, a: usize, x: usize)
    requires { Laid p.old v }
    ensures { p.new ≡ makes p.old (group_to (board p.old) a x) }
{
    for u in 0..v.count {
        step_one(p, v, a, x, u);
    }
}

// Unit `u` has no role any more if it owes in hex `a`.
fn free_one(p: &mut [u8], v: View, a: usize, u: usize)
    requires { Laid p.old v }
    ensures { p.new ≡ makes p.old (cond (owes_at (board p.old) a u) (frees u) []) }
{
    if !owes_at(p, v, a, u) {
        return;
    }
    write::assign(p, v, u, role::NONE);
}

// The group of hex `a` has no role any more.
pub fn free_all(p: &mut [u8], v: View, a: usize)
    requires { Laid p.old v }
    ensures { p.new ≡ makes p.old (gather frees (group (board p.old) a)) }
{
    for u in 0..v.count {
        free_one(p, v, a, u);
    }
}
