// What a hex is to a retreating group and to the stacks that it pushes.
ghost use Rattle.std.specs.Prelude.{◌≡◌, true, ◌<◌};
ghost use Rattle.position.specs.Tally.{any};
ghost use Rattle.position.specs.Board.{board};
ghost use Rattle.position.specs.Laid.{Laid};
ghost use Rattle.routes.specs.Bears.{bears};
ghost use Rattle.chains.specs.Stand.{apart, firm, bars, stand};
ghost use Rattle.pushes.specs.Drawn.{ShownAt};

use chains::Stand;
use position::kind::Kind;
use position::{View, bits, read, role};

// Whether unit `u` stands on hex `h` and is not of the group in hex `a`.
fn apart(p: &[u8], v: View, a: usize, h: usize, u: usize) -> bool
    requires { Laid p.now v }
    ensures { result ≡ apart (board p.now) a h u }
{
    if read::hex(p, v, u) != h {
        return false;
    }
    if read::role(p, v, u) != role::OWES {
        return true;
    }
    h != a
}

// Whether a stack with unit `u` can't be pushed by force `f`.
#[tactic(auto, using(crate::proofs::Standing::firm_other, crate::proofs::Standing::firm_supply))]
pub fn firm(p: &[u8], v: View, f: usize, u: usize) -> bool
    requires { Laid p.now v }
    ensures { result ≡ firm (board p.now) f u }
{
    if forces::force_of(p, v, u) != f {
        return true;
    }
    if read::kind(p, v, u) == Kind::SUPPLY {
        return true;
    }
    read::role(p, v, u) == role::OWES
}

// Whether a unit that is not of the group stands on hex `h`.
fn any_apart(p: &[u8], v: View, a: usize, h: usize) -> bool
    requires { Laid p.now v }
    ensures { result ≡ any (apart (board p.now) a h) (board p.now).units.count }
{
    (0..v.count).any(|u| apart(p, v, a, h, u))
}

// Whether unit `u` holds hex `h` against every push.
fn bars(p: &[u8], v: View, f: usize, a: usize, h: usize, u: usize) -> bool
    requires { Laid p.now v }
    ensures { result ≡ bars (board p.now) f a h u }
{
    if !apart(p, v, a, h, u) {
        return false;
    }
    firm(p, v, f, u)
}

// Whether one does.
fn any_bars(p: &[u8], v: View, f: usize, a: usize, h: usize) -> bool
    requires { Laid p.now v }
    ensures { result ≡ any (bars (board p.now) f a h) (board p.now).units.count }
{
    (0..v.count).any(|u| bars(p, v, f, a, h, u))
}

// What the group's own hex is, by who else stands there.
fn own_stand(p: &[u8], v: View, f: usize, a: usize) -> Stand
    requires { Laid p.now v × (bears (board p.now) f a ≡ true) }
    ensures { result ≡ stand (board p.now) f a a }
{
    if !any_apart(p, v, a, a) {
        return Stand::Free;
    }
    if any_bars(p, v, f, a, a) {
        return Stand::Shut;
    }
    Stand::Loose
}

// What hex `h`, which has the marks `m`, is to the group of force `f` in hex `a`. Only of its own hex the units are asked.
pub fn stand_at(p: &[u8], v: View, f: usize, a: usize, h: usize, m: usize) -> Stand
    requires { Laid p.now v × (h < v.hexes) × ShownAt (board p.now) f h m }
    ensures { result ≡ stand (board p.now) f a h }
{
    if !ground::standable(p, v, h) {
        return Stand::Shut;
    }
    if bits::has(paint::ZONE, m) {
        return Stand::Shut;
    }
    if !bits::has(paint::HELD, m) {
        return Stand::Free;
    }
    if h == a {
        return own_stand(p, v, f, a);
    }
    if bits::has(paint::SPARE, m) {
        return Stand::Shut;
    }
    Stand::Loose
}
