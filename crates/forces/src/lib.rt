// Who belongs to whom.
#![tactic(auto)]

ghost use Rattle.std.specs.Prelude.{◌≡◌};
ghost use Rattle.position.specs.Layout.{player};
ghost use Rattle.position.specs.Board.{board, force_of, enemy, neutral, relates};
ghost use Rattle.position.specs.Laid.{Laid};

use position::{Relation, View, kind, layout, read};

// The player of force `f`: the force's own number where the desk names none.
pub fn player(p: &[u8], v: View, f: usize) -> usize
    requires { Laid p.now v }
    ensures { result ≡ player p.now f }
{
    let unnamed = v.players <= f;
    if unnamed {
        return f;
    }
    layout::desk_byte(p, v, layout::PLAYERS + f)
}

// The force of unit `u`.
pub fn force_of(p: &[u8], v: View, u: usize) -> usize
    requires { Laid p.now v }
    ensures { result ≡ force_of (board p.now) u }
{
    kind::force(read::nationality(p, v, u))
}

// Whether force `g` is Enemy to force `f`.
pub fn enemy(p: &[u8], v: View, f: usize, g: usize) -> bool
    requires { Laid p.now v }
    ensures { result ≡ enemy (board p.now) f g }
{
    player(p, v, f) != player(p, v, g)
}

// Whether force `g` is neutral to force `f`.
pub fn neutral(p: &[u8], v: View, f: usize, g: usize) -> bool
    requires { Laid p.now v }
    ensures { result ≡ neutral (board p.now) f g }
{
    if f == g {
        return false;
    }
    player(p, v, f) == player(p, v, g)
}

// Whether force `g` is in relation `w` to force `f`.
pub fn related(p: &[u8], v: View, w: Relation, f: usize, g: usize) -> bool
    requires { Laid p.now v }
    ensures { result ≡ relates (board p.now) w f g }
{
    match w {
        Relation::Enemy => enemy(p, v, f, g),
        Relation::Neutral => neutral(p, v, f, g),
    }
}
