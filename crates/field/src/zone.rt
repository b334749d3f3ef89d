// Which hexes hold an Enemy, or a neutral force.
ghost use Rattle.std.specs.Prelude.{◌≡◌};
ghost use Rattle.position.specs.Board.{board};
ghost use Rattle.position.specs.Laid.{Laid};
ghost use Rattle.field.specs.Scene.{scene};
ghost use Rattle.field.specs.Zone.{holds_enemy, holds_neutral, related_on, holds_related};

use position::{Relation, View, read};

// Whether unit `u` is in relation `w` to force `f` and stands on hex `h`.
fn related_on(p: &[u8], v: View, w: Relation, f: usize, h: usize, u: usize) -> bool
    requires { Laid p.now v }
    ensures { result ≡ related_on (scene (board p.now)) w f h u }
{
    read::hex(p, v, u) == h && forces::related(p, v, w, f, forces::force_of(p, v, u))
}

// Whether hex `h` holds such a unit.
fn holds_related(p: &[u8], v: View, w: Relation, f: usize, h: usize) -> bool
    requires { Laid p.now v }
    ensures { result ≡ holds_related (scene (board p.now)) w f h }
{
    (0..v.count).any(|u| related_on(p, v, w, f, h, u))
}

// Whether hex `h` holds an Enemy of force `f`.
pub fn holds_enemy(p: &[u8], v: View, f: usize, h: usize) -> bool
    requires { Laid p.now v }
    ensures { result ≡ holds_enemy (scene (board p.now)) f h }
{
    holds_related(p, v, Relation::Enemy, f, h)
}

// Whether it holds a force that is neutral to force `f`. None is where the desk names no players, and nobody has to be looked at.
pub fn holds_neutral(p: &[u8], v: View, f: usize, h: usize) -> bool
    requires { Laid p.now v }
    ensures { result ≡ holds_neutral (scene (board p.now)) f h }
{
    v.players != 0 && holds_related(p, v, Relation::Neutral, f, h)
}
