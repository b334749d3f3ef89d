// Whether clock and players on the desk keep their lines of the documents.
#![tactic(auto)]

ghost use Rattle.position.specs.Board.{desk};
ghost use Rattle.acceptance.specs.Accepted.{ClockOk, PlayerOk, PlayersOk};
ghost use Rattle.position.specs.Laid.{Laid, Says};

use clock::{phase, timing};
use position::{View, kind, layout, read, stage};

pub fn clock_ok(p: &[u8], v: View) -> bool
    requires { Laid p.now v }
    ensures { Says result (ClockOk (desk p.now)) }
{
    let turn = read::turn(p, v);
    let stage = read::stage(p, v);
    shape::within(1, turn, 60)
        && shape::within(turn, read::last_turn(p, v), 60)
        && read::phasing(p, v) <= timing::LAST_FORCE
        && read::phase(p, v) <= phase::LAST
        && stage <= stage::ADVANCES
        && (stage == stage::QUIET || read::phase(p, v) == phase::COMBAT)
}

// Whether force `f` has a player, and not force 3's.
fn player_ok(p: &[u8], v: View, f: usize) -> bool
    requires { Laid p.now v }
    ensures { Says result (PlayerOk (desk p.now) f) }
{
    let player = forces::player(p, v, f);
    player <= 3 && (f == kind::HOME || player != forces::player(p, v, kind::HOME))
}

pub fn players_ok(p: &[u8], v: View) -> bool
    requires { Laid p.now v }
    ensures { Says result (PlayersOk (desk p.now)) }
{
    (0..layout::FORCES).all(|f| player_ok(p, v, f))
}
