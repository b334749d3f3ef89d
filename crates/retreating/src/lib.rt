// Retreat: a group that owes goes off along a vacant route, pushes friends out of its road, or is destroyed where it can go no further.
#![tactic(auto)]

ghost use Rattle.std.specs.Prelude.{[]};
ghost use Rattle.position.specs.Board.{board};
ghost use Rattle.position.specs.Laid.{Laid};
ghost use Rattle.acceptance.specs.Accepted.{Accepted};
ghost use Rattle.ruling.specs.Verdict.{Met};
ghost use Rattle.retreat.specs.Retreat.{retreat_rule};
ghost use Rattle.retreat.specs.Answers.{retreated_as};

mod asking;

use position::View;
use retreat::{Fate, Retreated};
use ruling::Refusal;

// The retreat on a checked position: the units that owe in `hex` go along `route`; friends in their road go where `pushes` says.
pub fn retreat(p: &mut [u8], v: View, hex: usize, route: &[u16], pushes: &[u16]) -> Retreated
    requires { Laid p.old v × Accepted p.old }
    ensures { Met p.old [] (retreat_rule (board p.old) hex route.now pushes.now) (retreated_as result) p.new [] }
{
    if let Err(refusal) = asking::judge_group(p, v, hex, route, pushes) {
        return Retreated::Refused(refusal);
    }
    match fate::decide(p, v, hex, route, pushes) {
        Fate::Lost => {
            going::fall(p, v, hex, route);
            Retreated::Destroyed
        }
        Fate::WrongRoute => Retreated::Refused(Refusal::WrongRoute),
        Fate::WrongPushes => Retreated::Refused(Refusal::WrongPushes),
        Fate::Walking => Retreated::To(going::go_off(p, v, hex, route)),
        Fate::Pushing => Retreated::To(going::push_off(p, v, hex, route, pushes)),
    }
}
