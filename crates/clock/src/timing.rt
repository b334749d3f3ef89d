// The clock of turn, force and phase: the one place that knows the order.
ghost use Rattle.std.specs.Prelude.{◌≡◌, ◌<◌};
ghost use Rattle.clock.specs.Clock.{next_clock, is_last, judges_supply};

use crate::{Clock, phase};

pub const LAST_FORCE: usize = 3;

impl Clock {
    // The clock moved on: phases 0, 1, 2, then the next force, and after force 3 the next turn.
    pub fn next(self) -> Clock
        requires { (self.turn < 256) × (self.force < 256) × (self.phase < 256) }
        ensures { result ≡ next_clock self }
    {
        let turn = self.turn;
        let force = self.force;
        let phase = self.phase;
        if phase != phase::LAST {
            return Clock {
                turn,
                force,
                phase: phase + 1,
            };
        }
        if force != LAST_FORCE {
            return Clock {
                turn,
                force: force + 1,
                phase: phase::FIRST,
            };
        }
        Clock {
            turn: turn + 1,
            force: 0,
            phase: phase::FIRST,
        }
    }

    // Whether this is the last phase of the last turn.
    pub fn is_last(self, last: usize) -> bool
        ensures { result ≡ is_last self last }
    {
        if self.phase != phase::LAST {
            return false;
        }
        if self.force != LAST_FORCE {
            return false;
        }
        self.turn == last
    }

    // Whether supply is judged on entering this phase.
    pub fn judges_supply(self) -> bool
        ensures { result ≡ judges_supply self }
    {
        let phase = self.phase;
        if phase == phase::LAND {
            return true;
        }
        phase == phase::MECHANISED
    }
}

// The clock that is lent moves on: it is taken out, moved on by value, and put back.
pub fn move_on(clock: &mut Clock)
    requires { (clock.old.turn < 256) × (clock.old.force < 256) × (clock.old.phase < 256) }
    ensures { clock.new ≡ next_clock clock.old }
{
    let next = clock.next();
    clock.turn = next.turn;
    clock.force = next.force;
    clock.phase = next.phase;
}
