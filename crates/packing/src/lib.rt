// Answers as the one number that a call of the C library gives back.
#![tactic(auto)]

ghost use Rattle.std.specs.Prelude.{◌≡◌};
ghost use Rattle.ruling.specs.Refused.{number_of, place_of};
ghost use Rattle.ruling.specs.Answers.{answer_as};
ghost use Rattle.ruling.specs.Packed.{refusal_of, packed};
ghost use Rattle.march.specs.Answers.{moved_as};
ghost use Rattle.battle.specs.Answers.{fought_as};
ghost use Rattle.retreat.specs.Answers.{retreated_as};

use battle::Fought;
use march::Moved;
use retreat::Retreated;
use ruling::Refusal;

// A refusal: its number in the low byte, its place in bits 8 to 23, whatever they are.
pub fn refusal(n: usize, k: usize) -> u64
    ensures { result ≡ refusal_of n k }
{
    (n % 256 + 256 * (k % 65536)) as u64
}

// The rule that a call is refused by.
fn refused(r: Refusal) -> u64
    ensures { result ≡ refusal_of (number_of r) (place_of r) }
{
    refusal(r.number(), r.place())
}

pub fn pack_answer(a: Result<(), Refusal>) -> u64
    ensures { result ≡ packed (answer_as a) }
{
    match a {
        Ok(()) => 0,
        Err(r) => refused(r),
    }
}

pub fn pack_moved(a: Moved) -> u64
    ensures { result ≡ packed (moved_as a) }
{
    match a {
        Moved::Done => 0,
        Moved::Refused(r) => refused(r),
    }
}

// The column in bits 8 to 15, the code from bit 16 on.
pub fn pack_fought(a: Fought) -> u64
    ensures { result ≡ packed (fought_as a) }
{
    match a {
        Fought::Done(column, code) => (256 * (column % 256) + 65536 * (code % 65536)) as u64,
        Fought::Refused(r) => refused(r),
    }
}

// 1 and the end hex, or 2 for a group that is destroyed.
pub fn pack_retreated(a: Retreated) -> u64
    ensures { result ≡ packed (retreated_as a) }
{
    match a {
        Retreated::To(end) => (256 + 65536 * (end % 65536)) as u64,
        Retreated::Destroyed => 512,
        Retreated::Refused(r) => refused(r),
    }
}
