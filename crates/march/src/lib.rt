// March: move and end phase.
#![tactic(auto)]

use ruling::Refusal;

// The answer to a move: done, or refused with the rule and its place in the path. Document 01 names the form: an enum of its own.
#[derive(Clone, Copy, PartialEq, Eq)]
pub enum Moved {
    Done,
    Refused(Refusal),
}
