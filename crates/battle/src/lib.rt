// Battle: the attack and its line.
#![tactic(auto)]

use ruling::Refusal;

// The answer to an attack: the column, counted from 1, and the result code; or refused with the rule and its place in the list.
// Document 01 names the form: an enum of its own.
#[derive(Clone, Copy, PartialEq, Eq)]
pub enum Fought {
    Done(usize, usize),
    Refused(Refusal),
}
