// The clock of turn, force and phase: a small struct, moved on by value and, where it is lent, in place.
#![tactic(auto)]

pub mod phase;
pub mod timing;

// Whose turn it is: turn, force and phase.
#[derive(Clone, Copy)]
pub struct Clock {
    pub turn: usize,
    pub force: usize,
    pub phase: usize,
}
