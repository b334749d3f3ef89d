// The words: names, the rules that refusals are given by, and the lines of the record language.
#![tactic(auto)]

mod language;
pub mod names;
mod reasons;

pub use language::help;
pub use reasons::reason;

// The calls, as refusals name them.
#[derive(Clone, Copy, PartialEq, Eq)]
pub enum Call {
    Supply,
    Move,
    End,
    Attack,
    Retreat,
    Losses,
    Advance,
    Close,
}
