// The words of a scenario's line, and what can be wrong with one.
#![tactic(auto)]

mod fault;
mod figures;
mod table;
mod words;

pub use fault::Fault;
pub use figures::number;
pub use table::{Small, lower, parted, which};
pub use words::Words;
