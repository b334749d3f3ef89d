// A scenario, line by line: what each line says goes into the draft. A line more of the language is a word more in
// `lines`, and the rest in the crate of its kind.
#![tactic(auto)]

pub mod beginning;
mod lines;

pub use lines::{Told, line};
