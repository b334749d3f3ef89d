// A position as lent bytes: how its bodies lie, and each number read and written by name.
#![tactic(auto)]

pub mod bits;
pub mod kind;
pub mod layout;
pub mod read;
pub mod role;
pub mod stage;

// What is handed on of a position whose bodies lie as they should: its counts, where its units and its desk begin, and how many
// players the desk names.
#[derive(Clone, Copy)]
pub struct View {
    pub width: usize,
    pub height: usize,
    pub hexes: usize,
    pub columns: usize,
    pub count: usize,
    pub units: usize,
    pub desk: usize,
    pub players: usize,
}

// What another force is to a force: its player is another, or the same.
#[derive(Clone, Copy)]
pub enum Relation {
    Enemy,
    Neutral,
}
