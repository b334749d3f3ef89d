// Results: what a result code does to the two sides and to the desk, and how it is written.
#![tactic(auto)]

pub mod codes;
pub mod settling;

// What a result does to the two sides and to the desk. A side is destroyed (0), owes (1) or may advance (2).
#[derive(Clone, Copy)]
pub struct Upshot {
    pub attackers: usize,
    pub defenders: usize,
    pub stage: usize,
    pub owed: usize,
}
