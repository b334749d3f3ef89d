// The desk as a scenario tells it: turn, force and phase; the players, and an open battle.
#![tactic(auto)]

pub mod battle;
pub mod time;
