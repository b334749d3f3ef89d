// The setting of a game, which no call changes: whether chart, results and map keep their lines of document 01.
#![tactic(auto)]

pub mod chart_ok;
pub mod map_ok;
