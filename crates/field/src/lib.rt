// The field: who stands where, zones of control, and what one unit or hex comes to for a call.
#![tactic(auto)]

pub mod listed;
pub mod unit;
pub mod zone;
