// The stages of a battle. Numbers and no enum: what is read may be any byte, as long as no check has seen the desk, and its reader
// promises that number (`Read` in `position/specs/Laid.antt`).
pub const QUIET: usize = 0;

pub const RETREATS: usize = 1;

pub const LOSSES: usize = 2;

pub const ADVANCES: usize = 3;
