// The phases of a force. Numbers and no enum: what is read may be any byte, as long as no check has seen the desk, and its reader
// promises that number (`Read` in `position/specs/Laid.antt`).
pub const LAND: usize = 0;

pub const COMBAT: usize = 1;

pub const MECHANISED: usize = 2;

// The first phase of a force, and the last.
pub const FIRST: usize = LAND;

pub const LAST: usize = MECHANISED;
