// The roles of units in a battle: none, to owe, and to be allowed to advance. Numbers and no enum: what is read may be any byte, as long
// as no check has seen the unit, and its reader promises that number (`Read` in `position/specs/Laid.antt`).
pub const NONE: usize = 0;

pub const OWES: usize = 1;

pub const ADVANCES: usize = 2;
