// The lines of a record, read byte by byte: a line as far as it has been read.
#![tactic(auto)]

mod hex;
mod line;
mod number;
mod word;

pub use line::{Line, ROOM, Room, Stage};

// Blanks and tabs stand between words.
pub fn is_blank(b: u8) -> bool {
    matches!(b, b' ' | b'\t')
}
