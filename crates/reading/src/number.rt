// Decimal numbers, 0 to 65535, and the list of a line's first 40.
use crate::{Line, Stage};

// The number with one digit more, if the byte is one and the number is not too large.
fn grown(n: u16, b: u8) -> Option<u16> {
    if !b.is_ascii_digit() {
        return None;
    }
    n.checked_mul(10)?.checked_add(u16::from(b - b'0'))
}

impl Line {
    // A digit, or the end of the number.
    pub(crate) fn in_number(&mut self, n: u16, b: u8) {
        match b {
            b' ' | b'\t' => self.end_number(n, Stage::Gap),
            b'\r' => self.end_number(n, Stage::Tail),
            _ => self.stage = grown(n, b).map_or(Stage::Bad, Stage::Number),
        }
    }

    // The number goes into the list, if there is room.
    pub(crate) fn end_number(&mut self, n: u16, stage: Stage) {
        self.stage = stage;
        if self.count < self.numbers.len() {
            self.numbers[self.count] = n;
            self.count += 1;
        }
    }
}
