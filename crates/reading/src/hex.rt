// Hex digits, two to a byte.
use crate::{Line, Stage};

// What a digit stands for.
fn value(b: u8) -> Option<u8> {
    match b {
        b'0'..=b'9' => Some(b - b'0'),
        b'A'..=b'F' => Some(b - b'A' + 10),
        b'a'..=b'f' => Some(b - b'a' + 10),
        _ => None,
    }
}

impl Line {
    // The first digit, or the dash of the empty position.
    pub(crate) fn first_digit(&mut self, b: u8) {
        if b == b'-' {
            self.made = Some(0);
            self.stage = Stage::Tail;
        } else {
            self.in_digits(None, b);
        }
    }

    // A digit, or the end of the digits, which is not within a pair.
    pub(crate) fn in_digits(&mut self, half: Option<u8>, b: u8) {
        match (half, value(b)) {
            (Some(high), Some(low)) => self.pair((high << 4) | low),
            (None, Some(high)) => self.open(high),
            (None, None) => self.in_tail(b),
            (Some(_), None) => self.stage = Stage::Bad,
        }
    }

    // The first digit of a pair.
    fn open(&mut self, high: u8) {
        self.made = self.made.or(Some(0));
        self.stage = Stage::Digits(Some(high));
    }

    // The second digit of a pair makes a byte, if there is room.
    fn pair(&mut self, b: u8) {
        let at = self.made.unwrap_or(0);
        if let Some(place) = self.room.get_mut(at) {
            *place = b;
            self.made = Some(at + 1);
            self.stage = Stage::Digits(None);
        } else {
            self.stage = Stage::Bad;
        }
    }
}
