// The line that is being read, without its comment.

// How many bytes a line has at most.
pub const ROOM: usize = 400;

// How many bytes there were, and those that have room; and whether the comment has begun.
#[derive(Clone, Copy)]
pub struct Text {
    bytes: [u8; ROOM],
    length: usize,
    comment: bool,
}

impl Text {
    pub fn new() -> Text {
        Text {
            bytes: [0; ROOM],
            length: 0,
            comment: false,
        }
    }

    // The next line begins.
    pub fn clear(&mut self) {
        self.length = 0;
        self.comment = false;
    }

    // One byte more.
    pub fn add(&mut self, b: u8) {
        if b == b'#' {
            self.comment = true;
        }
        if self.comment {
            return;
        }
        if let Some(place) = self.bytes.get_mut(self.length) {
            *place = b;
        }
        self.length = self.length.saturating_add(1);
    }

    // The line, if it had room.
    pub fn line(&self) -> Option<&[u8]> {
        self.bytes.get(..self.length)
    }
}
