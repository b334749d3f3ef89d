// What is kept from line to line.
use crate::answers::Answers;
use crate::buffer::Buffer;
use crate::bytes::Bytes;
use reading::Line;

// The line that is being read, with its number from 1; the position; the buffer that calls borrow; and the answers.
#[derive(Drop)]
pub struct Game {
    pub line: Line,
    pub number: usize,
    pub position: Bytes,
    pub buffer: Buffer,
    pub answers: Answers,
}

impl Game {
    pub fn new() -> Game {
        Game {
            line: Line::new(),
            number: 1,
            position: Bytes::new(),
            buffer: Buffer::new(),
            answers: Answers::new(),
        }
    }

    // The line cannot be read.
    pub fn what(&mut self) {
        self.answers.what(self.number);
    }
}
