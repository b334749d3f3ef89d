// The buffer that calls borrow.
use crate::bytes::Bytes;

// What it is filled with before each call.
const FILL: u8 = 0xa5;

// The right length of a buffer for the position `p`.
fn right(p: &[u8]) -> usize {
    match checking::check(p) {
        Some(v) => v.hexes,
        None => 0,
    }
}

// The bytes that the last call borrowed, and how many the next one is to borrow, if a length is wanted.
#[derive(Drop)]
pub struct Buffer {
    pub lent: Bytes,
    pub wanted: Option<usize>,
}

impl Buffer {
    pub fn new() -> Buffer {
        Buffer {
            lent: Bytes::new(),
            wanted: None,
        }
    }

    // A call at the position `p` borrows as many bytes as are wanted, or the right number of them.
    pub fn lend(&mut self, p: &[u8]) {
        match self.wanted {
            Some(length) => self.resize(length),
            None => self.resize(right(p)),
        }
        self.lent.get_mut().fill(FILL);
    }

    // A call borrows no bytes.
    pub fn lend_none(&mut self) {
        self.resize(0);
    }

    // A wanted length is used up.
    fn resize(&mut self, length: usize) {
        self.lent.resize(length);
        self.wanted = None;
    }
}
