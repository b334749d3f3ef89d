// The first word of a line.
ghost use Rattle.std.specs.Prelude.{◌≤◌};

const MOST_LETTERS: usize = 8;

// A word has at most eight letters. A longer one is no word.
#[derive(Clone, Copy)]
pub struct Word {
    letters: [u8; MOST_LETTERS],
    length: usize,
    ghost fits: { length ≤ 8 },
}

impl Word {
    pub fn new() -> Word {
        Word {
            letters: [0; MOST_LETTERS],
            length: 0,
        }
    }

    // Whether there was room for one letter more.
    pub fn push(&mut self, letter: u8) -> bool {
        if self.length == MOST_LETTERS {
            return false;
        }
        self.letters[self.length] = letter;
        self.length += 1;
        true
    }

    pub fn letters(&self) -> &[u8] {
        &self.letters[..self.length]
    }
}
