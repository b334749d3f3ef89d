// The lines that are no calls.
use crate::game::Game;

// How many nationalities there are.
const NATIONALITIES: u16 = 5;

impl Game {
    // The bytes that the line made take the old position's place, if there was one word of whole pairs.
    pub fn begin(&mut self) {
        let Some(bytes) = self.line.bytes() else {
            return self.what();
        };
        self.position.set(bytes);
    }

    // The next call is to borrow a buffer of this length.
    pub fn want(&mut self) {
        let &[length] = self.line.numbers() else {
            return self.what();
        };
        self.buffer.wanted = Some(usize::from(length));
    }

    // Whether the line has no further word. If it has one, it cannot be read.
    fn is_bare(&mut self) -> bool {
        let is_bare = self.line.numbers().is_empty();
        if !is_bare {
            self.what();
        }
        is_bare
    }

    // The position in hex digits.
    pub fn show(&mut self) {
        if self.is_bare() {
            self.answers.page.hex(self.position.get());
            self.answers.page.line();
        }
    }

    // The buffer that the last call borrowed in hex digits.
    pub fn show_lent(&mut self) {
        if self.is_bare() {
            self.answers.page.hex(self.buffer.lent.get());
            self.answers.page.line();
        }
    }

    // Each unit on the map with its hex, and S or O by supply.
    pub fn roster(&mut self) {
        if self.is_bare() {
            muster::roster(&mut self.answers.page, self.position.get());
        }
    }

    // The map, with the supply of a nationality or of none.
    pub fn map(&mut self) {
        let nationality = match self.line.numbers() {
            [] => None,
            [n] if *n < NATIONALITIES => Some(usize::from(*n)),
            _ => return self.what(),
        };
        story::map(&mut self.answers.page, self.position.get(), nationality);
    }

    pub fn help(&mut self) {
        if self.is_bare() {
            wording::help(&mut self.answers.page);
        }
    }

    // Lines are echoed from here on, or no more.
    pub fn echo(&mut self, on: bool) {
        if self.is_bare() {
            self.answers.echo = on;
        }
    }
}
