// Turns the scenario on standard input, from its line `setup` to its line `begin`, into the bytes of its position. Where it cannot be read or
// its position is not accepted, nothing is written to standard output, and words with the line's number to standard error.
#![tactic(auto)]

use draft::Draft;
use draft::text::Text;
use page::Page;
use std::io::Read;
use telling::Told;
use telling::beginning::{self, Lack};

// The descriptor of the standard output.
const STDOUT: i32 = 1;

// The scenario as far as it is told, the line that is being read with its number from 1, what is said to the standard error, and whether
// there is nothing more to be read.
#[derive(Drop)]
struct Setup {
    draft: Draft,
    text: Text,
    number: usize,
    errors: Page,
    over: bool,
}

impl Setup {
    fn new() -> Setup {
        Setup {
            draft: Draft::new(),
            text: Text::new(),
            number: 1,
            errors: Page::of_errors(),
            over: false,
        }
    }

    // A newline ends the line, any other byte belongs to it. What stands behind `begin` is passed over.
    fn byte(&mut self, b: u8) {
        if self.over {
            return;
        }
        if b == b'\n' {
            self.line();
            self.text.clear();
            self.number = self.number.wrapping_add(1);
        } else {
            self.text.add(b);
        }
    }

    // The line, once it has ended. The first that cannot be read is kept.
    fn line(&mut self) {
        match telling::line(&mut self.draft, &self.text) {
            Ok(Told::More) => {}
            Ok(Told::Begin) => self.begin(),
            Err(fault) => {
                self.errors.word("line ", self.number);
                self.errors.text(": ");
                fault.explain(&mut self.errors);
                self.errors.line();
                self.errors.flush();
                self.draft.unread = self.draft.unread.or(Some(self.number));
            }
        }
    }

    // The position, or why there is none.
    fn begin(&mut self) {
        let mut room = [0; draft::ROOM];
        match beginning::begin(&self.draft, &mut room) {
            Ok(position) => {
                io::write_all(STDOUT, position);
            }
            Err(lack) => self.refuse(lack),
        }
        self.over = true;
    }

    fn refuse(&mut self, lack: Lack) {
        self.errors.text("no position: ");
        lack.explain(&mut self.errors);
        self.errors.line();
        self.errors.flush();
    }

    fn piece(&mut self, bytes: &[u8]) {
        for b in bytes {
            self.byte(*b);
        }
    }

    // The end of the input ends the last line, and a scenario that was not begun.
    fn end(&mut self) {
        self.byte(b'\n');
        if !self.over {
            self.refuse(Lack::Begin);
        }
        self.over = true;
    }

    // Reads a piece. A read that fails ends the scenario.
    fn turn<R: Read>(&mut self, input: &mut R) {
        let mut chunk = [0; 65536];
        match input.read(&mut chunk) {
            Ok(n) if 0 < n => self.piece(&chunk[..n]),
            _ => self.end(),
        }
    }
}

// Reads to the end. The turns are more than any run uses up.
fn feed<R: Read>(input: &mut R) {
    let mut setup = Setup::new();
    for _ in 0..u64::MAX {
        setup.turn(input);
        if setup.over {
            return;
        }
    }
}

fn main(rt: HostRuntime) {
    feed(&mut rt.reader());
}
