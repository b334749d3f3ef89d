// The record, piece by piece and byte by byte.
use crate::game::Game;
use reading::Stage;
use std::io::Read;

impl Game {
    // A newline ends the line, any other byte belongs to it.
    fn byte(&mut self, b: u8) {
        if b == b'\n' {
            self.echo_end();
            self.finish();
        } else {
            self.line.step(b);
            self.echo_byte(b);
        }
    }

    // A piece of the record.
    fn piece(&mut self, bytes: &[u8]) {
        for b in bytes {
            self.byte(*b);
        }
    }

    // The end of the record ends the last line, if a newline did not.
    fn end(&mut self) {
        if self.line.stage != Stage::First {
            self.byte(b'\n');
        }
    }

    // Reads a piece and answers it, and says whether the record goes on. A read that fails ends the record.
    fn turn<R: Read>(&mut self, input: &mut R) -> bool {
        let mut chunk = [0; 65536];
        let n = input.read(&mut chunk).unwrap_or(0);
        if n == 0 {
            self.end();
        } else {
            self.piece(&chunk[..n]);
        }
        self.answers.page.flush();
        n != 0
    }
}

// Reads to the end. The turns are more than any run uses up.
pub fn feed<R: Read>(input: &mut R) {
    let mut game = Game::new();
    for _ in 0..u64::MAX {
        if !game.turn(input) {
            return;
        }
    }
}
