// The lines as they are read, where they are echoed. They are written byte by byte, so that a line may have any length.
use crate::game::Game;
use reading::Stage;

impl Game {
    // Whether the line's first word is `position`.
    fn is_position(&self) -> bool {
        matches!(self.line.word(), b"position")
    }

    // The line's last byte. Of a position only the word is written.
    pub fn echo_byte(&mut self, b: u8) {
        let in_digits = self.is_position() && self.line.stage != Stage::Word;
        if self.answers.echo && !in_digits {
            self.answers.page.put(b);
        }
    }

    // The line's end, and how many bytes the digits of a position make.
    pub fn echo_end(&mut self) {
        if !self.answers.echo {
            return;
        }
        if self.is_position() {
            let bytes = self.line.bytes().map_or(0, <[u8]>::len);
            self.answers.page.word(" ", bytes);
            self.answers.page.text(" bytes");
        }
        self.answers.page.line();
    }
}
