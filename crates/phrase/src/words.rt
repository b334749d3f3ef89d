// The words of a line, one after the other.
ghost use Rattle.std.specs.Prelude.{◌-◌, ◌<◌, ◌≤◌, length, OnOk};
ghost use Rattle.std.specs.Iterator.{at_most};

use crate::Fault;

fn is_blank(b: u8) -> bool {
    b == b'\r' || reading::is_blank(b)
}

// The line from its first word on, and where the last word ended that was read.
#[derive(Drop)]
pub struct Words<'a> {
    line: &'a [u8],
    at: usize,
    ghost within: { at ≤ length line.now },
}

impl<'a> Words<'a> {
    pub fn new(line: &'a [u8]) -> Words<'a> {
        let first = line.iter().position(|b| !is_blank(*b));
        Words {
            line: &line[first.unwrap_or(line.len())..],
            at: 0,
        }
    }

    // What has been read, from the line's first word to the end of the last.
    pub fn so_far(&self) -> &'a [u8] {
        &self.line[..self.at]
    }

    // The next word, which may not be missing.
    pub fn need(&mut self) -> Result<&'a [u8], Fault<'a>>
        ensures { OnOk result (length self.new.line.now - self.new.at < length self.old.line.now - self.old.at) }
    {
        self.next().ok_or(Fault::Missing)
    }
}

impl<'a> Iterator for Words<'a> {
    type Item = &'a [u8];

    ghost remaining = { λ s. at_most (length s.line.now - s.at) };

    fn next(&mut self) -> Option<&'a [u8]> {
        let behind = &self.line[self.at..];
        let from = behind.iter().position(|b| !is_blank(*b))?;
        let word = &behind[from..];
        let more = word[1..].iter().position(|b| is_blank(*b));
        let length = more.map_or(word.len(), |n| n + 1);
        self.at += from + length;
        Some(&word[..length])
    }
}
