// What the lines of a scenario have in common.
#![tactic(auto)]

use draft::{Draft, Thing};
use phrase::{Fault, Words};

// How many kinds of words a line has at most.
const MOST_KINDS: usize = 8;

// Which kinds of words were in a line, whose words come in any order. Each kind may be there once.
#[derive(Clone, Copy)]
pub struct Seen([bool; MOST_KINDS]);

impl Seen {
    pub fn new() -> Seen {
        Seen([false; MOST_KINDS])
    }

    pub fn has(&self, kind: usize) -> bool {
        self.0.get(kind).copied().unwrap_or(false)
    }

    // A word of this kind.
    pub fn once<'a>(&mut self, kind: usize, word: &'a [u8]) -> Result<(), Fault<'a>> {
        if self.has(kind) {
            return Err(Fault::Again(word));
        }
        if let Some(seen) = self.0.get_mut(kind) {
            *seen = true;
        }
        Ok(())
    }
}

// A hex of the map, whose size must be told before.
pub fn hex<'a>(draft: &Draft, word: &'a [u8]) -> Result<usize, Fault<'a>> {
    let size = draft.size.ok_or(Fault::NoSize)?;
    let hex = phrase::number(word, 0, usize::MAX)?;
    if size.hexes() <= hex {
        return Err(Fault::OffMap(word));
    }
    Ok(hex)
}

pub fn nationality(word: &[u8]) -> Option<usize> {
    phrase::which(word, &["sau", "esc", "pal", "us", "canada"])
}

// A number of one byte.
pub fn byte(word: &[u8]) -> Result<usize, Fault<'_>> {
    phrase::number(word, 0, 255)
}

// A thing that may be said once, and that the line begins to say.
pub fn unsaid<'a>(draft: &Draft, thing: Thing, words: &Words<'a>) -> Result<(), Fault<'a>> {
    if draft.was_said(thing) {
        return Err(Fault::Again(words.so_far()));
    }
    Ok(())
}

// The line ends here.
pub fn done<'a>(words: &mut Words<'a>) -> Result<(), Fault<'a>> {
    match words.next() {
        Some(word) => Err(Fault::Behind(word)),
        None => Ok(()),
    }
}

// The line ends here, and what it says counts as said.
pub fn told<'a>(draft: &mut Draft, thing: Thing, words: &mut Words<'a>) -> Result<(), Fault<'a>> {
    done(words)?;
    draft.say(thing);
    Ok(())
}
