// A line as far as it has been read, and how a byte more changes it.
ghost use Rattle.std.specs.Prelude.{◌+◌, ◌≤◌, length, IfSome};

use crate::is_blank;
use crate::word::Word;

// Room for a position, and for what a call borrows.
pub const ROOM: usize = 65535;

pub type Room = [u8; ROOM];

// How many numbers of a line are kept.
const MOST_NUMBERS: usize = 40;

// Where in a line the next byte stands: in a number with the number so far, and among hex digits with the first digit of an open pair.
#[derive(Clone, Copy, PartialEq, Eq)]
pub enum Stage {
    First,
    Start,
    Word,
    Gap,
    Number(u16),
    Slash,
    Digits(Option<u8>),
    Tail,
    Comment,
    Bad,
}

// The line's first word; its first 40 numbers, and after how many of them a slash stood; and what its hex digits have made so far,
// if they have begun.
#[derive(Clone, Copy)]
pub struct Line {
    pub stage: Stage,
    word: Word,
    pub(crate) numbers: [u16; MOST_NUMBERS],
    pub(crate) count: usize,
    slash: Option<usize>,
    pub(crate) room: Room,
    pub(crate) made: Option<usize>,
    ghost kept: { count ≤ 40 },
}

impl Line {
    pub fn new() -> Line {
        Line {
            stage: Stage::First,
            word: Word::new(),
            numbers: [0; MOST_NUMBERS],
            count: 0,
            slash: None,
            room: [0; ROOM],
            made: None,
        }
    }

    // The next line begins.
    pub fn clear(&mut self) {
        self.stage = Stage::First;
        self.word = Word::new();
        self.count = 0;
        self.slash = None;
        self.made = None;
    }

    pub fn word(&self) -> &[u8] {
        self.word.letters()
    }

    pub fn numbers(&self) -> &[u16]
        ensures { length result.now ≤ MOST_NUMBERS }
    {
        &self.numbers[..self.count]
    }

    // The numbers before the slash, and those behind it: all stand before it, if there is none.
    pub fn parts(&self) -> (&[u16], &[u16])
        ensures { length result.0.now + length result.1.now ≤ MOST_NUMBERS }
    {
        let numbers = self.numbers();
        let before = self.slash.unwrap_or(numbers.len());
        numbers.split_at(before.min(numbers.len()))
    }

    // What the hex digits have made, if there are any, or the dash of the empty position.
    pub fn bytes(&self) -> Option<&[u8]>
        ensures { IfSome result (λ bytes. length bytes.now ≤ ROOM) }
    {
        self.room.get(..self.made?)
    }

    // One byte more, which is not a newline.
    pub fn step(&mut self, b: u8) {
        match self.stage {
            Stage::First if b == b'#' => self.stage = Stage::Comment,
            Stage::First | Stage::Start if is_blank(b) => self.stage = Stage::Start,
            Stage::First | Stage::Start | Stage::Word => self.in_word(b),
            Stage::Gap => self.in_gap(b),
            Stage::Number(n) => self.in_number(n, b),
            Stage::Slash if is_blank(b) => self.stage = Stage::Gap,
            Stage::Digits(half) => self.in_digits(half, b),
            Stage::Slash | Stage::Tail => self.in_tail(b),
            Stage::Comment | Stage::Bad => {}
        }
    }

    // The line ends: a number that still stands open goes into the list, and no pair of hex digits may be open.
    pub fn close(&mut self) {
        match self.stage {
            Stage::Number(n) => self.end_number(n, Stage::Tail),
            Stage::Digits(Some(_)) => self.stage = Stage::Bad,
            _ => {}
        }
    }

    fn in_word(&mut self, b: u8) {
        match b {
            b' ' | b'\t' => self.stage = Stage::Gap,
            b'\r' => self.stage = Stage::Tail,
            _ => self.letter(b),
        }
    }

    // One letter more of the first word.
    fn letter(&mut self, b: u8) {
        self.stage = Stage::Bad;
        if !b.is_ascii_lowercase() {
            return;
        }
        if self.word.push(b) {
            self.stage = Stage::Word;
        } else {
            self.word = Word::new();
        }
    }

    // Between two words.
    fn in_gap(&mut self, b: u8) {
        match b {
            b' ' | b'\t' => {}
            b'\r' => self.stage = Stage::Tail,
            _ => self.begin(b),
        }
    }

    // The byte that begins the next word belongs to it. Hex digits follow `position`, `off` may follow `echo`, which is read as one word
    // with it, and a slash may part the numbers of `retreat`.
    fn begin(&mut self, b: u8) {
        match self.word.letters() {
            b"position" => self.first_digit(b),
            b"echo" => {
                self.word.push(b' ');
                self.letter(b);
            }
            b"retreat" if b == b'/' => self.part(),
            _ => self.in_number(0, b),
        }
    }

    // A slash is a word of its own, and there is one at most.
    fn part(&mut self) {
        if self.slash.is_some() {
            self.stage = Stage::Bad;
            return;
        }
        self.slash = Some(self.count);
        self.stage = Stage::Slash;
    }

    // Blanks, tabs and carriage returns may stand at the line's end.
    pub(crate) fn in_tail(&mut self, b: u8) {
        self.stage = match b {
            b' ' | b'\t' | b'\r' => Stage::Tail,
            _ => Stage::Bad,
        };
    }
}
