// A page of output. What is put on it is written out when the page is full, and when it is flushed.
#![tactic(auto)]

ghost use Rattle.std.specs.Prelude.{◌≡◌, ◌≤◌};

// The descriptors of the standard output and of the standard error.
const STDOUT: i32 = 1;

const STDERR: i32 = 2;

// How many bytes a page holds.
const SIZE: usize = 65536;

// The digits of a hex number.
const DIGITS: [u8; 16] = *b"0123456789abcdef";

#[derive(Drop)]
pub struct Page {
    descriptor: i32,
    bytes: [u8; SIZE],
    full: usize,
    ghost fits: { full ≤ 65536 },
}

impl Page {
    // A page of the standard output.
    pub fn new() -> Page {
        Page::of(STDOUT)
    }

    // A page of the standard error.
    pub fn of_errors() -> Page {
        Page::of(STDERR)
    }

    fn of(descriptor: i32) -> Page {
        Page {
            descriptor,
            bytes: [0; SIZE],
            full: 0,
        }
    }

    // Writes out what the page holds.
    pub fn flush(&mut self)
        ensures { self.new.full ≡ 0 }
    {
        io::write_all(self.descriptor, &self.bytes[..self.full]);
        self.full = 0;
    }

    pub fn put(&mut self, b: u8) {
        if SIZE <= self.full {
            self.flush();
        }
        self.bytes[self.full] = b;
        self.full += 1;
    }

    pub fn bytes(&mut self, bytes: &[u8]) {
        for b in bytes {
            self.put(*b);
        }
    }

    pub fn text(&mut self, text: &str) {
        self.bytes(text.as_bytes());
    }

    // The text, if it holds.
    pub fn text_if(&mut self, holds: bool, text: &str) {
        if holds {
            self.text(text);
        }
    }

    // Word `n` of the words, from 0 on. What has no word there is written as `?`.
    pub fn nth(&mut self, words: &[&str], n: usize) {
        match words.get(n) {
            Some(word) => self.text(word),
            None => self.put(b'?'),
        }
    }

    // So many blanks.
    pub fn blanks(&mut self, n: usize) {
        for _ in 0..n {
            self.put(b' ');
        }
    }

    pub fn number(&mut self, n: usize) {
        self.column(n, 0);
    }

    // A number with blanks before it, up to `width`.
    pub fn column(&mut self, n: usize, width: usize) {
        let mut digits = [0u8; 20];
        let k = io::decimal(n as u64, &mut digits);
        self.blanks(width.saturating_sub(k));
        self.bytes(&digits[..k]);
    }

    // A text with its blank, and a number.
    pub fn word(&mut self, text: &str, n: usize) {
        self.text(text);
        self.number(n);
    }

    // A text with its blank, and two numbers.
    pub fn pair(&mut self, text: &str, a: usize, b: usize) {
        self.word(text, a);
        self.word(" ", b);
    }

    pub fn line(&mut self) {
        self.put(b'\n');
    }

    // The line ends, and the blanks before its end are taken back as far as they are not written yet.
    pub fn trimmed_line(&mut self) {
        let kept = self.bytes[..self.full].iter().rposition(|b| *b != b' ');
        self.full = kept.map_or(0, |last| last + 1);
        self.line();
    }

    // Hex digits, or `-` for no bytes.
    pub fn hex(&mut self, bytes: &[u8]) {
        if bytes.is_empty() {
            self.put(b'-');
        }
        for b in bytes {
            self.put(DIGITS[(b / 16) as usize]);
            self.put(DIGITS[(b % 16) as usize]);
        }
    }
}
