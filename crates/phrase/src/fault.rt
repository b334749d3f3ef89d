// What is wrong with a line.
use draft::text;
use page::Page;

// How many bytes of a word are quoted at most.
const QUOTED: usize = 20;

// A word that is to blame is named.
#[derive(Clone, Copy)]
pub enum Fault<'a> {
    Long,
    Missing,
    Unknown(&'a [u8]),
    NoNumber(&'a [u8]),
    Range {
        word: &'a [u8],
        least: usize,
        most: usize,
    },
    NoOdds(&'a [u8]),
    Behind(&'a [u8]),
    Again(&'a [u8]),
    NoSetup,
    NoSize,
    OffMap(&'a [u8]),
    NotNext(usize),
    Full(usize),
    NoSide(&'a [u8]),
    OtherSide(&'a [u8]),
    NoPlace,
}

// A byte as it is quoted: letters, digits and blanks as they are, `?` for any other.
fn quoted(b: u8) -> u8 {
    if b == b' ' || b.is_ascii_alphanumeric() {
        b
    } else {
        b'?'
    }
}

// A word between two pieces of text.
fn about(page: &mut Page, before: &str, word: &[u8], behind: &str) {
    page.text(before);
    for b in word.iter().take(QUOTED) {
        page.put(quoted(*b));
    }
    page.text(behind);
}

impl Fault<'_> {
    // The fault in words.
    pub fn explain(&self, page: &mut Page) {
        match *self {
            Fault::Long => page.word("the line has more bytes than ", text::ROOM),
            Fault::Missing => page.text("the line ends too early"),
            Fault::Unknown(word) => about(page, "I do not know the word ", word, ""),
            Fault::NoNumber(word) => about(page, "", word, " is no number"),
            Fault::Range { word, least, most } => {
                about(page, "", word, " is not ");
                page.number(least);
                page.word(" to ", most);
            }
            Fault::NoOdds(word) => {
                about(
                    page,
                    "odds are two numbers with a colon, as 3:1, and not ",
                    word,
                    "",
                )
            }
            Fault::Behind(word) => about(page, "the line should end before ", word, ""),
            Fault::Again(word) => about(page, "", word, " was said before"),
            Fault::NoSetup => page.text("setup must come first"),
            Fault::NoSize => page.text("the size must come before hexes"),
            Fault::OffMap(word) => about(page, "hex ", word, " is not on the map"),
            Fault::NotNext(n) => page.word("the next unit is ", n),
            Fault::Full(n) => page.word("there can be no more than ", n),
            Fault::NoSide(word) => about(page, "no hex lies beyond ", word, ""),
            Fault::OtherSide(word) => about(page, "", word, " was said otherwise before"),
            Fault::NoPlace => page.text("say where: at HEX, or in box"),
        }
    }
}
