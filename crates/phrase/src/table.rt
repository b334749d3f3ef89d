// Words by name. Large letters count as small ones.
ghost use Rattle.std.specs.Prelude.{◌<◌, length, IfSome};

// How long a word is at most that is looked for.
const MOST_LETTERS: usize = 10;

// A word in small letters. A longer one than any that is looked for has none.
#[derive(Clone, Copy)]
pub struct Small {
    letters: [u8; MOST_LETTERS],
    length: usize,
}

impl Small {
    pub fn text(&self) -> &[u8] {
        self.letters.get(..self.length).unwrap_or(&[])
    }
}

pub fn lower(word: &[u8]) -> Small {
    let mut small = Small {
        letters: [0; MOST_LETTERS],
        length: 0,
    };
    if let Some(letters) = small.letters.get_mut(..word.len()) {
        letters.copy_from_slice(word);
        letters.make_ascii_lowercase();
        small.length = word.len();
    }
    small
}

// Which of the names a word is, counted from 0.
pub fn which(word: &[u8], names: &[&str]) -> Option<usize>
    ensures { IfSome result (λ n. n < length names.now) }
{
    names
        .iter()
        .position(|name| word.eq_ignore_ascii_case(name.as_bytes()))
}

// A word up to the first of a sign in it, and what stands behind that.
pub fn parted(word: &[u8], sign: u8) -> Option<(&[u8], &[u8])> {
    let at = word.iter().position(|b| b.eq_ignore_ascii_case(&sign))?;
    Some((&word[..at], &word[at + 1..]))
}
