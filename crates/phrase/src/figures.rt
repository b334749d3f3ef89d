// Decimal numbers.
ghost use Rattle.std.specs.Prelude.{◌≤◌, IfOk};

use crate::Fault;

// What a word's digits come to. A number that is too large for a `usize` is read as the largest one.
fn value(word: &[u8]) -> Option<usize> {
    if word.is_empty() {
        return None;
    }
    let mut n = 0usize;
    for b in word {
        if !b.is_ascii_digit() {
            return None;
        }
        n = n.saturating_mul(10).saturating_add(usize::from(b - b'0'));
    }
    Some(n)
}

// The number that a word says, if it is one of `least` to `most`.
pub fn number(word: &[u8], least: usize, most: usize) -> Result<usize, Fault<'_>>
    ensures { IfOk result (λ n. (least ≤ n) × (n ≤ most)) }
{
    let n = value(word).ok_or(Fault::NoNumber(word))?;
    if n < least || most < n {
        return Err(Fault::Range { word, least, most });
    }
    Ok(n)
}
