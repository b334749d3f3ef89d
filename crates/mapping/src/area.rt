// The map's size.
ghost use Rattle.std.specs.Prelude.{◌≤◌, IfOk};

use draft::{Draft, Size};
use phrase::{Fault, Words};

// A number within a word. What is no number there makes the whole word none.
fn within<'a>(whole: &'a [u8], part: &'a [u8]) -> Result<usize, Fault<'a>>
    ensures { IfOk result (λ n. (1 ≤ n) × (n ≤ 64)) }
{
    match phrase::number(part, 1, 64) {
        Err(Fault::NoNumber(_)) => Err(Fault::NoNumber(whole)),
        read => read,
    }
}

// Width and height, one word with an x in it or three words.
fn read<'a>(words: &mut Words<'a>) -> Result<Size, Fault<'a>> {
    let word = words.need()?;
    if let Some((width, height)) = phrase::parted(word, b'x') {
        let width = within(word, width)?;
        let height = within(word, height)?;
        return Ok(Size { width, height });
    }
    let width = phrase::number(word, 1, 64)?;
    let x = words.need()?;
    if !x.eq_ignore_ascii_case(b"x") {
        return Err(Fault::Unknown(x));
    }
    let height = phrase::number(words.need()?, 1, 64)?;
    Ok(Size { width, height })
}

// The map has this size if the line ends behind it.
pub fn size<'a>(draft: &mut Draft, words: &mut Words<'a>) -> Result<(), Fault<'a>> {
    let name = words.so_far();
    let size = read(words)?;
    if draft.size.is_some() {
        return Err(Fault::Again(name));
    }
    saying::done(words)?;
    draft.set_size(size);
    Ok(())
}
