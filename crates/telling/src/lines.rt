// Which line it is, by its first word.
use draft::Draft;
use draft::text::Text;
use mapping::{area, chart, column, land};
use phrase::{Fault, Words};
use position::layout;
use staging::{battle, time};

// What a line that could be read leads to: more lines, or the position.
#[derive(Clone, Copy, PartialEq, Eq)]
pub enum Told {
    More,
    Begin,
}

// A line inside a scenario.
fn inside<'a>(draft: &mut Draft, word: &'a [u8], words: &mut Words<'a>) -> Result<Told, Fault<'a>> {
    match phrase::lower(word).text() {
        b"terrain" => chart::terrain(draft, words)?,
        b"river" => chart::row(draft, words, layout::RIVER)?,
        b"major" => chart::row(draft, words, layout::MAJOR_RIVER)?,
        b"odds" => column::column(draft, words)?,
        b"size" => area::size(draft, words)?,
        b"hex" => land::hex(draft, words)?,
        b"unit" => manning::unit(draft, words)?,
        b"turn" => time::turn(draft, words)?,
        b"force" => time::force(draft, words)?,
        b"phase" => time::phase(draft, words)?,
        b"players" => battle::players(draft, words)?,
        b"stage" => battle::stage(draft, words)?,
        b"route" => battle::route(draft, words)?,
        b"begin" => {
            saying::done(words)?;
            return Ok(Told::Begin);
        }
        b"setup" => return Err(Fault::Again(word)),
        _ => return Err(Fault::Unknown(word)),
    }
    Ok(Told::More)
}

// A line is empty, or stands inside a scenario, which begins with `setup`.
pub fn line<'a>(draft: &mut Draft, text: &'a Text) -> Result<Told, Fault<'a>> {
    let line = text.line().ok_or(Fault::Long)?;
    let mut words = Words::new(line);
    let Some(word) = words.next() else {
        return Ok(Told::More);
    };
    if draft.open {
        return inside(draft, word, &mut words);
    }
    if !word.eq_ignore_ascii_case(b"setup") {
        return Err(Fault::NoSetup);
    }
    draft.open = true;
    saying::done(&mut words)?;
    Ok(Told::More)
}
