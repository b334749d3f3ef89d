// The rows of the chart: terrains and rivers.
use draft::{Draft, Thing};
use phrase::{Fault, Words};
use position::layout;
use saying::Seen;

// The kinds of words: what it costs, and what it multiplies by.
enum Kind {
    Cost,
    Defence,
}

pub fn terrain<'a>(draft: &mut Draft, words: &mut Words<'a>) -> Result<(), Fault<'a>> {
    let terrain = phrase::number(words.need()?, 0, layout::RIVER - 1)?;
    row(draft, words, terrain)
}

// The words of a row behind its name. Terrains can be prohibited, rivers not.
pub fn row<'a>(draft: &mut Draft, words: &mut Words<'a>, row: usize) -> Result<(), Fault<'a>> {
    saying::unsaid(draft, Thing::Row(row), words)?;
    let mut seen = Seen::new();
    while let Some(word) = words.next() {
        match phrase::lower(word).text() {
            b"cost" => {
                seen.once(Kind::Cost as usize, word)?;
                draft.set_chart(row, layout::COST, saying::byte(words.need()?)?);
            }
            b"defence" | b"defense" => {
                seen.once(Kind::Defence as usize, word)?;
                draft.set_chart(row, layout::MULTIPLE, saying::byte(words.need()?)?);
            }
            b"prohibited" if row < layout::RIVER => {
                seen.once(Kind::Cost as usize, word)?;
                draft.set_chart(row, layout::COST, 0);
            }
            _ => return Err(Fault::Unknown(word)),
        }
    }
    draft.say(Thing::Row(row));
    Ok(())
}
