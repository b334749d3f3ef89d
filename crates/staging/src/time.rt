// Turn, force and phase.
use draft::{Draft, Thing};
use phrase::{Fault, Words};
use position::kind::HOME;
use position::layout;

// The turn, and the last one.
pub fn turn<'a>(draft: &mut Draft, words: &mut Words<'a>) -> Result<(), Fault<'a>> {
    saying::unsaid(draft, Thing::Turn, words)?;
    draft.set_desk(layout::TURN, saying::byte(words.need()?)?);
    let word = words.need()?;
    if !word.eq_ignore_ascii_case(b"of") {
        return Err(Fault::Unknown(word));
    }
    draft.set_desk(layout::LAST_TURN, saying::byte(words.need()?)?);
    saying::told(draft, Thing::Turn, words)
}

// US and Canada are one force.
pub fn force<'a>(draft: &mut Draft, words: &mut Words<'a>) -> Result<(), Fault<'a>> {
    saying::unsaid(draft, Thing::Force, words)?;
    let word = words.need()?;
    let nationality = saying::nationality(word).ok_or(Fault::Unknown(word))?;
    draft.set_desk(layout::FORCE, nationality.min(HOME));
    saying::told(draft, Thing::Force, words)
}

pub fn phase<'a>(draft: &mut Draft, words: &mut Words<'a>) -> Result<(), Fault<'a>> {
    saying::unsaid(draft, Thing::Phase, words)?;
    let word = words.need()?;
    let phase = match phrase::lower(word).text() {
        b"movement" | b"land" => 0,
        b"combat" => 1,
        b"mechanised" | b"mechanized" => 2,
        _ => return Err(Fault::Unknown(word)),
    };
    draft.set_desk(layout::PHASE, phase);
    saying::told(draft, Thing::Phase, words)
}
