// The units.
#![tactic(auto)]

use draft::Draft;
use phrase::{Fault, Words};
use position::kind::Kind;
use position::{bits, layout, role};
use saying::Seen;

// The kinds of a unit's words.
#[derive(Clone, Copy)]
enum Says {
    Place,
    Strength,
    Allowance,
    Role,
    Tried,
    Supplied,
    Moved,
    Fought,
}

fn kind(word: &[u8]) -> Option<usize> {
    Some(match phrase::lower(word).text() {
        b"armour" | b"armor" => Kind::ARMOUR,
        b"mechanised" | b"mechanized" => Kind::MECHANISED,
        b"infantry" => Kind::INFANTRY,
        b"militia" => Kind::MILITIA,
        b"special" => Kind::SPECIAL,
        b"supply" => Kind::SUPPLY,
        _ => return None,
    })
}

// Nationality and type stand behind the number.
fn who<'a>(draft: &mut Draft, words: &mut Words<'a>) -> Result<(), Fault<'a>> {
    let word = words.need()?;
    let nationality = saying::nationality(word).ok_or(Fault::Unknown(word))?;
    let word = words.need()?;
    let kind = kind(word).ok_or(Fault::Unknown(word))?;
    draft.plain_unit(nationality, kind);
    Ok(())
}

// Units are numbered as they come.
fn next<'a>(draft: &Draft, words: &mut Words<'a>) -> Result<(), Fault<'a>> {
    let unit = phrase::number(words.need()?, 0, usize::MAX)?;
    if unit < draft.units {
        return Err(Fault::Again(words.so_far()));
    }
    if layout::MOST_UNITS <= draft.units {
        return Err(Fault::Full(layout::MOST_UNITS));
    }
    if unit != draft.units {
        return Err(Fault::NotNext(draft.units));
    }
    Ok(())
}

// A unit is in the box unless it stands on a hex.
fn in_box(word: &[u8]) -> Result<(), Fault<'_>> {
    if word.eq_ignore_ascii_case(b"box") {
        return Ok(());
    }
    Err(Fault::Unknown(word))
}

// A mark or a role.
fn mark<'a>(draft: &mut Draft, seen: &mut Seen, word: &'a [u8]) -> Result<(), Fault<'a>> {
    let (says, x) = match phrase::lower(word).text() {
        b"tried" => (Says::Tried, bits::TRIED),
        b"supplied" => (Says::Supplied, bits::SUPPLIED),
        b"moved" => (Says::Moved, bits::MOVED),
        b"fought" => (Says::Fought, bits::FOUGHT),
        b"owes" => (Says::Role, role::OWES),
        b"advances" => (Says::Role, role::ADVANCES),
        _ => return Err(Fault::Unknown(word)),
    };
    seen.once(says as usize, word)?;
    match says {
        Says::Role => draft.set_unit(layout::ROLE, x),
        _ => draft.mark(x),
    }
    Ok(())
}

// The words behind nationality and type, in any order. One says where the unit is.
fn words_of<'a>(draft: &mut Draft, words: &mut Words<'a>) -> Result<(), Fault<'a>> {
    let mut seen = Seen::new();
    while let Some(word) = words.next() {
        match phrase::lower(word).text() {
            b"at" => {
                seen.once(Says::Place as usize, word)?;
                let hex = saying::hex(draft, words.need()?)?;
                draft.place(hex);
            }
            b"in" => {
                seen.once(Says::Place as usize, word)?;
                in_box(words.need()?)?;
            }
            b"strength" => {
                seen.once(Says::Strength as usize, word)?;
                draft.set_unit(layout::STRENGTH, saying::byte(words.need()?)?);
            }
            b"allowance" => {
                seen.once(Says::Allowance as usize, word)?;
                draft.set_unit(layout::ALLOWANCE, saying::byte(words.need()?)?);
            }
            _ => mark(draft, &mut seen, word)?,
        }
    }
    if seen.has(Says::Place as usize) {
        return Ok(());
    }
    Err(Fault::NoPlace)
}

// The next unit takes its place whatever stands behind its number.
pub fn unit<'a>(draft: &mut Draft, words: &mut Words<'a>) -> Result<(), Fault<'a>> {
    next(draft, words)?;
    draft.add_unit();
    if draft.size.is_none() {
        return Err(Fault::NoSize);
    }
    who(draft, words)?;
    words_of(draft, words)
}
