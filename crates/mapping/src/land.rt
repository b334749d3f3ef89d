// The hexes that differ from plain land.
ghost use Rattle.std.specs.Prelude.{◌<◌, IfSome};

use draft::{Draft, SideError, Thing};
use phrase::{Fault, Words};
use position::{bits, layout};
use saying::Seen;

// The kinds of a hex's words.
#[derive(Clone, Copy)]
enum Kind {
    Surface,
    Country,
    Port,
    Urban,
    Supply,
    Terrain,
}

// What a word says of a hex: its kind, the byte and what that byte gets.
fn plain(word: &[u8]) -> Option<(Kind, usize, usize)>
    ensures { IfSome result (λ says. says.1 < 5) }
{
    Some(match phrase::lower(word).text() {
        b"land" => (Kind::Surface, layout::SURFACE, 0),
        b"coast" => (Kind::Surface, layout::SURFACE, 1),
        b"sea" => (Kind::Surface, layout::SURFACE, 2),
        b"lake" => (Kind::Surface, layout::SURFACE, 3),
        b"us" => (Kind::Country, layout::COUNTRY, 1),
        b"canada" => (Kind::Country, layout::COUNTRY, 2),
        b"port" => (Kind::Port, layout::FLAGS, bits::PORT),
        b"urban" => (Kind::Urban, layout::FLAGS, bits::URBAN),
        b"supply" => (Kind::Supply, layout::FLAGS, bits::SUPPLY),
        _ => return None,
    })
}

fn side<'a>(
    draft: &mut Draft,
    hex: usize,
    direction: usize,
    name: &'a [u8],
    word: &'a [u8],
) -> Result<(), Fault<'a>> {
    let side = match phrase::lower(word).text() {
        b"river" => ground::RIVER,
        b"major" => ground::MAJOR_RIVER,
        b"blocked" => ground::BLOCKED,
        _ => return Err(Fault::Unknown(word)),
    };
    draft
        .set_side(hex, direction, side)
        .map_err(|error| match error {
            SideError::OffMap => Fault::NoSide(name),
            SideError::Otherwise => Fault::OtherSide(name),
        })
}

pub fn hex<'a>(draft: &mut Draft, words: &mut Words<'a>) -> Result<(), Fault<'a>> {
    if draft.size.is_none() {
        return Err(Fault::NoSize);
    }
    let hex = saying::hex(draft, words.need()?)?;
    saying::unsaid(draft, Thing::Hex(hex), words)?;
    let mut seen = Seen::new();
    while let Some(word) = words.next() {
        if word.eq_ignore_ascii_case(b"terrain") {
            seen.once(Kind::Terrain as usize, word)?;
            let terrain = phrase::number(words.need()?, 0, layout::RIVER - 1)?;
            draft.set_hex(hex, layout::TERRAIN, terrain);
        } else if let Some((kind, f, x)) = plain(word) {
            seen.once(kind as usize, word)?;
            draft.add_to_hex(hex, f, x);
        } else {
            let direction = phrase::which(word, &["n", "ne", "se", "s", "sw", "nw"]);
            let direction = direction.ok_or(Fault::Unknown(word))?;
            side(draft, hex, direction, word, words.need()?)?;
        }
    }
    draft.say(Thing::Hex(hex));
    Ok(())
}
