// The players, the stage of a battle and its routes.
use draft::{Draft, Thing};
use phrase::{Fault, Words};
use position::{layout, stage};

// A player for each force.
pub fn players<'a>(draft: &mut Draft, words: &mut Words<'a>) -> Result<(), Fault<'a>> {
    saying::unsaid(draft, Thing::Players, words)?;
    draft.players = true;
    for force in 0..layout::FORCES {
        draft.set_player(force, saying::byte(words.need()?)?);
    }
    saying::told(draft, Thing::Players, words)
}

// Retreats with how many hexes are owed, losses with the strength that they must reach, or advances.
pub fn stage<'a>(draft: &mut Draft, words: &mut Words<'a>) -> Result<(), Fault<'a>> {
    saying::unsaid(draft, Thing::Stage, words)?;
    let word = words.need()?;
    match phrase::lower(word).text() {
        b"quiet" => {}
        b"retreats" => {
            let owed = saying::byte(words.need()?)?;
            draft.set_desk(layout::STAGE, stage::RETREATS);
            draft.set_desk(layout::OWED, owed);
        }
        b"losses" => {
            let need = phrase::number(words.need()?, 0, 65535)?;
            draft.set_desk(layout::STAGE, stage::LOSSES);
            draft.set_need(need);
        }
        b"advances" => draft.set_desk(layout::STAGE, stage::ADVANCES),
        _ => return Err(Fault::Unknown(word)),
    }
    saying::told(draft, Thing::Stage, words)
}

// The hexes of a route, at least one.
pub fn route<'a>(draft: &mut Draft, words: &mut Words<'a>) -> Result<(), Fault<'a>> {
    if layout::ROUTE_COUNT <= draft.routes {
        return Err(Fault::Full(layout::ROUTE_COUNT));
    }
    draft.add_route();
    for j in 0..layout::ROUTE_HEXES {
        match words.next() {
            Some(word) => draft.set_route(j, saying::hex(draft, word)?),
            None if j == 0 => return Err(Fault::Missing),
            None => return Ok(()),
        }
    }
    match words.next() {
        Some(_) => Err(Fault::Full(layout::ROUTE_HEXES)),
        None => Ok(()),
    }
}
