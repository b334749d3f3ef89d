// A column of the results: its odds, and a result for each face of the die.
use draft::{Draft, MOST_COLUMNS};
use phrase::{Fault, Words};
use position::layout;

// The results by their codes, which count from 1.
const RESULTS: [&str; 10] = ["d1", "d2", "d3", "a1", "a2", "a3", "ae", "de", "dx", "ax"];

// The odds, a to d, are one word with a colon in it.
fn odds(word: &[u8]) -> Option<(usize, usize)> {
    let (attack, defence) = phrase::parted(word, b':')?;
    let attack = saying::byte(attack).ok()?;
    let defence = saying::byte(defence).ok()?;
    Some((attack, defence))
}

pub fn column<'a>(draft: &mut Draft, words: &mut Words<'a>) -> Result<(), Fault<'a>> {
    if MOST_COLUMNS <= draft.columns {
        return Err(Fault::Full(MOST_COLUMNS));
    }
    draft.add_column();
    let word = words.need()?;
    let (attack, defence) = odds(word).ok_or(Fault::NoOdds(word))?;
    draft.set_column(layout::ATTACK, attack);
    draft.set_column(layout::DEFENCE, defence);
    for die in 1..=layout::DIE_FACES {
        let word = words.need()?;
        let result = phrase::which(word, &RESULTS).ok_or(Fault::Unknown(word))?;
        draft.set_column(layout::CODES + die, result.saturating_add(1));
    }
    saying::done(words)
}
