// A position as people read it: the map as text, its units and its desk, and what a battle or a retreat came to.
#![tactic(auto)]

pub mod rows;
pub mod table;
mod tiles;
pub mod units;

ghost use Rattle.position.specs.Laid.{Laid};

use page::Page;
use position::View;
pub use table::{Desk, Odds};
pub use tiles::Tile;
pub use units::Unit;

// The odds of a column of the results, counted from 1, and the name of a result code.
pub fn battle(page: &mut Page, p: &[u8], column: usize, code: usize) {
    if let Some(v) = checking::check(p) {
        Odds::of(p, v, column.saturating_sub(1)).battle(page, code);
    }
}

// Turn, force and phase.
pub fn clock(page: &mut Page, p: &[u8]) {
    if let Some(v) = checking::check(p) {
        Desk::of(p, v).clock(page);
    }
}

// A route, hex by hex.
pub fn route(page: &mut Page, hexes: &[u16]) {
    page.text("route");
    table::hexes(page, hexes);
}

// The hexes that stacks were pushed to, if any were.
pub fn pushes(page: &mut Page, hexes: &[u16]) {
    if !hexes.is_empty() {
        page.text(", pushes");
        table::hexes(page, hexes);
    }
}

// Map, units and desk of a position that is accepted.
fn drawn(page: &mut Page, p: &[u8], v: View, nationality: Option<usize>)
    requires { Laid p.now v }
{
    rows::map(page, p, v, nationality);
    units::lines(page, p, v);
    table::lines(page, p, v);
}

// The position as a map of text, its units and its desk. Where a nationality is named, the hexes that are supplied for it are marked.
pub fn map(page: &mut Page, p: &[u8], nationality: Option<usize>) {
    match checking::check(p) {
        Some(v) => drawn(page, p, v, nationality),
        None => page.text("no map: the position is not accepted\n"),
    }
}
