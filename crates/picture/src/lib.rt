// A position as a picture, in SVG: the map with its hexes, sides, signs and counters, the clock in words, and a key.
#![tactic(auto)]

mod counter;
mod frame;
mod hexes;
mod layers;
mod place;
mod route;
mod shades;
mod sheet;

ghost use Rattle.position.specs.Laid.{Laid};

pub use hexes::Ground;
use page::Page;
use position::{View, kind};

// The picture of a position that is accepted.
fn drawn(page: &mut Page, p: &[u8], v: View, nationality: Option<usize>)
    requires { Laid p.now v }
{
    frame::head(page, p, v);
    layers::map(page, p, v, nationality);
    frame::foot(page, p, v, nationality);
}

// The position as a picture. For a nationality the hexes that are supplied and the Enemy zones are shaded.
pub fn picture(page: &mut Page, p: &[u8], nationality: Option<usize>) {
    match checking::check(p) {
        Some(v) => drawn(page, p, v, nationality.filter(|n| *n <= kind::CANADA)),
        None => page.text("no picture: the position is not accepted\n"),
    }
}
