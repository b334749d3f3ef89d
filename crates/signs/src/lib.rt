// The signs of a picture, as SVG: each is defined once, under a name that the picture uses it by. A hex is 120 wide and 104 high, a
// counter 38 by 38.
#![tactic(auto)]

mod counter;
mod grounds;
mod legend;
mod marks;
mod shades;
mod sides;
mod types;

pub use legend::key;
use page::Page;

// All signs.
pub fn define(page: &mut Page) {
    page.text("<defs>\n<path id='h' d='M30 0H90L120 52L90 104H30L0 52Z'/>\n");
    grounds::define(page);
    shades::define(page);
    sides::define(page);
    marks::define(page);
    counter::define(page);
    types::define(page);
    page.text("</defs>\n");
}
