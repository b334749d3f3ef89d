// The map's size, and each hex that is not plain land.
ghost use Rattle.position.specs.Laid.{Laid};

use page::Page;
use position::{View, bits, read};

// The words for the sides of a hex that are not plain.
const SIDES: [&str; 3] = ["river", "major", "blocked"];

// What is said of a hex, all 0 for plain land: its sides are those that it keeps.
#[derive(Clone, Copy, PartialEq, Eq, Default)]
struct Land {
    terrain: usize,
    surface: usize,
    flags: usize,
    country: usize,
    north: usize,
    north_east: usize,
    south_east: usize,
}

impl Land {
    fn of(p: &[u8], v: View, h: usize) -> Land
        requires { Laid p.now v }
    {
        Land {
            terrain: read::terrain(p, v, h),
            surface: read::surface(p, v, h),
            flags: read::flags(p, v, h),
            country: read::country(p, v, h),
            north: ground::stored(p, v, h, 0),
            north_east: ground::stored(p, v, h, 1),
            south_east: ground::stored(p, v, h, 2),
        }
    }

    fn terrain(self, page: &mut Page) {
        if self.terrain != 0 {
            page.word(" terrain ", self.terrain);
        }
    }

    fn flags(self, page: &mut Page) {
        page.text_if(bits::has(bits::PORT, self.flags), " port");
        page.text_if(bits::has(bits::URBAN, self.flags), " urban");
        page.text_if(bits::has(bits::SUPPLY, self.flags), " supply");
    }

    // The line of hex `h`, unless it is plain land.
    fn line(self, page: &mut Page, h: usize) {
        if self == Land::default() {
            return;
        }
        page.word("hex ", h);
        named(page, " ", &["coast", "sea", "lake"], self.surface);
        self.terrain(page);
        self.flags(page);
        named(page, " ", &["US", "Canada"], self.country);
        named(page, " N ", &SIDES, self.north);
        named(page, " NE ", &SIDES, self.north_east);
        named(page, " SE ", &SIDES, self.south_east);
        page.line();
    }
}

// Word `n` of the words, from 1 on, behind a text; nothing is said of 0.
fn named(page: &mut Page, before: &str, words: &[&str], n: usize) {
    if let Some(k) = n.checked_sub(1) {
        page.text(before);
        page.nth(words, k);
    }
}

pub fn lines(page: &mut Page, p: &[u8], v: View)
    requires { Laid p.now v }
{
    page.word("size ", v.width);
    page.word(" x ", v.height);
    page.line();
    for h in 0..v.hexes {
        Land::of(p, v, h).line(page, h);
    }
}
