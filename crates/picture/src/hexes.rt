// A hex: its ground, its sides, its signs, its number, and what its terrain costs and multiplies.
ghost use Rattle.position.specs.Board.{board};
ghost use Rattle.position.specs.Laid.{Laid};
ghost use Rattle.picture.specs.Look.{GroundOf};

use crate::place;
use crate::place::Place;
use page::Page;
use position::{View, bits, read};

const COASTAL: usize = 1;

const ALL_SEA: usize = 2;

const LAKE: usize = 3;

// What is drawn of a hex: what map and chart say of it.
#[derive(Clone, Copy)]
pub struct Ground {
    pub number: usize,
    pub surface: usize,
    pub terrain: usize,
    pub cost: usize,
    pub multiple: usize,
    pub flags: usize,
    pub country: usize,
    pub sides: usize,
}

impl Ground {
    // Hex `h` of the board.
    pub fn of(p: &[u8], v: View, h: usize) -> Ground
        requires { Laid p.now v }
        ensures { GroundOf (board p.now) h result }
    {
        let terrain = read::terrain(p, v, h);
        Ground {
            number: h,
            surface: read::surface(p, v, h),
            terrain,
            cost: read::cost(p, v, terrain),
            multiple: read::multiple(p, v, terrain),
            flags: read::flags(p, v, h),
            country: read::country(p, v, h),
            sides: read::sides(p, v, h),
        }
    }

    // Land or coast: four patterns, of which 0 is none, in four tints make 16 terrains.
    fn land(self, page: &mut Page, at: Place) {
        at.numbered(page, "l", self.terrain / 4);
        if self.terrain % 4 != 0 {
            at.numbered(page, "p", self.terrain % 4);
        }
        at.sign_if(page, self.surface == COASTAL, "c");
        at.sign_if(page, self.cost == 0, "x");
    }

    pub fn ground(self, page: &mut Page, at: Place) {
        match self.surface {
            ALL_SEA => at.sign(page, "s"),
            LAKE => at.sign(page, "o"),
            _ => self.land(page, at),
        }
        at.sign_if(page, bits::has(bits::URBAN, self.flags), "u");
        page.line();
    }

    // The sides that it keeps: N, NE and SE.
    pub fn sides(self, page: &mut Page, at: Place) {
        let sides = [self.sides % 4, self.sides / 4 % 4, self.sides / 16 % 4];
        for (d, side) in sides.iter().enumerate() {
            match *side {
                ground::RIVER => at.numbered(page, "r", d),
                ground::MAJOR_RIVER => at.numbered(page, "m", d),
                ground::BLOCKED => at.numbered(page, "b", d),
                _ => {}
            }
        }
    }

    // Port, and the star of supply by the country.
    pub fn signs(self, page: &mut Page, at: Place) {
        at.sign_if(page, bits::has(bits::PORT, self.flags), "t");
        if bits::has(bits::SUPPLY, self.flags) {
            at.numbered(page, "q", self.country);
        }
    }

    pub fn number(self, page: &mut Page, at: Place) {
        at.begin_text(page);
        page.number(self.number);
        place::end_text(page);
    }

    // Whether there is nothing to be noted: water, what is prohibited and hatched, or what costs 1 and multiplies by 1.
    fn is_plain(self) -> bool {
        COASTAL < self.surface || self.cost == 0 || (self.cost == 1 && self.multiple == 1)
    }

    // Cost and multiple of land or coast.
    pub fn effect(self, page: &mut Page, at: Place) {
        if self.is_plain() {
            return;
        }
        at.begin_text(page);
        page.number(self.cost);
        page.word("x", self.multiple);
        place::end_text(page);
    }
}
