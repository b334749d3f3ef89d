// The units on the map, a line each.
ghost use Rattle.position.specs.Board.{board};
ghost use Rattle.position.specs.Laid.{Laid};
ghost use Rattle.story.specs.Look.{UnitOf};

use page::Page;
use position::{View, layout, read};
use wording::names;

// What is said of a unit. `shown` is its strength if it is tried: a strength that is face down is not here.
#[derive(Clone, Copy)]
pub struct Unit {
    pub number: usize,
    pub nationality: usize,
    pub kind: usize,
    pub hex: usize,
    pub shown: Option<usize>,
    pub allowance: usize,
    pub marks: usize,
    pub role: usize,
}

impl Unit {
    // Unit `u` of the board.
    pub fn of(p: &[u8], v: View, u: usize) -> Unit
        requires { Laid p.now v }
        ensures { UnitOf (board p.now) u result }
    {
        let shown = read::shown(p, v, u);
        Unit {
            number: u,
            nationality: read::nationality(p, v, u),
            kind: read::kind(p, v, u),
            hex: read::hex(p, v, u),
            shown: (shown != 0).then_some(shown),
            allowance: read::allowance(p, v, u),
            marks: read::marks(p, v, u),
            role: read::role(p, v, u),
        }
    }

    // Number, nationality, type and hex.
    fn who(self, page: &mut Page) {
        page.word("unit ", self.number);
        page.text(": ");
        names::nationality(page, self.nationality);
        page.put(b' ');
        names::kind(page, self.kind);
        page.word(", hex ", self.hex);
    }

    // Its strength, `?` where it is face down.
    pub fn strength(self, page: &mut Page) {
        match self.shown {
            Some(strength) => page.number(strength),
            None => page.put(b'?'),
        }
    }

    // Its line, if it is on the map.
    fn line(self, page: &mut Page) {
        if self.hex == layout::NOWHERE {
            return;
        }
        self.who(page);
        page.text(", strength ");
        self.strength(page);
        page.word(", allowance ", self.allowance);
        names::marks(page, self.marks);
        names::role(page, self.role);
        page.line();
    }
}

pub fn lines(page: &mut Page, p: &[u8], v: View)
    requires { Laid p.now v }
{
    for u in 0..v.count {
        Unit::of(p, v, u).line(page);
    }
}
