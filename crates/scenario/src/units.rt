// The units, those in the box too.
ghost use Rattle.position.specs.Laid.{Laid};

use page::Page;
use position::kind::Kind;
use position::{View, bits, layout, read, role};

// What is said of a unit.
#[derive(Clone, Copy)]
struct Unit {
    number: usize,
    nationality: usize,
    kind: usize,
    hex: usize,
    strength: usize,
    allowance: usize,
    marks: usize,
    role: usize,
}

impl Unit {
    fn of(p: &[u8], v: View, u: usize) -> Unit
        requires { Laid p.now v }
    {
        Unit {
            number: u,
            nationality: read::nationality(p, v, u),
            kind: read::kind(p, v, u),
            hex: read::hex(p, v, u),
            strength: read::strength(p, v, u),
            allowance: read::allowance(p, v, u),
            marks: read::marks(p, v, u),
            role: read::role(p, v, u),
        }
    }

    fn place(self, page: &mut Page) {
        match self.hex {
            layout::NOWHERE => page.text(" in box"),
            hex => page.word(" at ", hex),
        }
    }

    fn who(self, page: &mut Page) {
        page.word("unit ", self.number);
        page.put(b' ');
        page.nth(&["SAU", "ESC", "PAL", "US", "Canada"], self.nationality);
        page.put(b' ');
        page.nth(
            &[
                "armour",
                "mechanised",
                "infantry",
                "militia",
                "special",
                "supply",
            ],
            self.kind,
        );
        self.place(page);
    }

    // Of a type that is always tried it is not said that it is.
    fn marks(self, page: &mut Page) {
        let tried = bits::has(bits::TRIED, self.marks) && !Kind(self.kind).always_tried();
        page.text_if(tried, " tried");
        page.text_if(bits::has(bits::SUPPLIED, self.marks), " supplied");
        page.text_if(bits::has(bits::MOVED, self.marks), " moved");
        page.text_if(bits::has(bits::FOUGHT, self.marks), " fought");
    }

    fn role(self, page: &mut Page) {
        match self.role {
            role::NONE => {}
            role::OWES => page.text(" owes"),
            role::ADVANCES => page.text(" advances"),
            _ => page.text(" ?"),
        }
    }

    fn line(self, page: &mut Page) {
        self.who(page);
        page.word(" strength ", self.strength);

        // A supply unit has no allowance.
        if self.kind != Kind::SUPPLY {
            page.word(" allowance ", self.allowance);
        }
        self.marks(page);
        self.role(page);
        page.line();
    }
}

pub fn lines(page: &mut Page, p: &[u8], v: View)
    requires { Laid p.now v }
{
    for u in 0..v.count {
        Unit::of(p, v, u).line(page);
    }
}
