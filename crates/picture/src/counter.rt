// The counters in a hex, each in its own part of it, drawn from what is said of a unit: no strength that is face down.
ghost use Rattle.position.specs.Laid.{Laid};

use crate::place::Place;
use page::Page;
use position::{View, bits, read, role};
use story::units::Unit;

// Where counter `k` lies in its hex and how large it is: one of two, one of three.
const HALVES: [&str; 2] = [
    "translate(15 29) scale(1.16)",
    "translate(61 29) scale(1.16)",
];

const THIRDS: [&str; 3] = ["translate(20 19)", "translate(62 19)", "translate(41 61)"];

// Inks that can be read on the counters of the nationalities.
const INKS: [&str; 5] = ["000", "000", "000", "fff", "fff"];

// A sign on the counter, by its name and number.
fn sign(page: &mut Page, name: &str, n: usize) {
    page.text("<use href='#");
    page.word(name, n);
    page.text("'/>");
}

// The letters of the marks: moved, fought, not supplied.
fn marks(page: &mut Page, m: usize) {
    page.text_if(bits::has(bits::MOVED, m), "<use href='#vm'/>");
    page.text_if(bits::has(bits::FOUGHT, m), "<use href='#vf'/>");
    page.text_if(!bits::has(bits::SUPPLIED, m), "<use href='#vo'/>");
}

// Counter `k` of a stack of `crowd`, on the hex at a place.
#[derive(Clone, Copy)]
struct Counter {
    unit: Unit,
    crowd: usize,
    k: usize,
    at: Place,
}

impl Counter {
    // Where it lies in its hex and how large it is.
    fn part(self, page: &mut Page) {
        match self.crowd {
            1 => page.text("translate(32 24) scale(1.5)"),
            2 => page.nth(&HALVES, self.k),
            _ => page.nth(&THIRDS, self.k),
        }
    }

    // Its place, and its ink.
    fn begin(self, page: &mut Page) {
        page.pair("<g transform='translate(", self.at.x, self.at.y);
        page.text(") ");
        self.part(page);
        page.text("' color='#");
        page.nth(&INKS, self.unit.nationality);
        page.text("' fill='#");
        page.nth(&INKS, self.unit.nationality);
        page.text("'>");
    }

    // The frame of a unit that owes or may advance.
    fn frame(self, page: &mut Page) {
        if self.unit.role != role::NONE {
            sign(page, "w", self.unit.role);
        }
    }

    // Its number, and strength and allowance.
    fn numbers(self, page: &mut Page) {
        page.word(
            "<text x='26' y='9' font-size='7' font-weight='normal'>",
            self.unit.number,
        );
        page.text("</text><text x='19' y='35'>");
        self.unit.strength(page);
        page.word("-", self.unit.allowance);
        page.text("</text></g>\n");
    }

    fn draw(self, page: &mut Page) {
        self.begin(page);
        sign(page, "n", self.unit.nationality);
        sign(page, "k", self.unit.kind);
        self.frame(page);
        marks(page, self.unit.marks);
        self.numbers(page);
    }
}

// The stack on hex `h`, if there is one.
pub fn stack(page: &mut Page, p: &[u8], v: View, h: usize, at: Place)
    requires { Laid p.now v }
{
    let crowd = crowd::crowd(p, v, h);
    if crowd == 0 {
        return;
    }
    let there = (0..v.count).filter(|u| read::hex(p, v, *u) == h);
    for (k, u) in there.enumerate() {
        let unit = Unit::of(p, v, u);
        Counter { unit, crowd, k, at }.draw(page);
    }
}
