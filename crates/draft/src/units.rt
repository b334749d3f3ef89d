// The units as they are told. The one that is being told is the last.
ghost use Rattle.std.specs.Prelude.{◌<◌};

use crate::Draft;
use crate::bytes::{low, set_word};
use position::kind::Kind;
use position::{bits, layout};

// Supply units do not move. The plain allowance of all others is 6.
fn plain_allowance(kind: usize) -> usize {
    if kind == Kind::SUPPLY { 0 } else { 6 }
}

// Only types that are always tried have a mark unless it is said.
fn plain_marks(kind: usize) -> usize {
    if Kind(kind).always_tried() {
        bits::TRIED
    } else {
        0
    }
}

impl Draft {
    // One unit more. There is room for 400.
    pub fn add_unit(&mut self) {
        if self.units < layout::MOST_UNITS {
            self.units += 1;
            set_word(&mut self.roster, 0, self.units);
        }
    }

    // A unit is plain: in the box, with strength 5 and the allowance and marks of its type.
    pub fn plain_unit(&mut self, nationality: usize, kind: usize) {
        self.set_unit(layout::NATIONALITY, nationality);
        self.set_unit(layout::KIND, kind);
        self.place(layout::NOWHERE);
        self.set_unit(layout::STRENGTH, 5);
        self.set_unit(layout::ALLOWANCE, plain_allowance(kind));
        self.set_unit(layout::MARKS, plain_marks(kind));
        self.set_unit(layout::ROLE, 0);
    }

    // Byte `f` of the unit.
    pub fn set_unit(&mut self, f: usize, x: usize)
        requires { f < 8 }
    {
        let unit = self.units.saturating_sub(1);
        self.roster[layout::UNITS_HEAD + layout::UNIT_SIZE * unit + f] = low(x);
    }

    // Where the unit stands.
    pub fn place(&mut self, hex: usize) {
        self.set_unit(layout::HEX, hex);
        self.set_unit(layout::HEX + 1, hex / 256);
    }

    // One mark more, if it is not there yet.
    pub fn mark(&mut self, bit: usize) {
        let unit = self.units.saturating_sub(1);
        let at = layout::UNITS_HEAD + layout::UNIT_SIZE * unit + layout::MARKS;
        self.roster[at] |= low(bit);
    }
}
