// What was said before: each hex, each row of the chart and some lines may be said once, in a line that can be read.
use crate::{Draft, MOST_HEXES};
use position::layout;

#[derive(Clone, Copy)]
pub enum Thing {
    Hex(usize),
    Row(usize),
    Turn,
    Force,
    Phase,
    Players,
    Stage,
}

// Behind the hexes stand the rows of the chart, and then the lines.
const LINES: usize = MOST_HEXES + layout::CHART_ROWS;

pub const THINGS: usize = LINES + 5;

impl Thing {
    fn place(self) -> usize {
        match self {
            Thing::Hex(hex) => hex,
            Thing::Row(row) => MOST_HEXES.saturating_add(row),
            Thing::Turn => LINES,
            Thing::Force => LINES + 1,
            Thing::Phase => LINES + 2,
            Thing::Players => LINES + 3,
            Thing::Stage => LINES + 4,
        }
    }
}

impl Draft {
    pub fn was_said(&self, thing: Thing) -> bool {
        self.said.get(thing.place()).copied().unwrap_or(false)
    }

    // A thing is said from here on.
    pub fn say(&mut self, thing: Thing) {
        if let Some(said) = self.said.get_mut(thing.place()) {
            *said = true;
        }
    }
}
