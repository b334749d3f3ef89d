// A position as it is being told, line by line, and the bytes that it comes to.
#![tactic(auto)]

mod bytes;
mod desk;
mod land;
mod pack;
mod said;
mod size;
pub mod text;
mod units;

ghost use Rattle.std.specs.Prelude.{◌≤◌};

pub use land::SideError;
pub use pack::{ROOM, Room};
use position::layout;
use said::THINGS;
pub use said::Thing;
pub use size::Size;

// How many columns, and how many hexes, there may be.
pub const MOST_COLUMNS: usize = 12;

pub const MOST_HEXES: usize = 4096;

// How long the bodies are at most.
const RESULTS_LENGTH: usize = layout::RESULTS_HEAD + layout::COLUMN_SIZE * MOST_COLUMNS;

const MAP_LENGTH: usize = layout::MAP_HEAD + layout::HEX_SIZE * MOST_HEXES;

const UNITS_LENGTH: usize = layout::UNITS_HEAD + layout::UNIT_SIZE * layout::MOST_UNITS;

const DESK_LENGTH: usize = layout::PLAYERS + layout::FORCES;

// Whether a scenario is open, and the first line that could not be read; the map's size, once it is told; how many columns, units and routes
// are told, and whether the players are; the five bodies, each with room for the most that it can hold; and what was said before.
#[derive(Clone, Copy)]
pub struct Draft {
    pub open: bool,
    pub unread: Option<usize>,
    pub size: Option<Size>,
    pub columns: usize,
    pub units: usize,
    pub routes: usize,
    pub players: bool,
    chart: [u8; layout::CHART_LENGTH],
    results: [u8; RESULTS_LENGTH],
    map: [u8; MAP_LENGTH],
    roster: [u8; UNITS_LENGTH],
    desk: [u8; DESK_LENGTH],
    said: [bool; THINGS],
    ghost columns_fit: { columns ≤ 12 },
    ghost units_fit: { units ≤ 400 },
    ghost routes_fit: { routes ≤ 6 },
}

impl Draft {
    // No scenario is open. Every number has its plain value: terrains cost 1 and rivers nothing, and none multiplies; there are no columns;
    // every hex is plain land without sides; there are no units; it is turn 1 of 60, S.A.U., land movement, no battle and no routes.
    pub fn new() -> Draft {
        let mut draft = Draft {
            open: false,
            unread: None,
            size: None,
            columns: 0,
            units: 0,
            routes: 0,
            players: false,
            chart: [1; layout::CHART_LENGTH],
            results: [0; RESULTS_LENGTH],
            map: [0; MAP_LENGTH],
            roster: [0; UNITS_LENGTH],
            desk: [0; DESK_LENGTH],
            said: [false; THINGS],
        };
        draft.set_chart(layout::RIVER, layout::COST, 0);
        draft.set_chart(layout::MAJOR_RIVER, layout::COST, 0);
        draft.set_desk(layout::TURN, 1);
        draft.set_desk(layout::LAST_TURN, 60);
        draft.desk[layout::ROUTES..layout::PLAYERS].fill(255);
        draft
    }
}
