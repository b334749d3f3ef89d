// The bodies, end to end, with their contents before them.
ghost use Rattle.std.specs.Prelude.{◌≡◌, ◌+◌, ◌<◌, ◌≤◌, length};

use crate::bytes::set_word;
use crate::{DESK_LENGTH, Draft, MAP_LENGTH, RESULTS_LENGTH, Size, UNITS_LENGTH};
use position::layout;

// Room for the longest position.
pub const ROOM: usize = layout::RESULTS + RESULTS_LENGTH + MAP_LENGTH + UNITS_LENGTH + DESK_LENGTH;

pub type Room = [u8; ROOM];

// A body goes to where the last one ended, and its entry into the contents: where it ends.
fn body(room: &mut Room, which: usize, to: usize, bytes: &[u8]) -> usize
    requires which_fits { which < 5 }
    requires bytes_fit { to + length bytes.now ≤ ROOM }
    ensures { result ≡ to + length bytes.now }
{
    let entry = layout::ENTRY_SIZE * which;
    set_word(room, entry, to);
    set_word(room, entry + layout::EXTENT, bytes.len());
    let end = to + bytes.len();
    room[to..end].copy_from_slice(bytes);
    end
}

impl Draft {
    // How long the desk is.
    fn desk_length(&self) -> usize
        ensures { result ≤ 60 }
    {
        if self.players {
            DESK_LENGTH
        } else {
            layout::PLAYERS
        }
    }

    // The bytes of the position.
    pub fn pack<'a>(&self, room: &'a mut Room) -> &'a [u8] {
        let columns = layout::RESULTS_HEAD + layout::COLUMN_SIZE * self.columns;
        let hexes = layout::MAP_HEAD + layout::HEX_SIZE * self.size.map_or(0, Size::hexes);
        let units = layout::UNITS_HEAD + layout::UNIT_SIZE * self.units;
        let desk = self.desk_length();
        let at = body(room, layout::CHART_BODY, layout::CHART, &self.chart);
        let at = body(room, layout::RESULTS_BODY, at, &self.results[..columns]);
        let at = body(room, layout::MAP_BODY, at, &self.map[..hexes]);
        let at = body(room, layout::UNITS_BODY, at, &self.roster[..units]);
        let end = body(room, layout::DESK_BODY, at, &self.desk[..desk]);
        &room[..end]
    }
}
