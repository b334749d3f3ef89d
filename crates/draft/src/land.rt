// Chart, results and map as they are told.
ghost use Rattle.std.specs.Prelude.{◌<◌};

use crate::bytes::low;
use crate::{Draft, MOST_COLUMNS, MOST_HEXES, Size};
use position::layout;

// A side that is not kept: no hex lies beyond it, or it was told otherwise before.
#[derive(Clone, Copy, PartialEq, Eq)]
pub enum SideError {
    OffMap,
    Otherwise,
}

impl Draft {
    // Byte `f` of a terrain's or a river's row.
    pub fn set_chart(&mut self, row: usize, f: usize, x: usize)
        requires { f < 2 }
    {
        if row < layout::CHART_ROWS {
            self.chart[layout::TERRAIN_SIZE * row + f] = low(x);
        }
    }

    // One column more. There is room for twelve.
    pub fn add_column(&mut self) {
        if self.columns < MOST_COLUMNS {
            self.columns += 1;
            self.results[0] = low(self.columns);
        }
    }

    // Byte `f` of the column that is being told, which is the last.
    pub fn set_column(&mut self, f: usize, x: usize)
        requires { f < 8 }
    {
        let column = self.columns.saturating_sub(1);
        self.results[layout::RESULTS_HEAD + layout::COLUMN_SIZE * column + f] = low(x);
    }

    pub fn set_size(&mut self, size: Size) {
        self.map[layout::WIDTH] = low(size.width);
        self.map[layout::HEIGHT] = low(size.height);
        self.size = Some(size);
    }

    // Byte `f` of a hex.
    pub fn set_hex(&mut self, hex: usize, f: usize, x: usize)
        requires { f < 5 }
    {
        if hex < MOST_HEXES {
            self.map[layout::MAP_HEAD + layout::HEX_SIZE * hex + f] = low(x);
        }
    }

    // Byte `f` of a hex gets these bits too.
    pub fn add_to_hex(&mut self, hex: usize, f: usize, bits: usize)
        requires { f < 5 }
    {
        self.set_hex(hex, f, self.hex_byte(hex, f) | bits);
    }

    fn hex_byte(&self, hex: usize, f: usize) -> usize
        requires { f < 5 }
    {
        if hex < MOST_HEXES {
            return usize::from(self.map[layout::MAP_HEAD + layout::HEX_SIZE * hex + f]);
        }
        0
    }

    // The side of a hex in a direction: the hex keeps it, or the neighbour there does.
    pub fn set_side(&mut self, hex: usize, dir: usize, side: usize) -> Result<(), SideError> {
        let Some(size) = self.size else {
            return Err(SideError::OffMap);
        };
        let Some(beyond) = grid::neighbour(size.width, size.height, hex, dir) else {
            return Err(SideError::OffMap);
        };
        if dir < 3 {
            self.keep(hex, dir, side)
        } else {
            self.keep(beyond, dir - 3, side)
        }
    }

    // A hex keeps one of its three sides, N, NE and SE, two bits each. What was told before may be told again, and not otherwise.
    fn keep(&mut self, hex: usize, dir: usize, side: usize) -> Result<(), SideError> {
        let shift = 2 * dir.min(2);
        let before = (self.hex_byte(hex, layout::SIDES) >> shift) & 3;
        if before == side {
            return Ok(());
        }
        if before != 0 {
            return Err(SideError::Otherwise);
        }
        self.add_to_hex(hex, layout::SIDES, side << shift);
        Ok(())
    }
}
