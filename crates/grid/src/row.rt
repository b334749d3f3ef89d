// The rows of the map: their hexes have numbers that follow each other.
ghost use Rattle.std.specs.Prelude.{◌≡◌, ◌+◌, ◌*◌, ◌%◌, ◌<◌, ◌≤◌, eqb};
ghost use Rattle.grid.specs.Map.{On};
ghost use Rattle.grid.specs.Spot.{SpotOf};

use crate::Spot;

// The first hex of row `row`.
pub fn first(w: usize, h: usize, row: usize) -> usize
    requires { On w h 0 × (row < h) }
    ensures { (result ≡ row * w) × (result + w ≤ w * h) }
{
    row * w
}

// The hex in column `column` of row `row`.
pub fn spot(w: usize, h: usize, row: usize, column: usize) -> Spot
    requires { On w h 0 × (row < h) × (column < w) }
    ensures { SpotOf w h result × (result.hex ≡ row * w + column) }
{
    Spot {
        hex: row * w + column,
        column: column,
        row: row,
    }
}

// Whether the hexes NW and NE of the spot lie in its own row, as they do in an odd column; else those SW and SE do.
pub fn low(s: Spot) -> bool
    ensures { result ≡ eqb (s.column % 2) 1 }
{
    s.column % 2 == 1
}
