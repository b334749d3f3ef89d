// Hexes with their columns and rows, and their neighbours by adding and taking away alone.
ghost use Rattle.std.specs.Prelude.{◌≡◌, ◌+◌, ◌<◌, ◌≤◌};
ghost use Rattle.grid.specs.Map.{On};
ghost use Rattle.grid.specs.Spot.{SpotOf, NearOf, MovedOf};

use crate::Spot;

// A hex of the map with its column and row. Only here does it take a division.
pub fn spot(w: usize, h: usize, hex: usize) -> Spot
    requires { On w h hex }
    ensures { SpotOf w h result × (result.hex ≡ hex) }
{
    Spot {
        hex: hex,
        column: hex % w,
        row: hex / w,
    }
}

// A row up, where the map has one.
fn above(w: usize, h: usize, s: Spot) -> Option<Spot>
    requires { SpotOf w h s }
    ensures { MovedOf w h (s.column + 1) s.row (s.row ≡ 0) result }
{
    if s.row < 1 {
        return None;
    }
    Some(Spot {
        hex: s.hex - w,
        column: s.column,
        row: s.row - 1,
    })
}

// A row down.
fn below(w: usize, h: usize, s: Spot) -> Option<Spot>
    requires { SpotOf w h s }
    ensures { MovedOf w h (s.column + 1) (s.row + 2) (h ≤ s.row + 1) result }
{
    if h <= s.row + 1 {
        return None;
    }
    Some(Spot {
        hex: s.hex + w,
        column: s.column,
        row: s.row + 1,
    })
}

// A column to the east.
fn east(w: usize, h: usize, s: Spot) -> Option<Spot>
    requires { SpotOf w h s }
    ensures { MovedOf w h (s.column + 2) (s.row + 1) (w ≤ s.column + 1) result }
{
    if w <= s.column + 1 {
        return None;
    }
    Some(Spot {
        hex: s.hex + 1,
        column: s.column + 1,
        row: s.row,
    })
}

// A column to the west.
fn west(w: usize, h: usize, s: Spot) -> Option<Spot>
    requires { SpotOf w h s }
    ensures { MovedOf w h s.column (s.row + 1) (s.column ≡ 0) result }
{
    if s.column < 1 {
        return None;
    }
    Some(Spot {
        hex: s.hex - 1,
        column: s.column - 1,
        row: s.row,
    })
}

// The upper one of the two hexes beside a hex in a column beside its own: `s` is the one with its row, which an odd column, where `low` is 1,
// has above its own, as it lies half a hex lower.
fn upper(w: usize, h: usize, s: Spot, low: usize) -> Option<Spot>
    requires { SpotOf w h s × (low < 2) }
    ensures { MovedOf w h (s.column + 1) (s.row + low) (s.row + low ≡ 0) result }
{
    if low == 1 {
        return Some(s);
    }
    above(w, h, s)
}

// The lower one.
fn lower(w: usize, h: usize, s: Spot, low: usize) -> Option<Spot>
    requires { SpotOf w h s × (low < 2) }
    ensures { MovedOf w h (s.column + 1) (s.row + 1 + low) (h ≤ s.row + low) result }
{
    if low == 1 {
        return below(w, h, s);
    }
    Some(s)
}

// The neighbour in direction `dir`, with its column and row.
pub fn near(w: usize, h: usize, s: Spot, dir: usize) -> Option<Spot>
    requires { SpotOf w h s × (dir < 6) }
    ensures { NearOf w h s.hex dir result }
{
    let low = s.column % 2;
    match dir {
        0 => above(w, h, s),
        1 => upper(w, h, east(w, h, s)?, low),
        2 => lower(w, h, east(w, h, s)?, low),
        3 => below(w, h, s),
        4 => lower(w, h, west(w, h, s)?, low),
        _ => upper(w, h, west(w, h, s)?, low),
    }
}
