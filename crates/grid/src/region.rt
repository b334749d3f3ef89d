// A part of the map with places of its own for its hexes. It may reach beyond the map's edge.
ghost use Rattle.std.specs.Prelude.{◌≡◌, true, ◌*◌, ◌<◌, ◌≤◌};
ghost use Rattle.grid.specs.Map.{On};
ghost use Rattle.grid.specs.Spot.{SpotOf};
ghost use Rattle.grid.specs.Region.{RegionOk, Inside, inside, place_of, place_in, HexOf, Whole, One, Round, Away, Before, Past};

use crate::{Spot, near};

// How many columns and rows of a region may lie beyond the map's edge: its first ones are counted from there.
const MARGIN: usize = 8;

// `wide` columns from `left` on and `high` rows from `top` on, with a place for each hex, row by row.
#[derive(Clone, Copy)]
pub struct Region {
    left: usize,
    top: usize,
    wide: usize,
    high: usize,
}

// The whole map, where a hex's place is the hex's own number.
pub fn whole(w: usize, h: usize) -> Region
    requires { On w h 0 }
    ensures { Whole w h result }
{
    Region {
        left: MARGIN,
        top: MARGIN,
        wide: w,
        high: h,
    }
}

// The one hex on the spot.
pub fn one(w: usize, h: usize, s: Spot) -> Region
    requires { SpotOf w h s }
    ensures { One w h s.hex result }
{
    Region {
        left: s.column + MARGIN,
        top: s.row + MARGIN,
        wide: 1,
        high: 1,
    }
}

// Every hex within `far` steps of the spot. Its first column is an even one of the map, so that places lie to each other as their hexes do.
pub fn round(w: usize, h: usize, s: Spot, far: usize) -> Region
    requires { SpotOf w h s × (far ≤ 6) }
    ensures { Round w h s.hex far result }
{
    let west = s.column + MARGIN - far;
    Region {
        left: west - west % 2,
        top: s.row + MARGIN - far,
        wide: 2 * far + 2,
        high: 2 * far + 1,
    }
}

// Whether the region has the hex on the spot.
pub fn contains(w: usize, h: usize, at: Region, s: Spot) -> bool
    requires { SpotOf w h s × RegionOk at }
    ensures { result ≡ inside w h at s.hex }
{
    let column = s.column + MARGIN;
    let row = s.row + MARGIN;
    if column < at.left {
        return false;
    }
    if at.left + at.wide <= column {
        return false;
    }
    if row < at.top {
        return false;
    }
    row < at.top + at.high
}

// The place of the hex on the spot, which the region has.
pub fn place(w: usize, h: usize, at: Region, s: Spot) -> usize
    requires { SpotOf w h s × RegionOk at × Inside w h at s.hex }
    ensures { (result ≡ place_of w at s.hex) × (result < at.wide * at.high) }
{
    (s.row + MARGIN - at.top) * at.wide + (s.column + MARGIN - at.left)
}

// The place of hex `x`, whatever it is: the number of places, if the region has it not.
pub fn place_in(w: usize, h: usize, at: Region, x: usize) -> usize
    requires { RegionOk at }
    ensures { result ≡ place_in w h at x }
{
    if !crate::on_map(w, h, x) {
        return at.wide * at.high;
    }
    let s = near::spot(w, h, x);
    if !contains(w, h, at, s) {
        return at.wide * at.high;
    }
    place(w, h, at, s)
}

// The hex of the map that has place `i`, if one has.
pub fn hex_of(w: usize, h: usize, at: Region, i: usize) -> Option<usize>
    requires { On w h 0 × RegionOk at × (i < at.wide * at.high) }
    ensures { HexOf w h at i result }
{
    let column = i % at.wide + at.left;
    let row = i / at.wide + at.top;
    if column < MARGIN {
        return None;
    }
    if w + MARGIN <= column {
        return None;
    }
    if row < MARGIN {
        return None;
    }
    if h + MARGIN <= row {
        return None;
    }
    Some((row - MARGIN) * w + (column - MARGIN))
}

// The hexes before this one are away from the region: those above the row above it.
pub fn first(w: usize, h: usize, at: Region) -> usize
    requires { On w h 0 × RegionOk at }
    ensures { Before w h at result }
{
    if at.top <= MARGIN {
        return 0;
    }
    (at.top - MARGIN - 1) * w
}

// So are those from this number on: those below the row below it.
pub fn past(w: usize, h: usize, at: Region) -> usize
    requires { On w h 0 × RegionOk at }
    ensures { Past w h at result }
{
    let under = at.top + at.high - MARGIN;
    if h <= under {
        return w * h;
    }
    (under + 1) * w
}

// Whether the hex on the spot is away from the region: it lies more than a column to the left or the right of it. Rows are not asked for.
pub fn aside(w: usize, h: usize, at: Region, s: Spot) -> bool
    requires { SpotOf w h s × RegionOk at }
    ensures { result ≡ true → Away w h at s.hex }
{
    let column = s.column + MARGIN;
    if column + 1 < at.left {
        return true;
    }
    at.left + at.wide < column
}
