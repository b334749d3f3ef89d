// Hexes of a map, their neighbours and distances.
#![tactic(auto)]

pub mod near;
pub mod region;
pub mod rim;
pub mod row;

ghost use Rattle.std.specs.Prelude.{◌≡◌, ◌<◌, ◌≤◌};
ghost use Rattle.grid.specs.Map.{On, one_to, on_map, hex_at, beside_of, neighbour_of};
ghost use Rattle.grid.specs.Walk.{gap_of, distance_of};

// A hex with its column and its row, both counted from 0.
#[derive(Clone, Copy)]
pub struct Spot {
    pub hex: usize,
    column: usize,
    row: usize,
}

// A column and a row, both counted from 1, so that 0 is off the map.
#[derive(Clone, Copy)]
struct Place {
    x: usize,
    y: usize,
}

// Whether a map's side may be this long.
fn side(n: usize) -> bool
    ensures { result ≡ one_to n 64 }
{
    if n < 1 {
        return false;
    }
    n <= 64
}

// Whether these are a map's width, its height and a hex of it.
pub fn on_map(w: usize, h: usize, hex: usize) -> bool
    ensures { result ≡ on_map w h hex }
{
    if !side(w) {
        return false;
    }
    if !side(h) {
        return false;
    }
    hex < w * h
}

// The hex in column x and row y, both counted from 1.
fn hex_at(w: usize, h: usize, x: usize, y: usize) -> Option<usize>
    requires { (w ≤ 64) × (h ≤ 64) }
    ensures { result ≡ hex_at w h (x, y) }
{
    if x < 1 {
        return None;
    }
    if w < x {
        return None;
    }
    if y < 1 {
        return None;
    }
    if h < y {
        return None;
    }
    Some((y - 1) * w + (x - 1))
}

// The place beside column x and row y. One table serves both kinds of column: an odd one lies half a hex lower, and there low is 1.
fn place_beside(low: usize, x: usize, y: usize, dir: usize) -> Place
    requires low_bound { low < 2 }
    requires le_x { (1 ≤ x) × (x ≤ 64) × (1 ≤ y) × (y ≤ 64) }
    ensures { beside_of low x y dir ≡ (result.x, result.y) }
{
    let west = x - 1;
    let east = x + 1;
    let upper = y - 1 + low;
    let lower = y + low;
    match dir {
        0 => Place { x: x, y: y - 1 },
        1 => Place { x: east, y: upper },
        2 => Place { x: east, y: lower },
        3 => Place { x: x, y: y + 1 },
        4 => Place { x: west, y: lower },
        5 => Place { x: west, y: upper },
        _ => Place { x: 0, y: 0 },
    }
}

// The neighbour of a hex: directions 0 to 5 are N, NE, SE, S, SW, NW. Off also where the arguments are no map, hex and direction.
pub fn neighbour(w: usize, h: usize, hex: usize, dir: usize) -> Option<usize>
    ensures { result ≡ neighbour_of w h hex dir }
{
    if !on_map(w, h, hex) {
        return None;
    }
    let c = hex % w;
    let r = hex / w;
    let low = c % 2;
    let p = place_beside(low, c + 1, r + 1, dir);
    hex_at(w, h, p.x, p.y)
}

// How far apart two numbers are.
fn gap(a: usize, b: usize) -> usize
    ensures { result ≡ gap_of a b }
{
    if a < b {
        return b - a;
    }
    a - b
}

// The distance of two hexes of a map: the fewest steps from neighbour to neighbour. What is up and down is counted in half rows.
pub fn distance(w: usize, h: usize, a: usize, b: usize) -> usize
    requires on { On w h a }
    requires on_2 { On w h b }
    ensures { result ≡ distance_of w a b }
{
    let ca = a % w;
    let cb = b % w;
    let x = gap(ca, cb);
    let y = gap(2 * (a / w) + ca % 2, 2 * (b / w) + cb % 2);
    if x < y {
        return (x + y) / 2;
    }
    x
}
