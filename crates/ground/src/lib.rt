// The ground: sides between hexes, steps over unblocked sides, and where a unit may stand.
#![tactic(auto)]

ghost use Rattle.std.specs.Prelude.{◌≡◌, cond, ◌<◌, ltb, Some};
ghost use Rattle.position.specs.Board.{board, ground};
ghost use Rattle.position.specs.Ground.{beside, stored, side, next, bearing, joined, standable};
ghost use Rattle.position.specs.Laid.{Laid, Read, Sought};

use position::{View, read};

pub const PLAIN: usize = 0;

pub const RIVER: usize = 1;

pub const MAJOR_RIVER: usize = 2;

pub const BLOCKED: usize = 3;

// One of the three sides that hex `h` keeps: N, NE and SE for the directions 0, 1 and 2.
pub fn stored(p: &[u8], v: View, h: usize, d: usize) -> usize
    requires { Laid p.now v × (d < 3) }
    ensures { Read (stored (ground p.now) h d) 4 result }
{
    let sides = read::sides(p, v, h);
    if d == 0 {
        return sides % 4;
    }
    if d == 1 {
        return sides / 4 % 4;
    }
    sides / 16 % 4
}

// The side of hex `h` in direction `d`: the hex keeps it, or the neighbour there does.
pub fn side(p: &[u8], v: View, h: usize, d: usize) -> usize
    requires { Laid p.now v × (d < 6) }
    ensures { Read (side (ground p.now) h d) 4 result }
{
    if d < 3 {
        return stored(p, v, h, d);
    }
    let Some(n) = grid::neighbour(v.width, v.height, h, d) else {
        return PLAIN;
    };
    stored(p, v, n, d - 3)
}

// The hex that keeps the side between hex `h` and its neighbour `n` in direction `d`.
fn keeper(h: usize, n: usize, d: usize) -> usize
    ensures { result ≡ cond (ltb d 3) h n }
{
    if d < 3 {
        return h;
    }
    n
}

// The side between hex `h` and its neighbour `n` in direction `d`, for one who knows the neighbour.
pub fn between(p: &[u8], v: View, h: usize, n: usize, d: usize) -> usize
    requires { Laid p.now v × (d < 6) × (beside (ground p.now) h d ≡ Some n) }
    ensures { Read (side (ground p.now) h d) 4 result }
{
    stored(p, v, keeper(h, n, d), d % 3)
}

// Where a step from hex `h` in direction `d` leads, if the side is not blocked. The neighbour is looked up once, for itself and its side.
pub fn next(p: &[u8], v: View, h: usize, d: usize) -> Option<usize>
    requires { Laid p.now v × (d < 6) }
    ensures { result ≡ next (ground p.now) h d }
{
    let n = grid::neighbour(v.width, v.height, h, d)?;
    if between(p, v, h, n, d) == BLOCKED {
        return None;
    }
    Some(n)
}

// The direction in which a step over an unblocked side leads from hex `h` to hex `x`, if one does.
pub fn bearing(p: &[u8], v: View, h: usize, x: usize) -> Option<usize>
    requires { Laid p.now v }
    ensures { Sought (bearing (ground p.now) h x) 6 result }
{
    (0..6).find(|d| next(p, v, h, *d) == Some(x))
}

// Whether hex `x` is next to hex `h` over an unblocked side.
pub fn joined(p: &[u8], v: View, h: usize, x: usize) -> bool
    requires { Laid p.now v }
    ensures { result ≡ joined (ground p.now) h x }
{
    bearing(p, v, h, x).is_some()
}

// Whether a unit may stand on hex `h`: land or coast of the map, unprohibited.
pub fn standable(p: &[u8], v: View, h: usize) -> bool
    requires { Laid p.now v }
    ensures { result ≡ standable (board p.now) h }
{
    let hexes = v.hexes;
    if hexes <= h {
        return false;
    }
    if 1 < read::surface(p, v, h) {
        return false;
    }
    let t = read::terrain(p, v, h);
    read::cost(p, v, t) != 0
}
