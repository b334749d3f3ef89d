// Sweeps over the map, row by row, down and up again. Each makes a source of every open hex that has a source beside it already, so that two
// of them reach most of a map at a fraction of the walk's price; the walk then has the rest.
#![tactic(auto)]

pub mod row;

ghost use Rattle.std.specs.Prelude.{◌≡◌, true, ◌<◌, length};
ghost use Rattle.grid.specs.Spot.{SpotOf};
ghost use Rattle.position.specs.Board.{ground};
ghost use Rattle.position.specs.Ground.{next};
ghost use Rattle.position.specs.Laid.{Laid};
ghost use Rattle.walk.specs.Chain.{mark};
ghost use Rattle.walk.specs.Swept.{Joined, Swept};

use grid::{Spot, near};
use position::View;

// Whether a source lies to the west of spot `s`: in its own row, which is NW in an odd column and SW in an even one, or else in the other.
fn from_west(p: &[u8], v: View, buf: &[u8], s: Spot) -> bool
    requires laid { Laid p.now v × SpotOf v.width v.height s }
    requires buf_len { length buf.now ≡ v.hexes }
    ensures { result ≡ true → Joined (next (ground p.now)) (mark buf.now) s.hex }
{
    if grid::row::low(s) {
        if looking::leads(p, v, buf, s, 5, near::near(v.width, v.height, s, 5), 2) {
            return true;
        }
        return looking::leads(p, v, buf, s, 4, near::near(v.width, v.height, s, 4), 2);
    }
    if looking::leads(p, v, buf, s, 4, near::near(v.width, v.height, s, 4), 2) {
        return true;
    }
    looking::leads(p, v, buf, s, 5, near::near(v.width, v.height, s, 5), 2)
}

// The same to the east.
fn from_east(p: &[u8], v: View, buf: &[u8], s: Spot) -> bool
    requires laid { Laid p.now v × SpotOf v.width v.height s }
    requires buf_len { length buf.now ≡ v.hexes }
    ensures { result ≡ true → Joined (next (ground p.now)) (mark buf.now) s.hex }
{
    if grid::row::low(s) {
        if looking::leads(p, v, buf, s, 1, near::near(v.width, v.height, s, 1), 2) {
            return true;
        }
        return looking::leads(p, v, buf, s, 2, near::near(v.width, v.height, s, 2), 2);
    }
    if looking::leads(p, v, buf, s, 2, near::near(v.width, v.height, s, 2), 2) {
        return true;
    }
    looking::leads(p, v, buf, s, 1, near::near(v.width, v.height, s, 1), 2)
}

// Whether a source lies to the north of spot `s`, where the sweep goes down, or to the south, where it goes up.
fn from_behind(p: &[u8], v: View, buf: &[u8], s: Spot, up: bool) -> bool
    requires laid { Laid p.now v × SpotOf v.width v.height s }
    requires buf_len { length buf.now ≡ v.hexes }
    ensures { result ≡ true → Joined (next (ground p.now)) (mark buf.now) s.hex }
{
    if up {
        return looking::leads(p, v, buf, s, 3, near::near(v.width, v.height, s, 3), 2);
    }
    looking::leads(p, v, buf, s, 0, near::near(v.width, v.height, s, 0), 2)
}

// Spot `s` on the way east: a source now, if it is open and one lies to the west or behind. Whether it is left open and no source.
fn join_west(p: &[u8], v: View, buf: &mut [u8], s: Spot, up: bool) -> bool
    requires laid { Laid p.now v × SpotOf v.width v.height s }
    requires buf_len { length buf.old ≡ v.hexes }
    ensures { Swept (next (ground p.now)) buf.old buf.new }
{
    let at = s.hex;
    if buf[at] != 1 {
        return false;
    }
    if from_west(p, v, buf, s) {
        buf[at] = 2;
        return false;
    }
    if from_behind(p, v, buf, s, up) {
        buf[at] = 2;
        return false;
    }
    true
}

// Spot `s` on the way west: a source now, if it is open and one lies to the east.
fn join_east(p: &[u8], v: View, buf: &mut [u8], s: Spot)
    requires laid { Laid p.now v × SpotOf v.width v.height s }
    requires buf_len { length buf.old ≡ v.hexes }
    ensures { Swept (next (ground p.now)) buf.old buf.new }
{
    let at = s.hex;
    if buf[at] != 1 {
        return;
    }
    if !from_east(p, v, buf, s) {
        return;
    }
    buf[at] = 2;
}

// Row `row` from west to east. Whether a hex is left open and no source.
fn eastward(p: &[u8], v: View, buf: &mut [u8], row: usize, up: bool) -> bool
    requires { Laid p.now v × (length buf.old ≡ v.hexes) × (row < v.height) }
    ensures { Swept (next (ground p.now)) buf.old buf.new }
{
    let w = v.width;
    let mut left = false;
    for c in 0..w {
        if join_west(p, v, buf, grid::row::spot(w, v.height, row, c), up) {
            left = true;
        }
    }
    left
}

// Row `row` from east to west.
fn westward(p: &[u8], v: View, buf: &mut [u8], row: usize)
    requires { Laid p.now v × (length buf.old ≡ v.hexes) × (row < v.height) }
    ensures { Swept (next (ground p.now)) buf.old buf.new }
{
    let w = v.width;
    for c in (0..w).rev() {
        join_east(p, v, buf, grid::row::spot(w, v.height, row, c));
    }
}

// Row `row` to the east and back. Whether the row after it is to be reached from it: not if most of this one is still open, as in a maze whose
// lanes run across the rows, where the walk is cheaper.
fn spread(p: &[u8], v: View, buf: &mut [u8], row: usize, up: bool) -> bool
    requires { Laid p.now v × (length buf.old ≡ v.hexes) × (row < v.height) }
    ensures { Swept (next (ground p.now)) buf.old buf.new }
{
    if !eastward(p, v, buf, row, up) {
        return true;
    }
    if !row::has(v, buf, row, 2) {
        return false;
    }
    westward(p, v, buf, row);
    !row::mostly(v, buf, row, 1)
}

// The same, but that a row is passed over which has no source and which the row before does not reach.
fn pass(p: &[u8], v: View, buf: &mut [u8], row: usize, up: bool, reached: bool) -> bool
    requires { Laid p.now v × (length buf.old ≡ v.hexes) × (row < v.height) }
    ensures { Swept (next (ground p.now)) buf.old buf.new }
{
    if !reached {
        if !row::has(v, buf, row, 2) {
            return false;
        }
    }
    spread(p, v, buf, row, up)
}

// The same on the way up, where most rows have nothing left to join.
fn pass_up(p: &[u8], v: View, buf: &mut [u8], row: usize, reached: bool) -> bool
    requires { Laid p.now v × (length buf.old ≡ v.hexes) × (row < v.height) }
    ensures { Swept (next (ground p.now)) buf.old buf.new }
{
    if !row::has(v, buf, row, 1) {
        return true;
    }
    pass(p, v, buf, row, true, reached)
}

// The sweep down the map.
pub fn down(p: &[u8], v: View, buf: &mut [u8])
    requires { Laid p.now v × (length buf.old ≡ v.hexes) }
    ensures { Swept (next (ground p.now)) buf.old buf.new }
{
    let h = v.height;
    let mut reached = true;
    for row in 0..h {
        reached = pass(p, v, buf, row, false, reached);
    }
}

// The sweep up again.
pub fn up(p: &[u8], v: View, buf: &mut [u8])
    requires { Laid p.now v × (length buf.old ≡ v.hexes) }
    ensures { Swept (next (ground p.now)) buf.old buf.new }
{
    let h = v.height;
    let mut reached = true;
    for row in (0..h).rev() {
        reached = pass_up(p, v, buf, row, reached);
    }
}
