// The supply walk: from which hexes a chain of open hexes over unblocked sides leads to a source. It works in the buffer that the grades
// come in, and has no other memory. First come two sweeps, which make sources of the hexes that they reach; then walks from the open hexes
// that still have a source beside them. A hex that a walk has entered has a mark m of 8 or more: m / 8 - 1 is the direction home, to the hex
// that it was entered from (6, in which nothing lies, where the walk began), and m % 8 is 0, or 7 once the walk has left the hex.
#![tactic(auto)]

mod step;

ghost use Rattle.std.specs.Prelude.{◌≡◌, ◌+◌, ◌*◌, ◌<◌, length};
ghost use Rattle.grid.specs.Spot.{SpotOf};
ghost use Rattle.position.specs.Board.{ground};
ghost use Rattle.position.specs.Ground.{next};
ghost use Rattle.position.specs.Laid.{Laid};
ghost use Rattle.walk.specs.Chain.{mark, Reached, Graded};
ghost use Rattle.walk.specs.Trail.{Rest, Flooded, Sown, Seeded, Settled};
ghost use Rattle.walk.specs.Swept.{Joined, Walked};

use grid::Spot;
use position::View;
use sweeping::row;

// The walk from spot `start`, which is open and has a source beside it: it enters every hex that open hexes join to it, but for sources and
// what lies beyond them.
fn flood(p: &[u8], v: View, buf: &mut [u8], start: Spot)
    requires laid { Laid p.now v × SpotOf v.width v.height start }
    requires buf_len { length buf.old ≡ v.hexes }
    requires rest { Rest (next (ground p.now)) (mark buf.old) }
    requires hex_value { (mark buf.old start.hex ≡ 1) × Joined (next (ground p.now)) (mark buf.old) start.hex }
    ensures { Flooded (next (ground p.now)) buf.old start.hex buf.new }
{
    let at = start.hex;
    buf[at] = 56;
    let mut s = start;
    let mut from = 0;
    loop {
        let Some((t, f)) = step::step(p, v, buf, s, from) else {
            return;
        };
        s = t;
        from = f;
    }
}

// The walk from spot `s`, if it is open, was not entered and has a source beside it.
fn seed(p: &[u8], v: View, buf: &mut [u8], s: Spot)
    requires laid { Laid p.now v × SpotOf v.width v.height s }
    requires buf_len { length buf.old ≡ v.hexes }
    requires rest { Rest (next (ground p.now)) (mark buf.old) }
    ensures { Sown (next (ground p.now)) buf.old s.hex (s.hex + 1) buf.new }
{
    let at = s.hex;
    if buf[at] != 1 {
        return;
    }
    if looking::look(p, v, buf, s, 0, 2).is_none() {
        return;
    }
    flood(p, v, buf, s);
}

// The walks from the hexes of row `row`.
fn seed_row(p: &[u8], v: View, buf: &mut [u8], row: usize)
    requires laid { Laid p.now v × (length buf.old ≡ v.hexes) × (row < v.height) }
    requires rest { Rest (next (ground p.now)) (mark buf.old) }
    ensures { Sown (next (ground p.now)) buf.old (row * v.width) (row * v.width + v.width) buf.new }
{
    if !row::joinable(v, buf, row) {
        return;
    }
    let w = v.width;
    for c in 0..w {
        seed(p, v, buf, grid::row::spot(w, v.height, row, c));
    }
}

// The walks from all hexes.
fn seeds(p: &[u8], v: View, buf: &mut [u8])
    requires laid { Laid p.now v × (length buf.old ≡ v.hexes) }
    requires rest { Rest (next (ground p.now)) (mark buf.old) }
    ensures { Seeded (next (ground p.now)) buf.old buf.new }
{
    let h = v.height;
    for row in 0..h {
        seed_row(p, v, buf, row);
    }
}

// Grades come in, 0 for a closed hex, 1 for an open one, 2 for an open one that is a source; 2 or more goes out at each hex from which a
// chain of open hexes over unblocked sides leads to a source, and at each other its grade.
pub fn reach(p: &[u8], v: View, buf: &mut [u8])
    requires laid { Laid p.now v }
    requires graded { Graded buf.old v }
    ensures { Walked (next (ground p.now)) buf.old buf.new }
{
    let hexes = v.hexes;
    if !row::some(buf, 0, hexes, 2) {
        return;
    }
    sweeping::down(p, v, buf);
    if !row::some(buf, 0, hexes, 1) {
        return;
    }
    sweeping::up(p, v, buf);
    seeds(p, v, buf);
}

// The marks as the caller wants them.
fn settle(buf: &mut [u8])
    ensures { Settled buf.old buf.new }
{
    for m in buf.iter_mut() {
        *m = u8::from(2 <= *m);
    }
}

// The same grades come in; 1 goes out at each hex from which such a chain leads to a source, and 0 at each other.
// The work is in proportion to the hexes: there are at most two sweeps over the map, and after them each hex is entered at most once, is done with
// each of its six directions once, and is left once. A step of the walk enters a hex or leaves one (proofs/Runs.antt: the `work` that the
// marks leave is at most 2 a hex, and falls with each step), and looks in no direction that was done with before.
pub fn walk(p: &[u8], v: View, buf: &mut [u8])
    requires laid { Laid p.now v }
    requires graded { Graded buf.old v }
    ensures { Reached (next (ground p.now)) buf.old buf.new }
{
    reach(p, v, buf);
    settle(buf);
}
