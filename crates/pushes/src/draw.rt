// Draws the plot round the start of a retreat.
ghost use Rattle.std.specs.Prelude.{◌≡◌, ◌+◌, ◌*◌, ◌<◌, ◌≤◌, length, replicate};
ghost use Rattle.grid.specs.Region.{RegionOk, Round};
ghost use Rattle.position.specs.Board.{board};
ghost use Rattle.position.specs.Laid.{Laid};
ghost use Rattle.paint.specs.Room.{Room};
ghost use Rattle.paint.specs.Paint.{Adds};
ghost use Rattle.chains.specs.declared.Stand.{Stand};
ghost use Rattle.pushes.specs.Drawn.{stand_number, open_bits, bars_by, bars_below, Shown, ShownIn, ByteIn, Drawn};

use crate::stands;
use chains::Stand;
use grid::region::Region;
use grid::{near, region};
use paint::ink;
use position::{View, layout, read};

// The number of a stand.
fn stand_number(s: Stand) -> usize
    ensures { (result ≡ stand_number s) × (result ≤ 2) }
{
    match s {
        Stand::Shut => 0,
        Stand::Free => 1,
        Stand::Loose => 2,
    }
}

// The bits of the directions in which a step from hex `x` leads to a hex.
fn open_bits(p: &[u8], v: View, x: usize) -> usize
    requires { Laid p.now v }
    ensures { (result ≡ open_bits (board p.now).map x 6) × (result ≤ 252) }
{
    let mut m = 0;
    for d in 0..6 {
        if let Some(_) = ground::next(p, v, x, d) {
            m += plot::side_bit(d);
        }
    }
    m
}

// Marks the hex of unit `u`, if its stack can't be pushed by force `f`.
fn bar(p: &[u8], v: View, at: Region, f: usize, u: usize, room: &mut [u8])
    requires { Laid p.now v × Room at room.old }
    ensures { Adds v.width v.height at (bars_by (board p.now) f u) room.old room.new }
{
    if !stands::firm(p, v, f, u) {
        return;
    }
    let h = read::hex(p, v, u);
    let hexes = v.hexes;
    if hexes <= h {
        return;
    }
    let s = near::spot(v.width, v.height, h);
    ink::stamp(v, at, s, paint::SPARE, room);
}

// Marks those of all such units.
fn bar_all(p: &[u8], v: View, at: Region, f: usize, room: &mut [u8])
    requires { Laid p.now v × Room at room.old }
    ensures { Adds v.width v.height at (bars_below (board p.now) f v.count) room.old room.new }
{
    for u in 0..v.count {
        bar(p, v, at, f, u, room);
    }
}

// What the region's hexes are to force `f`, and which of them hold stacks that can't be pushed.
fn show(p: &[u8], v: View, at: Region, f: usize, room: &mut [u8])
    requires { Laid p.now v × Room at room.old × (room.old ≡ replicate (length room.old) 0) }
    ensures { Shown (board p.now) f at room.new }
{
    paint::paint_blank(p, v, at, f, room);
    bar_all(p, v, at, f, room);
}

// The byte of place `i`, which has the marks `m`.
fn byte_for(p: &[u8], v: View, at: Region, f: usize, start: usize, i: usize, m: usize) -> usize
    requires { Laid p.now v × RegionOk at × (i < at.wide * at.high) × ShownIn (board p.now) f at i m }
    ensures { ByteIn (board p.now) f start at i result × (result < 256) }
{
    let Some(x) = region::hex_of(v.width, v.height, at, i) else {
        return 0;
    };
    open_bits(p, v, x) + stand_number(stands::stand_at(p, v, f, start, x, m))
}

// Draws every place.
pub fn draw(p: &[u8], v: View, at: Region, f: usize, start: usize, room: &mut [u8])
    requires { Laid p.now v × Round v.width v.height start 6 at × (room.old ≡ replicate 182 0) }
    ensures { Drawn (board p.now) f start at room.new }
{
    show(p, v, at, f, room);
    for (i, m) in room.iter_mut().enumerate() {
        *m = byte_for(p, v, at, f, start, i, layout::wide(*m)) as u8;
    }
}
