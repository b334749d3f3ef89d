// Who stands where and whose zones lie where, painted into a lent buffer for a part of the map: one pass over the units.
#![tactic(auto)]

mod cast;
pub mod ink;
mod stand;

ghost use Rattle.std.specs.Prelude.{◌≡◌, ◌<◌, length, replicate};
ghost use Rattle.position.specs.Board.{board};
ghost use Rattle.position.specs.Laid.{Laid};
ghost use Rattle.field.specs.Scene.{scene};
ghost use Rattle.grid.specs.Region.{Before, Past};
ghost use Rattle.paint.specs.Room.{Room};
ghost use Rattle.paint.specs.Paint.{Adds, Shows, Marked, says, says_below};

use grid::region::Region;
use grid::{near, region};
use position::{View, layout, read};

// The marks of a painted hex: in an Enemy zone, held by an Enemy, by a unit of the force, by a supply unit of it, by any unit.
pub const ZONE: usize = 1;

pub const ENEMY: usize = 2;

pub const OWN: usize = 4;

pub const DEPOT: usize = 8;

pub const HELD: usize = 16;

// A mark that no painting sets: it is the caller's.
pub const SPARE: usize = 32;

// Every byte 0.
pub fn clear(buf: &mut [u8])
    ensures { buf.new ≡ replicate (length buf.old) 0 }
{
    buf.fill(0);
}

// What unit `u` shows to force `f` in the region: nothing, if it stands more than a row or a column outside.
fn paint_unit(
    p: &[u8],
    v: View,
    at: Region,
    f: usize,
    from: usize,
    to: usize,
    u: usize,
    buf: &mut [u8],
)
    requires { Laid p.now v × Room at buf.old × Before v.width v.height at from × Past v.width v.height at to }
    ensures { Adds v.width v.height at (says (scene (board p.now)) f u) buf.old buf.new }
{
    let h = read::hex(p, v, u);
    if to <= h {
        return;
    }
    if h < from {
        return;
    }
    let s = near::spot(v.width, v.height, h);
    if region::aside(v.width, v.height, at, s) {
        return;
    }
    stand::stand(p, v, at, f, u, s, buf);
    cast::cast(p, v, at, f, u, s, buf);
}

// What the units show to force `f` in the region: one pass over them.
fn paint_units(p: &[u8], v: View, at: Region, f: usize, from: usize, to: usize, buf: &mut [u8])
    requires { Laid p.now v × Room at buf.old × Before v.width v.height at from × Past v.width v.height at to }
    ensures { Adds v.width v.height at (says_below (scene (board p.now)) f v.count) buf.old buf.new }
{
    for u in 0..v.count {
        paint_unit(p, v, at, f, from, to, u, buf);
    }
}

// Everything that force `f` asks of the region's hexes, in a buffer of zeros.
pub fn paint_blank(p: &[u8], v: View, at: Region, f: usize, buf: &mut [u8])
    requires { Laid p.now v × Room at buf.old × (buf.old ≡ replicate (length buf.old) 0) }
    ensures { Shows (scene (board p.now)) f at buf.new }
{
    paint_units(
        p,
        v,
        at,
        f,
        region::first(v.width, v.height, at),
        region::past(v.width, v.height, at),
        buf,
    );
}

// The same, whatever the buffer held before.
pub fn paint(p: &[u8], v: View, at: Region, f: usize, buf: &mut [u8])
    requires { Laid p.now v × Room at buf.old }
    ensures { Shows (scene (board p.now)) f at buf.new }
{
    clear(buf);
    paint_blank(p, v, at, f, buf);
}

// The marks of one hex, in a blank buffer of its own.
fn look_in(p: &[u8], v: View, f: usize, h: usize, buf: &mut [u8]) -> usize
    requires { Laid p.now v × (h < v.hexes) × (buf.old ≡ replicate 1 0) }
    ensures { Marked (scene (board p.now)) f h result }
{
    let s = near::spot(v.width, v.height, h);
    paint_blank(p, v, region::one(v.width, v.height, s), f, buf);
    layout::wide(buf[0])
}

// The marks of hex `h` for force `f`.
pub fn look(p: &[u8], v: View, f: usize, h: usize) -> usize
    requires { Laid p.now v × (h < v.hexes) }
    ensures { Marked (scene (board p.now)) f h result }
{
    let mut buf = [0u8; 1];
    look_in(p, v, f, h, &mut buf)
}
