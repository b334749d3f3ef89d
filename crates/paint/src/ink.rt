// Marks on the hexes of a region, in a buffer with a byte for each of its places.
ghost use Rattle.std.specs.Prelude.{◌≡◌, ◌<◌};
ghost use Rattle.grid.specs.Spot.{SpotOf};
ghost use Rattle.paint.specs.Room.{Room};
ghost use Rattle.paint.specs.Paint.{Stamp, Adds, inked, only};

use grid::region::Region;
use grid::{Spot, region};
use position::{View, bits, layout};

fn inked(b: usize, m: usize) -> usize
    requires { Stamp b × (m < 256) }
    ensures { (result ≡ inked b m) × (result < 256) }
{
    if bits::has(b, m) {
        return m;
    }
    m + b
}

// Sets mark `b` on the hex on the spot, if the region has it.
pub fn stamp(v: View, at: Region, s: Spot, b: usize, buf: &mut [u8])
    requires { SpotOf v.width v.height s × Room at buf.old × Stamp b }
    ensures { Adds v.width v.height at (only b s.hex) buf.old buf.new }
{
    if region::contains(v.width, v.height, at, s) {
        let i = region::place(v.width, v.height, at, s);
        let m = layout::wide(buf[i]);
        buf[i] = inked(b, m) as u8;
    }
}
