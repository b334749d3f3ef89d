// What one unit comes to: its working numbers, and whether its force is phasing.
ghost use Rattle.std.specs.Prelude.{◌≡◌, ◌<◌};
ghost use Rattle.position.specs.Board.{board};
ghost use Rattle.position.specs.Laid.{Laid, Read};
ghost use Rattle.field.specs.Working.{working};
ghost use Rattle.field.specs.Phasing.{not_phasing};

use position::{View, layout, read};

// What `n` comes to for unit `u`: halved, fractions up, out of supply. The one place that halves.
pub fn working(p: &[u8], v: View, u: usize, in_supply: bool, n: usize) -> usize
    requires { Laid p.now v × (n < 65536) }
    ensures { Read (working (board p.now) u in_supply n) 65536 result }
{
    if in_supply {
        return n;
    }
    (n + 1) / 2
}

// Whether unit `u` is destroyed or not of the phasing force.
pub fn not_phasing(p: &[u8], v: View, u: usize) -> bool
    requires { Laid p.now v }
    ensures { result ≡ not_phasing (board p.now) u }
{
    if read::hex(p, v, u) == layout::NOWHERE {
        return true;
    }
    forces::force_of(p, v, u) != read::phasing(p, v)
}
