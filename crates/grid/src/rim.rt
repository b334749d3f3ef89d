// The rim of the map: every hex with a side N, NE or SE that no hex lies beyond is on it, and so a walk round the rim finds them all.
ghost use Rattle.grid.specs.Rim.{RimHex, RimNext};

// The rim's next hex in the order of hex numbers; past the last of them the number of hexes. Hex 0 is the first.
pub fn after(w: usize, h: usize, x: usize) -> usize
    requires { RimHex w h x }
    ensures { RimNext w h x result }
{
    let next = x + 1;
    if next < w {
        return next;
    }
    if w * h <= next + w {
        return next;
    }
    x + w
}
