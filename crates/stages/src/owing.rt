// In how many hexes units stand that owe, in one pass: no accepted position has more than there are routes.
ghost use Rattle.std.specs.Prelude.{◌+◌, ◌≤◌, cond};
ghost use Rattle.position.specs.Layout.{route_count};
ghost use Rattle.position.specs.Board.{board};
ghost use Rattle.position.specs.Crowd.{owing_hexes};
ghost use Rattle.position.specs.Laid.{Laid};
ghost use Rattle.acceptance.specs.Holder.{UpToSeven};
ghost use Rattle.acceptance.specs.Noted.{NoteOf};

use position::{View, layout, read, role};

// One hex more than there are routes: more are not counted.
const OVER: usize = layout::ROUTE_COUNT + 1;

// The hexes that were seen: the first `count`.
#[derive(Drop)]
struct Seen {
    hexes: [usize; layout::ROUTE_COUNT],
    count: usize,
    ghost fits: { count ≤ route_count },
}

impl Seen {
    // Hex `h` is noted, where it was not seen before; false if there is no room for it.
    fn note(&mut self, h: usize) -> bool
        ensures { NoteOf self.old.hexes self.new.hexes self.old.count h (cond result self.new.count (route_count + 1)) }
    {
        if self.hexes[..self.count].contains(&h) {
            return true;
        }
        if self.count == layout::ROUTE_COUNT {
            return false;
        }
        self.hexes[self.count] = h;
        self.count += 1;
        true
    }
}

// How many hexes hold units that owe, up to `OVER`.
pub fn owing_hexes(p: &[u8], v: View) -> usize
    requires { Laid p.now v }
    ensures { UpToSeven (owing_hexes (board p.now)) result }
{
    let mut seen = Seen {
        hexes: [0; layout::ROUTE_COUNT],
        count: 0,
    };
    for u in 0..v.count {
        if read::role(p, v, u) == role::OWES && !seen.note(read::hex(p, v, u)) {
            return OVER;
        }
    }
    seen.count
}
