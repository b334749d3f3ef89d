// The rows of the map, and whether any hex of one has a mark.
ghost use Rattle.std.specs.Prelude.{◌≡◌, false, ◌+◌, ◌-◌, ◌*◌, ◌<◌, ◌≤◌, length};
ghost use Rattle.grid.specs.Map.{On};
ghost use Rattle.walk.specs.Chain.{mark};
ghost use Rattle.walk.specs.Swept.{None, RowApart};

use position::View;

// Whether one of the hexes from `from` up to `to` is marked `m`. It looks at all of them, whatever it has found, and so
// at many at a time.
pub fn some(buf: &[u8], from: usize, to: usize, m: u8) -> bool
    requires { to ≤ length buf.now }
    ensures { result ≡ false → None (mark buf.now) from to m }
{
    let mut found = false;
    for i in from..to {
        if buf[i] == m {
            found = true;
        }
    }
    found
}

// Whether one of the hexes of row `row` is marked `m`.
pub fn has(v: View, buf: &[u8], row: usize, m: u8) -> bool
    requires { On v.width v.height 0 × (length buf.now ≡ v.width * v.height) × (row < v.height) }
    ensures { result ≡ false → None (mark buf.now) (row * v.width) (row * v.width + v.width) m }
{
    let first = grid::row::first(v.width, v.height, row);
    some(buf, first, first + v.width, m)
}

// Whether more than half of the hexes of row `row` are marked `m`.
pub fn mostly(v: View, buf: &[u8], row: usize, m: u8) -> bool
    requires { On v.width v.height 0 × (length buf.now ≡ v.width * v.height) × (row < v.height) }
{
    let first = grid::row::first(v.width, v.height, row);
    let many = buf[first..first + v.width]
        .iter()
        .filter(|x| **x == m)
        .count();
    v.width < 2 * many
}

// Whether the row before row `row` has a source.
fn source_before(v: View, buf: &[u8], row: usize) -> bool
    requires { On v.width v.height 0 × (length buf.now ≡ v.width * v.height) × (row < v.height) }
    ensures { result ≡ false → None (mark buf.now) (row * v.width - v.width) (row * v.width) 2 }
{
    if row < 1 {
        return false;
    }
    has(v, buf, row - 1, 2)
}

// Whether the row after it has one.
fn source_after(v: View, buf: &[u8], row: usize) -> bool
    requires { On v.width v.height 0 × (length buf.now ≡ v.width * v.height) × (row < v.height) }
    ensures { result ≡ false → None (mark buf.now) (row * v.width + v.width) (row * v.width + v.width + v.width) 2 }
{
    if v.height <= row + 1 {
        return false;
    }
    has(v, buf, row + 1, 2)
}

// Whether an open hex of row `row` may have a source beside it: there is one, and a source lies in its row or beside that.
pub fn joinable(v: View, buf: &[u8], row: usize) -> bool
    requires { On v.width v.height 0 × (length buf.now ≡ v.width * v.height) × (row < v.height) }
    ensures { result ≡ false → RowApart v.width v.height (mark buf.now) row }
{
    if !has(v, buf, row, 1) {
        return false;
    }
    if source_before(v, buf, row) {
        return true;
    }
    if has(v, buf, row, 2) {
        return true;
    }
    source_after(v, buf, row)
}
