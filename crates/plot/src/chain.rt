// Chains of pushes: where each may end, by recursion over the places that it has not used.
ghost use Rattle.std.specs.Prelude.{◌≡◌, [], ◌∷◌, ◌-◌, ◌<◌, ◌≤◌, length};
ghost use Rattle.position.specs.Tally.{any};
ghost use Rattle.field.specs.Listed.{named};
ghost use Rattle.chains.specs.Chain.{rests, yields, has_rest};
ghost use Rattle.chains.specs.Serves.{ends_in};
ghost use Rattle.plot.specs.Plot.{stand_in, next_in};
ghost use Rattle.plot.specs.Trail.{trail_of, TrailOk};
ghost use Rattle.plot.specs.Ends.{bit_of, mark_in, MarkSet, Close, Marks, rests_beside, end_marked};

use chains::Stand;
use position::{bits, layout};

// A place that is none.
pub const NONE: usize = 182;

// How far before and after the place of its first stack a chain may end: each of these places has a mark, a bit of twelve bytes.
const REACH: usize = 45;

// The places of a chain before the stack at hand are one number: the last of them, 256 times the one before it and 65,536 times the one
// before that, NONE where it has fewer. The group's own is one of them.
// Whether place `z` is one of them.
fn on_trail(t: usize, z: usize) -> bool
    requires { z < 182 }
    ensures { result ≡ named (trail_of t) z }
{
    if t % 256 == z {
        return true;
    }
    if t / 256 % 256 == z {
        return true;
    }
    t / 65536 == z
}

// The trail of a chain that has only begun, with the group in place `a`.
pub fn own(a: usize) -> usize
    requires { a < 182 }
    ensures { (trail_of result ≡ a ∷ []) × TrailOk result 3 }
{
    a + 256 * NONE + 65536 * NONE
}

// The trail with place `h` before it.
pub fn longer(t: usize, h: usize, left: usize) -> usize
    requires { TrailOk t left × (2 ≤ left) × (h < 182) }
    ensures { (trail_of result ≡ h ∷ trail_of t) × TrailOk result (left - 1) }
{
    h + 256 * (t % 65536)
}

// Whether a stack in place `h` may go into place `z`: it is vacant, and not of the chain yet.
pub fn rests(plot: &[u8; 182], t: usize, h: usize, z: usize) -> bool
    requires { (length plot.now ≡ 182) × (z < 182) }
    ensures { result ≡ rests (stand_in plot.now) (h ∷ trail_of t) z }
{
    let Stand::Free = crate::stand_in(plot, z) else {
        return false;
    };
    if h == z {
        return false;
    }
    !on_trail(t, z)
}

// Whether it may push the stack there.
pub fn yields(plot: &[u8; 182], t: usize, h: usize, z: usize) -> bool
    requires { (length plot.now ≡ 182) × (z < 182) }
    ensures { result ≡ yields (stand_in plot.now) (h ∷ trail_of t) z }
{
    let Stand::Loose = crate::stand_in(plot, z) else {
        return false;
    };
    if h == z {
        return false;
    }
    !on_trail(t, z)
}

// Whether the stack in place `h` has a vacant one beside it.
pub fn has_rest(plot: &[u8; 182], t: usize, h: usize) -> bool
    requires { (length plot.now ≡ 182) × (h < 182) }
    ensures { result ≡ has_rest (next_in plot.now) (stand_in plot.now) (h ∷ trail_of t) h }
{
    for d in 0..6 {
        let Some(z) = crate::next_in(plot, h, d) else {
            continue;
        };
        if rests(plot, t, h, z) {
            return true;
        }
    }
    false
}

// The bit of mark `j` of a byte: from the third on those of the directions.
fn bit(j: usize) -> usize
    requires { j < 8 }
    ensures { (result ≡ bit_of j) × (1 ≤ result) × (result ≤ 128) }
{
    if j < 2 {
        return j + 1;
    }
    crate::side_bit(j - 2)
}

// Whether mark `k` is set.
fn is_marked(ends: &[u8; 12], k: usize) -> bool
    requires { k < 96 }
    ensures { result ≡ mark_in ends.now k }
{
    bits::has(bit(k % 8), layout::wide(ends[k / 8]))
}

// Sets mark `k`.
fn mark(ends: &mut [u8; 12], k: usize)
    requires { (length ends.old ≡ 12) × (k < 96) }
    ensures { MarkSet k ends.old ends.new }
{
    if is_marked(ends, k) {
        return;
    }
    let j = k / 8;
    ends[j] = (layout::wide(ends[j]) + bit(k % 8)) as u8;
}

// Marks the places beside place `h` into which its stack may go.
fn mark_rests(plot: &[u8; 182], ends: &mut [u8; 12], x: usize, t: usize, h: usize)
    requires { (length plot.now ≡ 182) × (length ends.old ≡ 12) × (x < 182) × Close x h 2 }
    ensures { Marks x (rests_beside (next_in plot.now) (stand_in plot.now) (h ∷ trail_of t) h) ends.old ends.new }
{
    for d in 0..6 {
        let Some(z) = crate::next_in(plot, h, d) else {
            continue;
        };
        if rests(plot, t, h, z) {
            mark(ends, REACH + z - x);
        }
    }
}

// Whether a chain from the stack in place `h` on may end anywhere, where `left` stacks may still be pushed, two or three. The last stack is
// only asked for a vacant place, so the recursion has two turns at most.
pub fn can_end(plot: &[u8; 182], t: usize, left: usize, h: usize) -> bool
    requires { (length plot.now ≡ 182) × (2 ≤ left) × TrailOk t left × (h < 182) }
    ensures { result ≡ any (ends_in (next_in plot.now) (stand_in plot.now) (trail_of t) left h) 182 }
{
    if has_rest(plot, t, h) {
        return true;
    }
    let used = longer(t, h, left);
    for d in 0..6 {
        let Some(z) = crate::next_in(plot, h, d) else {
            continue;
        };
        if !yields(plot, t, h, z) {
            continue;
        }
        if left < 3 {
            if has_rest(plot, used, z) {
                return true;
            }
            continue;
        }
        if can_end(plot, used, left - 1, z) {
            return true;
        }
    }
    false
}

// Marks the places in which a chain may end whose last stack is in place `h`.
fn mark_last(plot: &[u8; 182], ends: &mut [u8; 12], x: usize, t: usize, h: usize)
    requires { (length plot.now ≡ 182) × (length ends.old ≡ 12) × (x < 182) × Close x h 2 }
    ensures { Marks x (ends_in (next_in plot.now) (stand_in plot.now) (trail_of t) 1 h) ends.old ends.new }
{
    if has_rest(plot, t, h) {
        mark_rests(plot, ends, x, t, h);
    }
}

// Marks the places in which a chain from the stack in place `h` on may end, where `left` stacks may still be pushed, two or three. Each turn
// uses a place more, and so those not used become fewer: there are two turns at most.
pub fn gather(plot: &[u8; 182], ends: &mut [u8; 12], x: usize, t: usize, left: usize, h: usize)
    requires { (length plot.now ≡ 182) × (length ends.old ≡ 12) × (x < 182) × (2 ≤ left) × TrailOk t left × Close x h (3 - left) }
    ensures { Marks x (ends_in (next_in plot.now) (stand_in plot.now) (trail_of t) left h) ends.old ends.new }
{
    if has_rest(plot, t, h) {
        mark_rests(plot, ends, x, t, h);
        return;
    }
    let used = longer(t, h, left);
    for d in 0..6 {
        let Some(z) = crate::next_in(plot, h, d) else {
            continue;
        };
        if !yields(plot, t, h, z) {
            continue;
        }
        if left < 3 {
            mark_last(plot, ends, x, used, z);
            continue;
        }
        gather(plot, ends, x, used, left - 1, z);
    }
}

// Whether a chain from place `x` on ends in place `y`, by the marks that `gather` has left.
pub fn ends_in(ends: &[u8; 12], x: usize, y: usize) -> bool
    requires { (length ends.now ≡ 12) × (x < 182) × (y < 182) }
    ensures { result ≡ end_marked ends.now x y }
{
    if y + REACH < x {
        return false;
    }
    if x + REACH < y {
        return false;
    }
    is_marked(ends, REACH + y - x)
}
