// How a hex is cleared: the stacks of a chain move, the last first.
ghost use Rattle.std.specs.Prelude.{◌≡◌, cond, [], ◌≤◌, drop, length};
ghost use Rattle.position.specs.Board.{board};
ghost use Rattle.position.specs.Change.{makes};
ghost use Rattle.position.specs.Laid.{Laid};
ghost use Rattle.field.specs.Scene.{scene};
ghost use Rattle.field.specs.Zone.{stands_on, vacant};
ghost use Rattle.shoves.specs.Shoves.{shifts, stack_to, clears, out_of, ChainEnds};

use position::{View, read};

// Whether nobody stands on hex `h`.
fn is_vacant(p: &[u8], v: View, h: usize) -> bool
    requires { Laid p.now v }
    ensures { result ≡ vacant (scene (board p.now)) h }
{
    !(0..v.count).any(|u| read::hex(p, v, u) == h)
}

// Unit `u` goes to hex `z` if it stands on hex `h`.
fn move_one(p: &mut [u8], v: View, h: usize, z: usize, u: usize)
    requires { Laid p.old v }
    ensures { p.new ≡ makes p.old (cond (stands_on (scene (board p.old)) h u) (shifts z u) []) }
{
    if read::hex(p, v, u) != h {
        return;
    }
    write::place(p, v, u, z);
}

// The whole stack of hex `h` goes to hex `z`.
fn move_stack(p: &mut [u8], v: View, h: usize, z: usize)
    requires { Laid p.old v }
    ensures { p.new ≡ makes p.old (stack_to (board p.old) h z) }
{
    for u in 0..v.count {
        move_one(p, v, h, z, u);
    }
}

// Out of which hex push `j` takes a stack, where hex `h` is cleared by the pushes from number `k` on.
fn out_of(h: usize, pushes: &[u16], k: usize, j: usize) -> usize
    requires { j ≤ length pushes.now }
    ensures { result ≡ out_of h pushes.now k j }
{
    if j <= k {
        return h;
    }
    pushes[j - 1] as usize
}

// The number of the first push behind the chain that clears hex `h` by the pushes from number `k` on.
fn chain_end(p: &[u8], v: View, h: usize, pushes: &[u16], k: usize) -> usize
    requires { Laid p.now v × (k ≤ length pushes.now) }
    ensures { ChainEnds (board p.now) h pushes.now k result }
{
    (k..pushes.len())
        .find(|e| is_vacant(p, v, out_of(h, pushes, k, *e)))
        .unwrap_or(pushes.len())
}

// Hex `h` is cleared by the pushes from number `k` on; the answer is the number of the first that is left over.
pub fn clear(p: &mut [u8], v: View, h: usize, pushes: &[u16], k: usize) -> usize
    requires { Laid p.old v × (k ≤ length pushes.now) }
    ensures { (result ≤ length pushes.now) × (drop result pushes.now ≡ (clears (board p.old) h (drop k pushes.now)).left) × (p.new ≡ makes p.old (clears (board p.old) h (drop k pushes.now)).done) }
{
    let end = chain_end(p, v, h, pushes, k);
    for j in (k..end).rev() {
        let from = out_of(h, pushes, k, j);
        let to = pushes[j] as usize;
        move_stack(p, v, from, to);
    }
    end
}
