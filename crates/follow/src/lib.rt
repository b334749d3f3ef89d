// The test of an order: its route step by step, each with the pushes that its chain takes.
#![tactic(auto)]

ghost use Rattle.std.specs.Prelude.{◌≡◌, ◌<◌, ◌≤◌, length};
ghost use Rattle.grid.specs.Region.{RegionOk, place_in};
ghost use Rattle.chains.specs.Chain.{leads};
ghost use Rattle.plot.specs.Plot.{next_in};
ghost use Rattle.plot.specs.Trail.{trail_of, TrailOk};
ghost use Rattle.plot.specs.Follow.{follows_in, TookIn, PushedOut, Stepped};

use chains::Stand;
use grid::region;
use grid::region::Region;
use plot::chain;

// Whether place `z` is next to place `h`.
fn leads(plot: &[u8; 182], h: usize, z: usize) -> bool
    requires { (length plot.now ≡ 182) × (h < 182) }
    ensures { result ≡ leads (next_in plot.now) h z }
{
    (0..6).any(|d| plot::next_in(plot, h, d) == Some(z))
}

// The chain from the stack in place `h` on, by the pushes from number `k` on: up to its last place, and the number of the first push that it
// leaves. `left` stacks may still be pushed, three at most, and one fewer at
// each turn.
fn take(
    plot: &[u8; 182],
    w: usize,
    height: usize,
    at: Region,
    t: usize,
    left: usize,
    h: usize,
    pushes: &[u16],
    k: usize,
) -> Option<(usize, usize)>
    requires { (length plot.now ≡ 182) × RegionOk at × TrailOk t left × (1 ≤ left) × (h < 182) × (k ≤ length pushes.now) }
    ensures { TookIn (place_in w height at) plot.now (trail_of t) left h k pushes.now result }
{
    if pushes.len() <= k {
        return None;
    }
    let z = region::place_in(w, height, at, pushes[k] as usize);
    if !leads(plot, h, z) {
        return None;
    }
    if chain::rests(plot, t, h, z) {
        return Some((z, k + 1));
    }
    if left < 2 {
        return None;
    }
    if chain::has_rest(plot, t, h) {
        return None;
    }
    if !chain::yields(plot, t, h, z) {
        return None;
    }
    take(
        plot,
        w,
        height,
        at,
        chain::longer(t, h, left),
        left - 1,
        z,
        pushes,
        k + 1,
    )
}

// The group pushes the stack in place `x` out of its road; the plot is then as the chain leaves it.
fn push_out(
    plot: &mut [u8; 182],
    w: usize,
    height: usize,
    at: Region,
    a: usize,
    x: usize,
    pushes: &[u16],
    k: usize,
) -> Option<(usize, usize)>
    requires { (length plot.old ≡ 182) × RegionOk at × (a < 182) × (x < 182) × (k ≤ length pushes.now) }
    ensures { PushedOut (place_in w height at) plot.old plot.new a x k pushes.now result }
{
    let own = chain::own(a);
    let (y, m) = take(plot, w, height, at, own, 3, x, pushes, k)?;
    plot::shift(plot, x, y);
    Some((y, m))
}

// The group goes from place `a` into place `x` after `i` steps.
fn enter(
    plot: &mut [u8; 182],
    w: usize,
    height: usize,
    at: Region,
    home: usize,
    i: usize,
    a: usize,
    x: usize,
    pushes: &[u16],
    k: usize,
) -> Option<(usize, usize)>
    requires { (length plot.old ≡ 182) × RegionOk at × (home < 182) × (a < 182) × (k ≤ length pushes.now) }
    ensures { Stepped (place_in w height at) home plot.old plot.new i a x k pushes.now result }
{
    if !leads(plot, a, x) {
        return None;
    }
    let far = grid::distance(plot::WIDE, plot::HIGH, home, x);
    if far == 0 {
        return None;
    }
    if far - 1 != i {
        return None;
    }
    match plot::stand_in(plot, x) {
        Stand::Shut => None,
        Stand::Free => Some((x, k)),
        Stand::Loose => push_out(plot, w, height, at, a, x, pushes, k),
    }
}

// Whether route and pushes are legal steps from the start on, whatever the route's length.
pub fn follows(
    plot: &mut [u8; 182],
    w: usize,
    height: usize,
    at: Region,
    home: usize,
    route: &[u16],
    pushes: &[u16],
) -> bool
    requires { (length plot.old ≡ 182) × RegionOk at × (home < 182) }
    ensures { result ≡ follows_in (place_in w height at) home plot.old 0 home route.now 0 pushes.now }
{
    let mut a = home;
    let mut k = 0;
    for (i, &hex) in route.iter().enumerate() {
        let x = region::place_in(w, height, at, hex as usize);
        let Some((_, m)) = enter(plot, w, height, at, home, i, a, x, pushes, k) else {
            return false;
        };
        a = x;
        k = m;
    }
    k == pushes.len()
}
