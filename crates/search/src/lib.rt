// The search for a series of pushes: step by step over the places further off, with every place in which the step's chain may end.
#![tactic(auto)]

ghost use Rattle.std.specs.Prelude.{◌≡◌, ◌+◌, ◌<◌, ◌≤◌, length};
ghost use Rattle.plot.specs.Plot.{shifted};
ghost use Rattle.plot.specs.Ends.{Blank};
ghost use Rattle.plot.specs.Search.{serves_in, over_in, shoves_in};

use chains::Stand;
use plot::chain;

// Whether the group goes from place `a` over place `x` as its last step.
fn last_over(plot: &[u8; 182], home: usize, i: usize, a: usize, x: usize) -> bool
    requires { (length plot.now ≡ 182) × (home < 182) × (a < 182) × (x < 182) × (i ≤ 2) }
    ensures { result ≡ over_in home plot.now 0 i a x }
{
    if grid::distance(plot::WIDE, plot::HIGH, home, x) != i + 1 {
        return false;
    }
    match plot::stand_in(plot, x) {
        Stand::Shut => false,
        Stand::Free => true,
        Stand::Loose => chain::can_end(plot, chain::own(a), 3, x),
    }
}

// Whether it has a last step from place `a`: then no chain's end matters.
fn last(plot: &[u8; 182], home: usize, i: usize, a: usize) -> bool
    requires { (length plot.now ≡ 182) × (home < 182) × (a < 182) × (i ≤ 2) }
    ensures { result ≡ serves_in home plot.now 1 i a }
{
    for d in 0..6 {
        let Some(x) = plot::next_in(plot, a, d) else {
            continue;
        };
        if last_over(plot, home, i, a, x) {
            return true;
        }
    }
    false
}

// Whether `k` more steps go on from place `a` after `i` steps; the recursion is for more than one.
#[cycle(go_on_over_serves_shoves_with_end_with_ends)]
fn go_on(plot: &mut [u8; 182], home: usize, k: usize, i: usize, a: usize) -> bool
    requires { (length plot.old ≡ 182) × (home < 182) × (a < 182) × (k + i ≤ 3) }
    ensures { (result ≡ serves_in home plot.old k i a) × (plot.new ≡ plot.old) }
{
    if k == 0 {
        return true;
    }
    if k == 1 {
        return last(plot, home, i, a);
    }
    serves(plot, home, k, i, a)
}

// The chain from place `x` to place `y` is done and `k` more steps are looked for; then the plot is as it was.
#[cycle(go_on_over_serves_shoves_with_end_with_ends)]
fn with_end(plot: &mut [u8; 182], home: usize, k: usize, i: usize, x: usize, y: usize) -> bool
    requires { (length plot.old ≡ 182) × (home < 182) × (x < 182) × (y < 182) × (k + i ≤ 2) }
    ensures { (result ≡ serves_in home (shifted plot.old x y) k (i + 1) x) × (plot.new ≡ plot.old) }
{
    let from = plot[x];
    let to = plot[y];
    plot::shift(plot, x, y);
    let found = go_on(plot, home, k, i + 1, x);
    plot[y] = to;
    plot[x] = from;
    found
}

// The same with each place in which a chain from place `x`, entered by the group from place `a`, may end.
#[cycle(go_on_over_serves_shoves_with_end_with_ends)]
fn with_ends(
    plot: &mut [u8; 182],
    ends: &mut [u8; 12],
    home: usize,
    k: usize,
    i: usize,
    a: usize,
    x: usize,
) -> bool
    requires { (length plot.old ≡ 182) × Blank ends.old × (home < 182) × (a < 182) × (x < 182) × (k + i ≤ 2) }
    ensures { (result ≡ shoves_in home plot.old k i a x) × (plot.new ≡ plot.old) }
{
    let own = chain::own(a);
    chain::gather(plot, ends, x, own, 3, x);
    for y in 0..182 {
        if !chain::ends_in(ends, x, y) {
            continue;
        }
        if with_end(plot, home, k, i, x, y) {
            return true;
        }
    }
    false
}

// Whether the group, which goes from place `a` into place `x` and pushes the stack there, can be brought `k` steps further.
#[cycle(go_on_over_serves_shoves_with_end_with_ends)]
fn shoves(plot: &mut [u8; 182], home: usize, k: usize, i: usize, a: usize, x: usize) -> bool
    requires { (length plot.old ≡ 182) × (home < 182) × (a < 182) × (x < 182) × (k + i ≤ 2) }
    ensures { (result ≡ shoves_in home plot.old k i a x) × (plot.new ≡ plot.old) }
{
    let mut ends = [0u8; 12];
    with_ends(plot, &mut ends, home, k, i, a, x)
}

// Whether the group goes from place `a` over place `x` and `k` steps further.
#[cycle(go_on_over_serves_shoves_with_end_with_ends)]
fn over(plot: &mut [u8; 182], home: usize, k: usize, i: usize, a: usize, x: usize) -> bool
    requires { (length plot.old ≡ 182) × (home < 182) × (a < 182) × (x < 182) × (k + i ≤ 2) }
    ensures { (result ≡ over_in home plot.old k i a x) × (plot.new ≡ plot.old) }
{
    if grid::distance(plot::WIDE, plot::HIGH, home, x) != i + 1 {
        return false;
    }
    match plot::stand_in(plot, x) {
        Stand::Shut => false,
        Stand::Free => go_on(plot, home, k, i + 1, x),
        Stand::Loose => shoves(plot, home, k, i, a, x),
    }
}

// Whether a series of `k` more steps goes on from place `a` after `i` steps of a retreat that started from the place `home`. There are two
// or three, and one fewer in each turn of the recursion, so it has two turns at most.
#[cycle(go_on_over_serves_shoves_with_end_with_ends)]
fn serves(plot: &mut [u8; 182], home: usize, k: usize, i: usize, a: usize) -> bool
    requires { (length plot.old ≡ 182) × (home < 182) × (a < 182) × (k + i ≤ 3) × (2 ≤ k) }
    ensures { (result ≡ serves_in home plot.old k i a) × (plot.new ≡ plot.old) }
{
    for d in 0..6 {
        let Some(x) = plot::next_in(plot, a, d) else {
            continue;
        };
        if over(plot, home, k - 1, i, a, x) {
            return true;
        }
    }
    false
}

// Whether a series of `k` steps begins at the place `home`, from which the group starts. The search is entered here and not by `go_on`, so
// that the compiled recursion is that of `serves`, in which the last step has no turn.
pub fn begins(plot: &mut [u8; 182], home: usize, k: usize) -> bool
    requires { (length plot.old ≡ 182) × (home < 182) × (k ≤ 3) }
    ensures { (result ≡ serves_in home plot.old k 0 home) × (plot.new ≡ plot.old) }
{
    if k == 0 {
        return true;
    }
    if k == 1 {
        return last(plot, home, 0, home);
    }
    serves(plot, home, k, 0, home)
}
