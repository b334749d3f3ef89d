// Whether pushes serve a group that has no vacant route, and whether those that were sent do.
#![tactic(auto)]

mod draw;
mod stands;

ghost use Rattle.std.specs.Prelude.{◌≡◌, ◌<◌, ◌≤◌, length};
ghost use Rattle.grid.specs.Region.{RegionOk, place_in};
ghost use Rattle.position.specs.Board.{board};
ghost use Rattle.position.specs.Laid.{Laid};
ghost use Rattle.pushes.specs.Pushes.{served, served_in};

use grid::region::Region;
use grid::{near, region};
use position::View;

// No hex that a series of pushes may touch lies further from the start: three steps, and three pushes beyond.
const FAR: usize = 6;

// No series of pushes exists; one does, and what was sent is none; or it is one.
#[derive(Clone, Copy)]
pub enum Served {
    None,
    Wrong,
    Right,
}

// Asks the plot that is drawn for the region `at`, on which the start has the place `home`.
#[tactic(auto, using(crate::proofs::Judging::wrong_length))]
fn judge_by(
    plot: &mut [u8; 182],
    v: View,
    at: Region,
    home: usize,
    n: usize,
    route: &[u16],
    pushes: &[u16],
) -> Served
    requires { (length plot.old ≡ 182) × RegionOk at × (home < 182) × (n ≤ 3) }
    ensures { result ≡ served_in (place_in v.width v.height at) home plot.old n route.now pushes.now }
{
    if !search::begins(plot, home, n) {
        return Served::None;
    }
    if route.len() != n {
        return Served::Wrong;
    }
    if follow::follows(plot, v.width, v.height, at, home, route, pushes) {
        return Served::Right;
    }
    Served::Wrong
}

// Whether pushes serve a group of force `f` in hex `start` that owes `n` hexes, and whether these do.
pub fn judge(
    p: &[u8],
    v: View,
    f: usize,
    start: usize,
    n: usize,
    route: &[u16],
    pushes: &[u16],
) -> Served
    requires { Laid p.now v × (start < v.hexes) × (n ≤ 3) }
    ensures { result ≡ served (board p.now) f start n route.now pushes.now }
{
    let mut plot = [0u8; 182];
    let s = near::spot(v.width, v.height, start);
    let at = region::round(v.width, v.height, s, FAR);
    draw::draw(p, v, at, f, start, &mut plot);
    judge_by(
        &mut plot,
        v,
        at,
        region::place(v.width, v.height, at, s),
        n,
        route,
        pushes,
    )
}
