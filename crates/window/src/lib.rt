// The search for a legal route, over a window of the hexes round its start that was painted before.
#![tactic(auto)]

ghost use Rattle.std.specs.Prelude.{◌≡◌, ◌+◌, ◌-◌, ◌<◌, ◌≤◌, eqb};
ghost use Rattle.grid.specs.Walk.{distance_of};
ghost use Rattle.position.specs.Layout.{width};
ghost use Rattle.position.specs.Board.{board, ground};
ghost use Rattle.position.specs.Ground.{next};
ghost use Rattle.position.specs.Laid.{Laid};
ghost use Rattle.grid.specs.Region.{Inside};
ghost use Rattle.routes.specs.Bears.{refuge};
ghost use Rattle.routes.specs.Legal.{enters};
ghost use Rattle.routes.specs.Search.{step_of, first_route, found};
ghost use Rattle.routes.specs.Window.{free, Window};

pub mod sent;

use grid::region::Region;
use grid::{near, region};
use position::{View, bits, layout};

// Whether a hex with the marks `m` is vacant and outside Enemy zones. Friends lift no zone.
#[tactic(auto, unfolding(routes::specs::Window::free))]
pub fn free(m: usize) -> bool
    ensures { result ≡ free m }
{
    if bits::has(paint::HELD, m) {
        return false;
    }
    !bits::has(paint::ZONE, m)
}

// Whether hex `x` is at distance i + 1 from the start.
#[tactic(auto, using(position::proofs::Sides::on_view, routes::proofs::Steps::far_view))]
pub fn as_far(p: &[u8], v: View, start: usize, i: usize, x: usize) -> bool
    requires { Laid p.now v × (start < v.hexes) × (x < v.hexes) × (i < 3) }
    ensures { result ≡ eqb (distance_of (width p.now) start x) (i + 1) }
{
    grid::distance(v.width, v.height, start, x) == i + 1
}

// The hexes round hex `start`, where a group of force `f` begins its retreat: a position, and the marks of a region of its map.
#[derive(Clone, Copy)]
pub struct Painted<'a> {
    pub p: &'a [u8],
    pub v: View,
    pub at: Region,
    pub marks: &'a [u8],
    pub f: usize,
    pub start: usize,
    pub ghost laid: { Laid p.now v },
    pub ghost window: { Window p.now v f start at marks.now },
    pub ghost starts: { start < v.hexes },
}

impl Painted<'_> {
    // Whether the group may enter hex `x` of the region.
    #[tactic(auto, using(routes::proofs::Windows::refuge_free, routes::proofs::Windows::refuge_barred, routes::proofs::Windows::window_marked))]
    fn refuge(&self, x: usize) -> bool
        requires { (x < self.now.v.hexes) × Inside self.now.v.width self.now.v.height self.now.at x }
        ensures { result ≡ refuge (board self.now.p.now) self.now.f x }
    {
        if ground::standable(self.p, self.v, x) {
            let s = near::spot(self.v.width, self.v.height, x);
            let i = region::place(self.v.width, self.v.height, self.at, s);
            return free(layout::wide(self.marks[i]));
        }
        false
    }

    // Whether a run may enter hex `x` after `i` steps.
    #[tactic(auto, using(position::proofs::Sides::on_view, routes::proofs::Steps::far_view), unfolding(routes::specs::Legal::enters))]
    pub fn enters(&self, i: usize, x: usize) -> bool
        requires { (x < self.now.v.hexes) × (i < 3) }
        ensures { result ≡ enters (board self.now.p.now) self.now.f self.now.start i x }
    {
        if as_far(self.p, self.v, self.start, i, x) {
            return self.refuge(x);
        }
        false
    }

    // The hex that a run goes on to from hex `a` in direction `d` after `i` steps.
    #[tactic(auto, unfolding(routes::specs::Search::step_of, routes::specs::Search::entered))]
    fn step(&self, i: usize, a: usize, d: usize) -> Option<usize>
        requires { (i < 3) × (d < 6) }
        ensures { result ≡ step_of (board self.now.p.now) self.now.f self.now.start i a d }
    {
        let x = ground::next(self.p, self.v, a, d)?;
        if self.enters(i, x) {
            return Some(x);
        }
        None
    }

    // The first legal route of n hexes, NOWHERE where it has no more, directions tried clockwise: three nested loops left by a label.
    fn search(&self, n: usize) -> Option<(usize, usize, usize)>
        requires { (1 ≤ n) × (n ≤ 3) }
        ensures { result ≡ first_route (board self.now.p.now) self.now.f self.now.start n }
    {
        let mut found = None;
        'search: for d1 in 0..6 {
            let Some(a) = self.step(0, self.start, d1) else {
                continue;
            };
            if n == 1 {
                found = Some((a, layout::NOWHERE, layout::NOWHERE));
                break 'search;
            }
            for d2 in 0..6 {
                let Some(b) = self.step(1, a, d2) else {
                    continue;
                };
                if n == 2 {
                    found = Some((a, b, layout::NOWHERE));
                    break 'search;
                }
                for d3 in 0..6 {
                    if let Some(c) = self.step(2, b, d3) {
                        found = Some((a, b, c));
                        break 'search;
                    }
                }
            }
        }
        found
    }

    // Whether it finds one.
    pub fn finds(&self, n: usize) -> bool
        requires { (1 ≤ n) × (n ≤ 3) }
        ensures { result ≡ found (first_route (board self.now.p.now) self.now.f self.now.start n) }
    {
        self.search(n).is_some()
    }
}
