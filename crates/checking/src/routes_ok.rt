// Whether the routes keep their lines of document 01.
ghost use Rattle.std.specs.Prelude.{ℕ, ◌<◌};
ghost use Rattle.position.specs.Layout.{route_count, route_hexes};
ghost use Rattle.position.specs.Board.{board};
ghost use Rattle.acceptance.specs.Accepted.{PlaceOk, LinkOk, RouteOk, RoutesOk};
ghost use Rattle.position.specs.Laid.{Laid, Says};

use position::{View, layout, read};

// A filled number follows a filled one, over an unblocked side.
fn link_ok(p: &[u8], v: View, r: usize, j: usize) -> bool
    requires { Laid p.now v × (j < route_hexes) }
    ensures { Says result (LinkOk (board p.now) r j) }
{
    let here = read::route(p, v, r, j);
    let after = read::route(p, v, r, j + 1);
    if after == layout::NOWHERE {
        return true;
    }
    if here == layout::NOWHERE {
        return false;
    }
    if !ground::joined(p, v, here, after) {
        return false;
    }
    true
}

fn place_ok(p: &[u8], v: View, r: usize, j: usize) -> bool
    requires { Laid p.now v × (j < route_hexes) }
    ensures { Says result (PlaceOk (board p.now) r j) }
{
    if !link_ok(p, v, r, j) {
        return false;
    }
    let here = read::route(p, v, r, j);
    if here == layout::NOWHERE {
        return true;
    }
    if !ground::standable(p, v, here) {
        return false;
    }
    true
}

fn places_ok(p: &[u8], v: View, r: usize) -> bool
    requires { Laid p.now v }
    ensures { Says result ((j : ℕ) → j < route_hexes → PlaceOk (board p.now) r j) }
{
    (0..layout::ROUTE_HEXES).all(|j| place_ok(p, v, r, j))
}

fn route_ok(p: &[u8], v: View, r: usize) -> bool
    requires { Laid p.now v × (r < route_count) }
    ensures { Says result (RouteOk (board p.now) r) }
{
    if !places_ok(p, v, r) {
        return false;
    }
    if crowd::filled(p, v, r) {
        return true;
    }
    if crowd::filled(p, v, r + 1) {
        return false;
    }
    true
}

pub fn routes_ok(p: &[u8], v: View) -> bool
    requires { Laid p.now v }
    ensures { Says result (RoutesOk (board p.now)) }
{
    (0..layout::ROUTE_COUNT).all(|r| route_ok(p, v, r))
}
