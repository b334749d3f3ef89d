// How many units: in a hex, with a role; and how many routes are filled.
#![tactic(auto)]

ghost use Rattle.std.specs.Prelude.{◌≡◌};
ghost use Rattle.position.specs.Board.{board};
ghost use Rattle.position.specs.Crowd.{crowd, others, holders, filled, routes};
ghost use Rattle.position.specs.Laid.{Laid, Read};

use position::{View, layout, read};

// How many units stand in hex `h`.
pub fn crowd(p: &[u8], v: View, h: usize) -> usize
    requires { Laid p.now v }
    ensures { Read (crowd (board p.now) h) 401 result }
{
    (0..v.count).filter(|u| read::hex(p, v, *u) == h).count()
}

// How many units other than `w` stand in hex `h`.
pub fn others(p: &[u8], v: View, w: usize, h: usize) -> usize
    requires { Laid p.now v }
    ensures { Read (others (board p.now) w h) 401 result }
{
    (0..v.count)
        .filter(|u| read::hex(p, v, *u) == h && *u != w)
        .count()
}

// How many units have the role `r`.
pub fn holders(p: &[u8], v: View, r: usize) -> usize
    requires { Laid p.now v }
    ensures { Read (holders (board p.now) r) 401 result }
{
    (0..v.count).filter(|u| read::role(p, v, *u) == r).count()
}

// Whether route `r` is filled.
#[tactic(auto, unfolding(position::specs::Crowd::filled))]
pub fn filled(p: &[u8], v: View, r: usize) -> bool
    requires { Laid p.now v }
    ensures { result ≡ filled (board p.now) r }
{
    read::route(p, v, r, 0) != layout::NOWHERE
}

// How many routes are filled.
pub fn routes(p: &[u8], v: View) -> usize
    requires { Laid p.now v }
    ensures { Read (routes (board p.now)) 7 result }
{
    (0..layout::ROUTE_COUNT)
        .filter(|r| filled(p, v, *r))
        .count()
}
