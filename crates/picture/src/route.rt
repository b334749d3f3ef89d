// The routes that are written on the desk: which hexes they lead over.
ghost use Rattle.position.specs.Laid.{Laid};

use position::{View, layout, read};

// Whether hex `h` is one of those of route `r`.
fn leads_over(p: &[u8], v: View, r: usize, h: usize) -> bool
    requires { Laid p.now v }
{
    (0..layout::ROUTE_HEXES).any(|j| read::route(p, v, r, j) == h)
}

// Whether one of the routes leads over hex `h`.
pub fn any_over(p: &[u8], v: View, h: usize) -> bool
    requires { Laid p.now v }
{
    (0..layout::ROUTE_COUNT).any(|r| leads_over(p, v, r, h))
}
