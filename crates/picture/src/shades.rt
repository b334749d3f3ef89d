// The shades for a nationality: which hexes are supplied, and which lie in Enemy zones.
ghost use Rattle.position.specs.Laid.{Laid};

use crate::sheet::Sheet;
use grid::region;
use page::Page;
use position::{View, kind};

// The most hexes that a map has.
const ROOM: usize = 4096;

// The sign on each hex that is shaded: a hex that is supplied and the mark of a zone are both 1 in its byte.
fn layer(page: &mut Page, p: &[u8], v: View, shade: &[u8], sign: &str)
    requires { Laid p.now v }
{
    Sheet { p, v }.layer(page, |page, h, at| {
        let shaded = shade.get(h).is_some_and(|b| b % 2 == 1);
        at.sign_if(page, shaded, sign)
    });
}

// Both, the one over the other.
pub fn shades(page: &mut Page, p: &[u8], v: View, nationality: usize)
    requires { Laid p.now v }
{
    let mut shade = [0; ROOM];
    supply::fill(p, v, nationality, &mut shade[..v.hexes]);
    layer(page, p, v, &shade, "a");
    let whole = region::whole(v.width, v.height);
    paint::paint(p, v, whole, kind::force(nationality), &mut shade);
    layer(page, p, v, &shade, "z");
}
