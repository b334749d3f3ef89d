// The map that is drawn, layer over layer: one kind of thing for every hex, row by row. Later layers lie over earlier ones.
ghost use Rattle.std.specs.Prelude.{◌<◌};
ghost use Rattle.position.specs.Laid.{Laid};

use crate::hexes::Ground;
use crate::place::Place;
use page::Page;
use position::View;

#[derive(Clone, Copy)]
pub struct Sheet<'a> {
    pub p: &'a [u8],
    pub v: View,
    pub ghost laid: { Laid p.now v },
}

impl Sheet<'_> {
    // What is drawn of each hex of row `r`.
    fn row<F: Fn(&mut Page, usize, Place)>(self, page: &mut Page, r: usize, draw: &F)
        requires callable { F.IsAlwaysCallable draw.now }
        requires row { r < 64 }
    {
        for c in 0..self.v.width {
            draw(page, r * self.v.width + c, Place::of(c, r));
        }
    }

    // What is drawn of each hex, at its place.
    pub fn layer<F: Fn(&mut Page, usize, Place)>(self, page: &mut Page, draw: F)
        requires { F.IsAlwaysCallable draw }
    {
        for r in 0..self.v.height {
            self.row(page, r, &draw);
        }
        page.line();
    }

    // A layer with something in common, which `opening` says.
    pub fn group<F: Fn(&mut Page, usize, Place)>(self, page: &mut Page, opening: &str, draw: F)
        requires { F.IsAlwaysCallable draw }
    {
        page.text(opening);
        self.layer(page, draw);
        page.text("</g>\n");
    }

    fn ground(self, h: usize) -> Ground {
        Ground::of(self.p, self.v, h)
    }

    // A layer of what is drawn of each hex's ground.
    pub fn grounds<F: Fn(Ground, &mut Page, Place)>(self, page: &mut Page, opening: &str, draw: F)
        requires { F.IsAlwaysCallable draw }
    {
        self.group(page, opening, |page, h, at| {
            draw(self.ground(h), page, at)
        });
    }
}
