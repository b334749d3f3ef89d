// The map as text. Odd columns lie half a hex lower: each row of hexes takes two lines, its even columns and then its odd ones.
ghost use Rattle.std.specs.Prelude.{◌<◌};
ghost use Rattle.position.specs.Laid.{Laid};

use crate::tiles;
use page::Page;
use position::{View, kind};

// Half the room of a hex on its line.
const HALF: usize = 7;

// The most hexes that a map has.
const ROOM: usize = 4096;

// A map that is drawn: its position, and a byte for each hex, 1 where it is supplied.
#[derive(Clone, Copy)]
struct Sheet<'a> {
    p: &'a [u8],
    v: View,
    supplied: &'a [u8],
    ghost laid: { Laid p.now v },
}

impl Sheet<'_> {
    // The columns of a row that are even (0) or odd (1).
    fn line(&self, page: &mut Page, start: usize, odd: usize)
        requires { start < 4096 }
    {
        for c in 0..self.v.width {
            if c % 2 == odd {
                let supplied = matches!(self.supplied.get(start + c), Some(1));
                tiles::draw(page, self.p, self.v, start + c, supplied);
            }
        }
        page.trimmed_line();
    }

    // A row of hexes.
    fn row(&self, page: &mut Page, start: usize)
        requires { start < 4096 }
    {
        self.line(page, start, 0);
        page.blanks(HALF);
        self.line(page, start, 1);
    }

    fn rows(&self, page: &mut Page) {
        for r in 0..self.v.height {
            self.row(page, r * self.v.width);
        }
    }
}

// The map, on which the hexes that are supplied for the nationality are marked. For a number that is none no hex is.
pub fn map(page: &mut Page, p: &[u8], v: View, nationality: Option<usize>)
    requires { Laid p.now v }
{
    let mut supplied = [0; ROOM];
    if let Some(n) = nationality.filter(|n| *n <= kind::CANADA) {
        supply::fill(p, v, n, &mut supplied[..v.hexes]);
    }
    let sheet = Sheet {
        p,
        v,
        supplied: &supplied,
    };
    sheet.rows(page);
}
