// Prints the neighbours of a few hexes, clockwise from the north with `-` for none, and a few distances.
#![tactic(auto)]

ghost use Rattle.grid.specs.Map.{On};

use page::Page;

// A map's width and height.
#[derive(Clone, Copy)]
struct Map {
    w: usize,
    h: usize,
}

impl Map {
    // As `5 x 5`.
    fn size(self, page: &mut Page) {
        page.number(self.w);
        page.word(" x ", self.h);
    }

    // As `5 x 5: beside 12 lie 7 8 13 17 11 6`.
    fn around(self, page: &mut Page, hex: usize) {
        self.size(page);
        page.word(": beside ", hex);
        page.text(" lie");
        for dir in 0..6 {
            match grid::neighbour(self.w, self.h, hex, dir) {
                Some(i) => page.word(" ", i),
                None => page.text(" -"),
            }
        }
        page.line();
    }

    // As `5 x 5: from 0 to 24 it is 6`.
    fn between(self, page: &mut Page, a: usize, b: usize)
        requires from { On self.w self.h a }
        requires to { On self.w self.h b }
    {
        self.size(page);
        page.word(": from ", a);
        page.word(" to ", b);
        page.word(" it is ", grid::distance(self.w, self.h, a, b));
        page.line();
    }
}

fn main() {
    let page = &mut Page::new();
    let small = Map { w: 5, h: 5 };
    small.around(page, 12);
    small.around(page, 6);
    small.around(page, 25);
    Map { w: 1, h: 1 }.around(page, 0);
    let large = Map { w: 64, h: 64 };
    large.around(page, 4095);
    small.between(page, 12, 12);
    small.between(page, 12, 7);
    small.between(page, 12, 2);
    small.between(page, 0, 24);
    large.between(page, 0, 63);
    large.between(page, 0, 4032);
    large.between(page, 0, 4095);
    large.between(page, 63, 4032);
    page.flush();
}
