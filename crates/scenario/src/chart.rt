// The chart and the columns of the results.
ghost use Rattle.position.specs.Laid.{Laid};

use page::Page;
use position::{View, layout, read};
use wording::names;

// What a terrain costs, or a river side besides, and what it multiplies the defence by.
#[derive(Clone, Copy, PartialEq, Eq)]
struct Effect {
    cost: usize,
    multiple: usize,
}

impl Effect {
    // That of a terrain and of a river side of which nothing is said.
    const PLAIN: Effect = Effect {
        cost: 1,
        multiple: 1,
    };

    const SHALLOW: Effect = Effect {
        cost: 0,
        multiple: 1,
    };

    // That of a row of the chart.
    fn of(p: &[u8], v: View, row: usize) -> Effect
        requires { Laid p.now v }
    {
        Effect {
            cost: read::cost(p, v, row),
            multiple: read::multiple(p, v, row),
        }
    }

    fn defence(self, page: &mut Page) {
        if self.multiple != 1 {
            page.word(" defence ", self.multiple);
        }
    }

    // The line of terrain `t`, unless it is plain. A terrain that costs 0 is prohibited.
    fn terrain(self, page: &mut Page, t: usize) {
        if self == Effect::PLAIN {
            return;
        }
        page.word("terrain ", t);
        match self.cost {
            0 => page.text(" prohibited"),
            1 => {}
            cost => page.word(" cost ", cost),
        }
        self.defence(page);
        page.line();
    }

    // The line of the river or the major river, unless it is plain.
    fn river(self, page: &mut Page, name: &str) {
        if self == Effect::SHALLOW {
            return;
        }
        page.text(name);
        if self.cost != 0 {
            page.word(" cost ", self.cost);
        }
        self.defence(page);
        page.line();
    }
}

// Column `c`, its odds and its results for the faces of the die.
fn column(page: &mut Page, p: &[u8], v: View, c: usize)
    requires { Laid p.now v }
{
    page.word("odds ", read::attack_odds(p, v, c));
    page.word(":", read::defence_odds(p, v, c));
    for die in 1..=layout::DIE_FACES {
        page.put(b' ');
        names::result(page, read::code(p, v, c, die));
    }
    page.line();
}

fn columns(page: &mut Page, p: &[u8], v: View)
    requires { Laid p.now v }
{
    for c in 0..v.columns {
        column(page, p, v, c);
    }
}

pub fn lines(page: &mut Page, p: &[u8], v: View)
    requires { Laid p.now v }
{
    for t in 0..layout::RIVER {
        Effect::of(p, v, t).terrain(page, t);
    }
    Effect::of(p, v, layout::RIVER).river(page, "river");
    Effect::of(p, v, layout::MAJOR_RIVER).river(page, "major");
    columns(page, p, v);
}
