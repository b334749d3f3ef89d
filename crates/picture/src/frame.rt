// The picture's size, what stands before the map, and what stands below it. A margin of 20 is all round.
ghost use Rattle.std.specs.Prelude.{◌≤◌};
ghost use Rattle.position.specs.Laid.{Laid};

use page::Page;
use position::View;
use story::table;
use wording::names;

// The key's least width. It is drawn in a room of 640 by 260, and scaled to its width.
const LEAST: usize = 640;

#[derive(Clone, Copy)]
struct Size {
    wide: usize,
    high: usize,
}

impl Size {
    // Width and height as they stand in a sign.
    fn extent(self, page: &mut Page) {
        page.word(" width='", self.wide);
        page.word("' height='", self.high);
        page.put(b'\'');
    }
}

// How large the picture is, where the key begins, and how large that is.
#[derive(Clone, Copy)]
struct Frame {
    paper: Size,
    below: usize,
    key: Size,
}

impl Frame {
    // The frame of a map of so many columns and rows: as wide as the map or as the least key. The key grows with the picture, but less.
    fn of(columns: usize, rows: usize) -> Frame
        requires { (columns ≤ 64) × (rows ≤ 64) }
    {
        let inner = LEAST.max(90 * columns + 30);
        let below = 104 * rows + 62;
        let wide = inner.min(LEAST + inner / 4);
        let key = Size {
            wide,
            high: wide * 260 / 640,
        };
        let paper = Size {
            wide: inner + 40,
            high: below + key.high + 40,
        };
        Frame { paper, below, key }
    }

    // The first line.
    fn first(self, page: &mut Page) {
        page.text("<svg xmlns='http://www.w3.org/2000/svg'");
        self.paper.extent(page);
        page.pair(" viewBox='-20 -20 ", self.paper.wide, self.paper.high);
        page.text("' font-family='sans-serif' text-anchor='middle'>\n");
    }

    fn paper(self, page: &mut Page) {
        page.text("<rect x='-20' y='-20'");
        self.paper.extent(page);
        page.text(" fill='#fff'/>\n");
    }

    // The last lines: the key is put where it belongs.
    fn end(self, page: &mut Page) {
        page.word("</symbol>\n<use href='#key' y='", self.below);
        page.put(b'\'');
        self.key.extent(page);
        page.text("/>\n</svg>\n");
    }
}

// What stands before the map: a title for those who do not see it, the paper, and the signs.
pub fn head(page: &mut Page, p: &[u8], v: View)
    requires { Laid p.now v }
{
    let frame = Frame::of(v.width, v.height);
    frame.first(page);
    page.text("<title>");
    table::state(page, p, v);
    page.text("</title>\n");
    frame.paper(page);
    signs::define(page);
}

// Turn, force, phase and stage.
fn caption(page: &mut Page, p: &[u8], v: View)
    requires { Laid p.now v }
{
    page.text("<symbol id='key' viewBox='0 0 640 260'>\n");
    page.text("<text x='6' y='22' font-size='15' font-weight='bold' text-anchor='start'>");
    table::state(page, p, v);
    page.text("</text>\n");
}

// Whom the shades are for.
fn shaded(page: &mut Page, nationality: usize) {
    page.text("<text x='6' y='42' font-size='12' text-anchor='start'>shaded for ");
    names::nationality(page, nationality);
    page.text(": + where it is supplied, slanting lines in the zones of its Enemies</text>\n");
}

// Who plays whom, if the desk says so.
fn players(page: &mut Page, p: &[u8], v: View)
    requires { Laid p.now v }
{
    if v.players == 0 {
        return;
    }
    page.text("<text x='6' y='252' font-size='10' text-anchor='start'>");
    table::players(page, p, v);
    page.text("</text>\n");
}

// What stands below the map: the clock and the stage in words, the key, and the players.
pub fn foot(page: &mut Page, p: &[u8], v: View, nationality: Option<usize>)
    requires { Laid p.now v }
{
    caption(page, p, v);
    if let Some(n) = nationality {
        shaded(page, n);
    }
    signs::key(page, nationality.is_some());
    players(page, p, v);
    Frame::of(v.width, v.height).end(page);
}
