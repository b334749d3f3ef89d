// Where a hex lies in the picture, and a sign drawn there. Columns stand 90 apart and rows 104; odd columns lie half a hex lower.
ghost use Rattle.std.specs.Prelude.{◌<◌};

use page::Page;

#[derive(Clone, Copy)]
pub struct Place {
    pub x: usize,
    pub y: usize,
}

impl Place {
    pub fn of(column: usize, row: usize) -> Place
        requires { (column < 64) × (row < 64) }
    {
        Place {
            x: 90 * column,
            y: 104 * row + 52 * (column % 2),
        }
    }

    // The end of a sign that is used there.
    fn end_sign(self, page: &mut Page) {
        page.word("' x='", self.x);
        page.word("' y='", self.y);
        page.text("'/>");
    }

    // A sign by its name.
    pub fn sign(self, page: &mut Page, name: &str) {
        page.text("<use href='#");
        page.text(name);
        self.end_sign(page);
    }

    // A sign, if it is there.
    pub fn sign_if(self, page: &mut Page, there: bool, name: &str) {
        if there {
            self.sign(page, name);
        }
    }

    // A sign whose name has a number.
    pub fn numbered(self, page: &mut Page, name: &str, n: usize) {
        page.text("<use href='#");
        page.word(name, n);
        self.end_sign(page);
    }

    // The beginning of a text.
    pub fn begin_text(self, page: &mut Page) {
        page.word("<text x='", self.x);
        page.word("' y='", self.y);
        page.text("'>");
    }
}

// The end of a text.
pub fn end_text(page: &mut Page) {
    page.text("</text>\n");
}
