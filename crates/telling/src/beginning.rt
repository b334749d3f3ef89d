// The end of a scenario: the position that it comes to, or why there is none.
use draft::{Draft, Room};
use page::Page;

// Why nothing is begun: a line could not be read, a part is missing, the line `begin` among them, or the position is not accepted.
#[derive(Clone, Copy)]
pub enum Lack {
    Line(usize),
    Size,
    Odds,
    Begin,
    Accepted,
}

// The draft packed, if it is accepted.
pub fn begin<'a>(draft: &Draft, room: &'a mut Room) -> Result<&'a [u8], Lack> {
    if let Some(line) = draft.unread {
        return Err(Lack::Line(line));
    }
    if draft.size.is_none() {
        return Err(Lack::Size);
    }
    if draft.columns == 0 {
        return Err(Lack::Odds);
    }
    let position = draft.pack(room);
    let Some(_) = checking::check(position) else {
        return Err(Lack::Accepted);
    };
    Ok(position)
}

impl Lack {
    // Why nothing is begun, in words.
    pub fn explain(&self, page: &mut Page) {
        match self {
            Lack::Line(line) => {
                page.word("line ", *line);
                page.text(" could not be read");
            }
            Lack::Size => page.text("no size was said"),
            Lack::Odds => page.text("no odds were said"),
            Lack::Begin => page.text("begin is missing"),
            Lack::Accepted => page.text("the position is not accepted"),
        }
    }
}
