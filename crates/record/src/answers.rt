// The answers to calls, a line each. Where lines are echoed, words follow.
use battle::Fought;
use page::Page;
use retreat::Retreated;
use ruling::Refusal;
use wording::Call;

// The page that they are written on, and whether lines are echoed.
#[derive(Drop)]
pub struct Answers {
    pub page: Page,
    pub echo: bool,
}

impl Answers {
    pub fn new() -> Answers {
        Answers {
            page: Page::new(),
            echo: false,
        }
    }

    // The end of an answer, with its words where lines are echoed.
    fn end<F: FnOnce(&mut Page) + Drop>(&mut self, words: F)
        requires { F.IsAlwaysCallable words }
    {
        if self.echo {
            self.page.text("  ");
            words(&mut self.page);
        }
        self.page.line();
    }

    // The line of this number cannot be read.
    pub fn what(&mut self, number: usize) {
        self.page.word("what ", number);
        self.end(|page| page.text("this line cannot be read"));
    }

    // Refused by a number and a place; the rule in words.
    fn refused(&mut self, call: Call, refusal: Refusal) {
        self.page.pair("no ", refusal.number(), refusal.place());
        self.end(|page| wording::reason(page, call, refusal.number(), refusal.place()));
    }

    // Accepted, or refused.
    pub fn plain(&mut self, call: Call, answer: Result<(), Refusal>) {
        match answer {
            Ok(()) => self.page.text("ok\n"),
            Err(refusal) => self.refused(call, refusal),
        }
    }

    // The next phase; the clock in words.
    pub fn ended(&mut self, answer: Result<(), Refusal>, p: &[u8]) {
        match answer {
            Ok(()) => {
                self.page.text("ok");
                self.end(|page| story::clock(page, p));
            }
            Err(refusal) => self.refused(Call::End, refusal),
        }
    }

    // The column and the result code; the column's odds and the result's name.
    pub fn fought(&mut self, answer: Fought, p: &[u8]) {
        match answer {
            Fought::Done(column, code) => {
                self.page.pair("fought ", column, code);
                self.end(|page| story::battle(page, p, column, code));
            }
            Fought::Refused(refusal) => self.refused(Call::Attack, refusal),
        }
    }

    // The end hex, or that the group is destroyed; hex and route of the order, and where friends were pushed to.
    pub fn retreated(&mut self, answer: Retreated, route: &[u16], pushes: &[u16]) {
        match answer {
            Retreated::To(hex) => {
                self.page.word("retreated ", hex);
                self.end(|page| {
                    story::route(page, route);
                    story::pushes(page, pushes);
                });
            }
            Retreated::Destroyed => {
                self.page.text("destroyed");
                self.end(|page| story::route(page, route));
            }
            Retreated::Refused(refusal) => self.refused(Call::Retreat, refusal),
        }
    }
}
