// The desk in words: turn, force, phase and stage, the players, the routes that are written, and the odds of a column.
ghost use Rattle.position.specs.Board.{board};
ghost use Rattle.position.specs.Laid.{Laid};
ghost use Rattle.story.specs.Look.{DeskOf, OddsOf};

use page::Page;
use position::{View, layout, read, stage};
use wording::names;

// What is said of the desk.
#[derive(Clone, Copy)]
pub struct Desk {
    pub turn: usize,
    pub last: usize,
    pub force: usize,
    pub phase: usize,
    pub stage: usize,
    pub owed: usize,
    pub need: usize,
}

impl Desk {
    pub fn of(p: &[u8], v: View) -> Desk
        requires { Laid p.now v }
        ensures { DeskOf (board p.now) result }
    {
        Desk {
            turn: read::turn(p, v),
            last: read::last_turn(p, v),
            force: read::phasing(p, v),
            phase: read::phase(p, v),
            stage: read::stage(p, v),
            owed: read::owed(p, v),
            need: read::need(p, v),
        }
    }

    // Turn, force and phase.
    pub fn clock(self, page: &mut Page) {
        page.word("turn ", self.turn);
        page.word(" of ", self.last);
        page.text(", ");
        names::force(page, self.force);
        page.text(", ");
        names::phase(page, self.phase);
    }

    fn stage(self, page: &mut Page) {
        match self.stage {
            stage::QUIET => page.text(", no battle open"),
            stage::RETREATS => page.word(", retreats owed, steps: ", self.owed),
            stage::LOSSES => page.word(", losses owed: ", self.need),
            stage::ADVANCES => page.text(", advances open"),
            _ => page.text(", ?"),
        }
    }
}

// The odds of a column: a to d.
#[derive(Clone, Copy)]
pub struct Odds {
    pub a: usize,
    pub d: usize,
}

impl Odds {
    // The odds of column `c`, counted from 0.
    pub fn of(p: &[u8], v: View, c: usize) -> Odds
        requires { Laid p.now v }
        ensures { OddsOf (board p.now) c result }
    {
        Odds {
            a: read::attack_odds(p, v, c),
            d: read::defence_odds(p, v, c),
        }
    }

    // The odds, and the name of a result.
    pub fn battle(self, page: &mut Page, code: usize) {
        page.number(self.a);
        page.word(":", self.d);
        page.text(", ");
        names::result(page, code);
    }
}

// Hexes of a list, a blank before each.
pub fn hexes(page: &mut Page, list: &[u16]) {
    for h in list {
        place(page, usize::from(*h));
    }
}

// A place of a route, if it is filled.
fn place(page: &mut Page, h: usize) {
    if h != layout::NOWHERE {
        page.word(" ", h);
    }
}

// Route `r`, if it is filled.
fn route(page: &mut Page, p: &[u8], v: View, r: usize)
    requires { Laid p.now v }
{
    if read::route(p, v, r, 0) == layout::NOWHERE {
        return;
    }
    page.text("route");
    for j in 0..layout::ROUTE_HEXES {
        place(page, read::route(p, v, r, j));
    }
    page.line();
}

// The routes that are written, a line each.
pub fn routes(page: &mut Page, p: &[u8], v: View)
    requires { Laid p.now v }
{
    for r in 0..layout::ROUTE_COUNT {
        route(page, p, v, r);
    }
}

// The player of each force, if the desk names them.
pub fn players(page: &mut Page, p: &[u8], v: View)
    requires { Laid p.now v }
{
    if v.players == 0 {
        return;
    }
    for f in 0..layout::FORCES {
        page.text(if f == 0 { "players: " } else { ", " });
        names::force(page, f);
        page.word(" ", forces::player(p, v, f));
    }
    page.line();
}

// Turn, force, phase and stage.
pub fn state(page: &mut Page, p: &[u8], v: View)
    requires { Laid p.now v }
{
    let desk = Desk::of(p, v);
    desk.clock(page);
    desk.stage(page);
}

pub fn lines(page: &mut Page, p: &[u8], v: View)
    requires { Laid p.now v }
{
    state(page, p, v);
    page.line();
    players(page, p, v);
    routes(page, p, v);
}
