// The desk: the clock, the players if it names them, and an open battle.
ghost use Rattle.position.specs.Laid.{Laid};

use page::Page;
use position::{View, layout, read, stage};

fn clock(page: &mut Page, p: &[u8], v: View)
    requires { Laid p.now v }
{
    page.word("turn ", read::turn(p, v));
    page.word(" of ", read::last_turn(p, v));
    page.text("\nforce ");
    page.nth(&["SAU", "ESC", "PAL", "US"], read::phasing(p, v));
    page.text("\nphase ");
    page.nth(&["movement", "combat", "mechanised"], read::phase(p, v));
    page.line();
}

// The player of each force, if the desk names them.
fn players(page: &mut Page, p: &[u8], v: View)
    requires { Laid p.now v }
{
    if v.players == 0 {
        return;
    }
    page.text("players");
    for f in 0..layout::FORCES {
        page.word(" ", forces::player(p, v, f));
    }
    page.line();
}

// The stage of an open battle, with the hexes or the strength that are owed.
fn battle(page: &mut Page, p: &[u8], v: View)
    requires { Laid p.now v }
{
    match read::stage(p, v) {
        stage::RETREATS => page.word("stage retreats ", read::owed(p, v)),
        stage::LOSSES => page.word("stage losses ", read::need(p, v)),
        stage::ADVANCES => page.text("stage advances"),
        _ => return,
    }
    page.line();
}

pub fn lines(page: &mut Page, p: &[u8], v: View)
    requires { Laid p.now v }
{
    clock(page, p, v);
    players(page, p, v);
    battle(page, p, v);
    story::table::routes(page, p, v);
}
