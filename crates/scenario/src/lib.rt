// A position written as a scenario: lines that make the same position again. What is plain is not said.
#![tactic(auto)]

mod chart;
mod land;
mod table;
mod units;

ghost use Rattle.position.specs.Laid.{Laid};

use page::Page;
use position::View;

// The lines of a position that is accepted.
fn told(page: &mut Page, p: &[u8], v: View)
    requires { Laid p.now v }
{
    page.text("setup\n# The organiser's file: it has the strengths that are face down.\n");
    chart::lines(page, p, v);
    land::lines(page, p, v);
    units::lines(page, p, v);
    table::lines(page, p, v);
    page.text("begin\n");
}

// The position as the lines of a scenario.
pub fn write(page: &mut Page, p: &[u8]) {
    match checking::check(p) {
        Some(v) => told(page, p, v),
        None => page.text("no scenario: the position is not accepted\n"),
    }
}
