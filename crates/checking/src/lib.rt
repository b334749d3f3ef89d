// Whether a position keeps every line of document 01. Every call begins with `check`.
#![tactic(auto)]

ghost use Rattle.position.specs.Board.{board};
ghost use Rattle.position.specs.Laid.{Laid, Says};
ghost use Rattle.acceptance.specs.Accepted.{Lawful};
ghost use Rattle.acceptance.specs.Checked.{CheckedOf};

mod routes_ok;

use position::View;
use setting::{chart_ok, map_ok};

// All that the board shows. The units come last: the compiled check then keeps their table in a frame of its own, which is gone while the
// routes are followed.
fn lawful(p: &[u8], v: View) -> bool
    requires { Laid p.now v }
    ensures { Says result (Lawful (board p.now)) }
{
    if !chart_ok::chart_ok(p, v) {
        return false;
    }
    if !chart_ok::results_ok(p, v) {
        return false;
    }
    if !map_ok::map_ok(p, v) {
        return false;
    }
    if !desk::clock_ok(p, v) {
        return false;
    }
    if !desk::players_ok(p, v) {
        return false;
    }
    if !stages::stage_ok(p, v) {
        return false;
    }
    if !routes_ok::routes_ok(p, v) {
        return false;
    }
    if !counters::units_ok(p, v) {
        return false;
    }
    true
}

// The whole position, or nothing of it.
pub fn check(p: &[u8]) -> Option<View>
    ensures { CheckedOf p.now result }
{
    let v = shape::shape(p)?;
    if !lawful(p, v) {
        return None;
    }
    if !counters::strengths_ok(p, v) {
        return None;
    }
    Some(v)
}
