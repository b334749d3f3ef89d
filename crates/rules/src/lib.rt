// All calls of the referee in one place. Each takes anything: it checks the position, which no other place of the calls does, and forwards
// to the crate of its rule.
#![tactic(auto)]

ghost use Rattle.std.specs.Prelude.{[]};
ghost use Rattle.ruling.specs.Verdict.{Met};
ghost use Rattle.ruling.specs.Answers.{answer_as};
ghost use Rattle.march.specs.Answers.{moved_as};
ghost use Rattle.battle.specs.Answers.{fought_as};
ghost use Rattle.retreat.specs.Answers.{retreated_as};
ghost use Rattle.rules.specs.Order.{verdict};
ghost use Rattle.rules.specs.Order.Order.{supply, move, end_phase, attack, retreat, losses, advance, close};

use battle::Fought;
use march::Moved;
use retreat::Retreated;
use ruling::Refusal;

// Which hexes are supplied for a nationality: 1 or 0 per hex, into a buffer of exactly width x height bytes.
pub fn supply(p: &[u8], nationality: usize, out: &mut [u8]) -> Result<(), Refusal>
    ensures { Met p.now out.old (verdict p.now (supply nationality) out.old) (answer_as result) p.now out.new }
{
    let Some(v) = checking::check(p) else {
        return Err(Refusal::Unaccepted);
    };
    supply::supply(p, v, nationality, out)
}

// A unit goes along a path, hex by hex.
pub fn move_unit(p: &mut [u8], unit: usize, path: &[u16]) -> Moved
    ensures { Met p.old [] (verdict p.old (move unit path.now) []) (moved_as result) p.new [] }
{
    let Some(v) = checking::check(p) else {
        return Moved::Refused(Refusal::Unaccepted);
    };
    moving::move_unit(p, v, unit, path)
}

// The phase ends. The scratch has exactly width x height bytes, and is handed back all 0.
pub fn end_phase(p: &mut [u8], scratch: &mut [u8]) -> Result<(), Refusal>
    ensures { Met p.old scratch.old (verdict p.old end_phase scratch.old) (answer_as result) p.new scratch.new }
{
    let Some(v) = checking::check(p) else {
        return Err(Refusal::Unaccepted);
    };
    ending::end_phase(p, v, scratch)
}

// Units of a list attack a target, and a die is rolled. The scratch has exactly width x height bytes, and is handed back all 0.
pub fn attack(p: &mut [u8], target: usize, units: &[u16], die: usize, scratch: &mut [u8]) -> Fought
    ensures { Met p.old scratch.old (verdict p.old (attack target units.now die) scratch.old) (fought_as result) p.new scratch.new }
{
    let Some(v) = checking::check(p) else {
        return Fought::Refused(Refusal::Unaccepted);
    };
    attacking::attack(p, v, target, units, die, scratch)
}

// The units that owe in a hex go off along a route, or are destroyed.
pub fn retreat(p: &mut [u8], hex: usize, route: &[u16], pushes: &[u16]) -> Retreated
    ensures { Met p.old [] (verdict p.old (retreat hex route.now pushes.now) []) (retreated_as result) p.new [] }
{
    let Some(v) = checking::check(p) else {
        return Retreated::Refused(Refusal::Unaccepted);
    };
    retreating::retreat(p, v, hex, route, pushes)
}

// The units of a list are the losses of an exchange.
pub fn losses(p: &mut [u8], units: &[u16]) -> Result<(), Refusal>
    ensures { Met p.old [] (verdict p.old (losses units.now) []) (answer_as result) p.new [] }
{
    let Some(v) = checking::check(p) else {
        return Err(Refusal::Unaccepted);
    };
    losses::losses(p, v, units)
}

// A unit advances to a hex of a route.
pub fn advance(p: &mut [u8], unit: usize, hex: usize) -> Result<(), Refusal>
    ensures { Met p.old [] (verdict p.old (advance unit hex) []) (answer_as result) p.new [] }
{
    let Some(v) = checking::check(p) else {
        return Err(Refusal::Unaccepted);
    };
    advance::advance(p, v, unit, hex)
}

// The advances are over.
pub fn close(p: &mut [u8]) -> Result<(), Refusal>
    ensures { Met p.old [] (verdict p.old close []) (answer_as result) p.new [] }
{
    let Some(v) = checking::check(p) else {
        return Err(Refusal::Unaccepted);
    };
    advance::close(p, v)
}
