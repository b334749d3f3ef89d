// The end of a phase: marks cleared, the clock moved on, and supply judged for the force whose phase begins.
#![tactic(auto)]

ghost use Rattle.std.specs.Prelude.{◌≡◌, ◌<◌, length};
ghost use Rattle.position.specs.Board.{board};
ghost use Rattle.position.specs.Change.{makes};
ghost use Rattle.acceptance.specs.Accepted.{Accepted};
ghost use Rattle.position.specs.Laid.{Laid, Read};
ghost use Rattle.ruling.specs.Verdict.{Met};
ghost use Rattle.ruling.specs.Answers.{answer_as};
ghost use Rattle.position.specs.Kind.{home};
ghost use Rattle.field.specs.Scene.{scene};
ghost use Rattle.supply.specs.Traced.{Traced};
ghost use Rattle.clock.specs.Clock.{next_clock};
ghost use Rattle.march.specs.EndPhase.{rested, rest_all, end_rule};
ghost use Rattle.march.specs.Ending.{ClockOf, JudgesUnit, JudgesAll, JudgesForce, JudgesPhase, Ended};

use clock::{Clock, timing};
use position::{View, bits, kind, read, stage};
use ruling::Refusal;

// The clock on the desk.
fn clock_of(p: &[u8], v: View) -> Clock
    requires { Laid p.now v }
    ensures { ClockOf (board p.now) result }
{
    Clock {
        turn: read::turn(p, v),
        force: read::phasing(p, v),
        phase: read::phase(p, v),
    }
}

// The clock moved on: it is lent to the one function that does so in place.
fn moved_on(c: Clock) -> Clock
    requires { (c.turn < 256) × (c.force < 256) × (c.phase < 256) }
    ensures { result ≡ next_clock c }
{
    let mut clock = c;
    timing::move_on(&mut clock);
    clock
}

// Marks without moved and fought.
fn rested(m: usize) -> usize
    requires { m < 256 }
    ensures { Read (rested m) 256 result }
{
    bits::without(bits::MOVED, bits::without(bits::FOUGHT, m))
}

// Every unit's moved and fought marks are cleared.
fn rest_all(p: &mut [u8], v: View)
    requires { Laid p.old v }
    ensures { p.new ≡ makes p.old (rest_all (board p.old) v.count) }
{
    for u in 0..v.count {
        let m = read::marks(p, v, u);
        write::mark(p, v, u, rested(m));
    }
}

// Unit `u`, if it is of nationality `n` and on the map, is marked by what is traced of its hex.
fn judge_unit(p: &mut [u8], v: View, n: usize, map: &[u8], u: usize)
    requires { Laid p.old v × (length map.now ≡ v.hexes) }
    ensures { Laid p.new v × JudgesUnit p.old map.now n u p.new }
{
    if read::nationality(p, v, u) != n {
        return;
    }
    let h = read::hex(p, v, u);
    let hexes = v.hexes;
    if hexes <= h {
        return;
    }
    let m = read::marks(p, v, u);
    if 2 <= map[h] {
        write::mark(p, v, u, bits::with(bits::SUPPLIED, m));
        return;
    }
    write::mark(p, v, u, bits::without(bits::SUPPLIED, m));
}

// The mapped units of nationality `n` are marked by its supply, which is traced in `map`.
fn judge_all(p: &mut [u8], v: View, n: usize, map: &[u8])
    requires { Laid p.old v × Traced (scene (board p.old)) n map.now }
    ensures { Laid p.new v × JudgesAll p.old n v.count p.new }
{
    for u in 0..v.count {
        judge_unit(p, v, n, map, u);
    }
}

// The mapped units of US and Canada are marked by their supply.
fn judge_home(p: &mut [u8], v: View, scratch: &mut [u8])
    requires { Laid p.old v × (length scratch.old ≡ v.hexes) }
    ensures { JudgesForce p.old home p.new }
{
    supply::trace(p, v, kind::US, scratch);
    judge_all(p, v, kind::US, scratch);
    supply::retrace(p, v, scratch);
    judge_all(p, v, kind::CANADA, scratch);
}

// The mapped units of force `f` are marked by their nationalities' supply.
fn judge_force(p: &mut [u8], v: View, f: usize, scratch: &mut [u8])
    requires { Laid p.old v × (length scratch.old ≡ v.hexes) }
    ensures { JudgesForce p.old f p.new }
{
    if f == kind::HOME {
        judge_home(p, v, scratch);
        return;
    }
    supply::trace(p, v, f, scratch);
    judge_all(p, v, f, scratch);
}

// On entering a phase in which supply is judged, the phasing force's mapped units are marked by it.
fn enter(p: &mut [u8], v: View, next: Clock, scratch: &mut [u8])
    requires { Laid p.old v × (length scratch.old ≡ v.hexes) }
    ensures { JudgesPhase p.old next p.new }
{
    if !next.judges_supply() {
        return;
    }
    judge_force(p, v, next.force, scratch);
}

// The phase ends: what the call changes, and the scratch as it is handed back.
fn pass_on(p: &mut [u8], v: View, scratch: &mut [u8])
    requires { Laid p.old v × Accepted p.old × (length scratch.old ≡ v.hexes) }
    ensures { Ended p.old p.new scratch.new }
{
    let now = clock_of(p, v);
    let next = moved_on(now);
    rest_all(p, v);
    write::set_clock(p, v, next.turn, next.force, next.phase);
    enter(p, v, next, scratch);
    paint::clear(scratch);
}

// The end of a phase on a checked position. The scratch has exactly width x height bytes, and is handed back all 0.
pub fn end_phase(p: &mut [u8], v: View, scratch: &mut [u8]) -> Result<(), Refusal>
    requires { Laid p.old v × Accepted p.old }
    ensures { Met p.old scratch.old (end_rule (board p.old) (length scratch.old)) (answer_as result) p.new scratch.new }
{
    let hexes = v.hexes;
    if scratch.len() != hexes {
        return Err(Refusal::OutOfRange(0));
    }
    if read::stage(p, v) != stage::QUIET {
        return Err(Refusal::Untimely);
    }
    if clock_of(p, v).is_last(read::last_turn(p, v)) {
        return Err(Refusal::LastPhase);
    }
    pass_on(p, v, scratch);
    Ok(())
}
