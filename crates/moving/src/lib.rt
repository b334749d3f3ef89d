// The move: its questions in their order, and then the change.
#![tactic(auto)]

ghost use Rattle.std.specs.Prelude.{◌≡◌, [], ◌<◌, length};
ghost use Rattle.position.specs.Board.{board};
ghost use Rattle.position.specs.Laid.{Laid};
ghost use Rattle.ruling.specs.Verdict.{Met};
ghost use Rattle.march.specs.Move.{may_move_now, moves_in, forbidden, steps, move_checks, arrival, move_rule};
ghost use Rattle.march.specs.Judged.{PathOf};
ghost use Rattle.march.specs.Answers.{moved_as};

use clock::phase;
use field::{listed, unit};
use march::Moved;
use position::kind::Kind;
use position::{View, bits, read, stage};
use ruling::Refusal;

// Whether a move may be made in this stage and phase.
fn may_move_now(p: &[u8], v: View) -> bool
    requires { Laid p.now v }
    ensures { result ≡ may_move_now (board p.now) }
{
    if read::stage(p, v) != stage::QUIET {
        return false;
    }
    let phase = read::phase(p, v);
    if phase == phase::LAND {
        return true;
    }
    phase == phase::MECHANISED
}

// Whether a type moves in a phase.
fn moves_in(phase: usize, kind: usize) -> bool
    ensures { result ≡ moves_in phase kind }
{
    if !Kind(kind).moves_by_land() {
        return false;
    }
    if phase == phase::MECHANISED {
        return Kind(kind).moves_in_phase_2();
    }
    true
}

// Whether unit `u`'s type or mark forbids a move.
fn forbidden(p: &[u8], v: View, u: usize) -> bool
    requires { Laid p.now v }
    ensures { result ≡ forbidden (board p.now) u }
{
    if !moves_in(read::phase(p, v), read::kind(p, v, u)) {
        return true;
    }
    bits::has(bits::MOVED, read::marks(p, v, u))
}

// The questions of every step, along the path. A zone at the start is free, so the first step leaves none.
fn steps(p: &[u8], v: View, u: usize, path: &[u16]) -> Result<usize, Refusal>
    requires { Laid p.now v × (length path.now < 31) }
    ensures { PathOf p.now (steps (board p.now) u path.now) result }
{
    let mut at = read::hex(p, v, u);
    let mut spent = 0;
    let mut leaves = false;
    for (i, &hex) in path.iter().enumerate() {
        let x = hex as usize;
        let (total, zone) = stepping::one_step(p, v, u, at, spent, leaves, x, i + 1)?;
        at = x;
        spent = total;
        leaves = zone;
    }
    Ok(at)
}

// All the questions of a move but 11.
pub fn judge_move(p: &[u8], v: View, u: usize, path: &[u16]) -> Result<usize, Refusal>
    requires { Laid p.now v }
    ensures { PathOf p.now (move_checks (board p.now) u path.now) result }
{
    let long = path.len();
    if long < 1 {
        return Err(Refusal::OutOfRange(0));
    }
    if 30 < long {
        return Err(Refusal::OutOfRange(0));
    }
    let count = v.count;
    if count <= u {
        return Err(Refusal::OutOfRange(0));
    }
    listed::on_map_all(p, v, path)?;
    if !may_move_now(p, v) {
        return Err(Refusal::Untimely);
    }
    if unit::not_phasing(p, v, u) {
        return Err(Refusal::WrongUnit(0));
    }
    if forbidden(p, v, u) {
        return Err(Refusal::Forbidden(0));
    }
    steps(p, v, u, path)
}

// How many others fill a hex.
const FULL: usize = 3;

// The move is made, if there is room where it ends.
fn arrive(p: &mut [u8], v: View, u: usize, h: usize, last: usize) -> Moved
    requires { Laid p.old v }
    ensures { Met p.old [] (arrival (board p.old) u last h) (moved_as result) p.new [] }
{
    if FULL <= crowd::others(p, v, u, h) {
        return Moved::Refused(Refusal::Full(last));
    }
    let marks = read::marks(p, v, u);
    write::place(p, v, u, h);
    write::mark(p, v, u, bits::with(bits::MOVED, marks));
    Moved::Done
}

// The move on a checked position: unit `unit` goes along `path`, hex by hex.
pub fn move_unit(p: &mut [u8], v: View, unit: usize, path: &[u16]) -> Moved
    requires { Laid p.old v }
    ensures { Met p.old [] (move_rule (board p.old) unit path.now) (moved_as result) p.new [] }
{
    match judge_move(p, v, unit, path) {
        Err(refusal) => Moved::Refused(refusal),
        Ok(h) => arrive(p, v, unit, h, path.len()),
    }
}
