// The advance and the close: their questions in their order, and then the changes.
#![tactic(auto)]

ghost use Rattle.std.specs.Prelude.{◌≡◌, [], ◌≤◌, ◌<◌};
ghost use Rattle.position.specs.Layout.{route_hexes};
ghost use Rattle.position.specs.Tally.{any};
ghost use Rattle.position.specs.Board.{board};
ghost use Rattle.position.specs.Change.{makes};
ghost use Rattle.position.specs.Laid.{Laid};
ghost use Rattle.ruling.specs.Verdict.{Met};
ghost use Rattle.ruling.specs.Judged.{TestedOf};
ghost use Rattle.ruling.specs.Answers.{answer_as};
ghost use Rattle.aftermath.specs.Stage.{then_on};
ghost use Rattle.aftermath.specs.Advance.{
  shut,
  held_at,
  clear_to,
  can_follow,
  no_route,
  unit_checks,
  advance_checks,
  advance_changes,
  advance_rule,
  close_rule,
};

use field::zone;
use position::kind::Kind;
use position::{View, layout, read, role};
use ruling::Refusal;

// Whether an Enemy of unit `u`, or a force that is neutral to its own, stands on hex `h`.
fn shut(p: &[u8], v: View, u: usize, h: usize) -> bool
    requires { Laid p.now v }
    ensures { result ≡ shut (board p.now) u h }
{
    let f = forces::force_of(p, v, u);
    if zone::holds_enemy(p, v, f, h) {
        return true;
    }
    zone::holds_neutral(p, v, f, h)
}

// Whether number `i` of route `r` is shut to unit `u`.
fn held_at(p: &[u8], v: View, u: usize, r: usize, i: usize) -> bool
    requires { Laid p.now v }
    ensures { result ≡ held_at (board p.now) u r i }
{
    shut(p, v, u, read::route(p, v, r, i))
}

// Whether one of the first `n` numbers of route `r` is shut to unit `u`.
fn held_along(p: &[u8], v: View, u: usize, r: usize, n: usize) -> bool
    requires { Laid p.now v × (n ≤ route_hexes) }
    ensures { result ≡ any (held_at (board p.now) u r) n }
{
    (0..n).any(|i| held_at(p, v, u, r, i))
}

// Whether number `j` of route `r` is the hex, with nothing shut from its start to there.
fn clear_to(p: &[u8], v: View, u: usize, hex: usize, r: usize, j: usize) -> bool
    requires { Laid p.now v × (j < route_hexes) }
    ensures { result ≡ clear_to (board p.now) u hex r j }
{
    if read::route(p, v, r, j) != hex {
        return false;
    }
    !held_along(p, v, u, r, j + 1)
}

// Whether route `r` leads unit `u` to the hex.
fn leads_to(p: &[u8], v: View, u: usize, hex: usize, r: usize) -> bool
    requires { Laid p.now v }
    ensures { result ≡ any (clear_to (board p.now) u hex r) route_hexes }
{
    (0..layout::ROUTE_HEXES).any(|j| clear_to(p, v, u, hex, r, j))
}

// Whether route `r` starts beside unit `u` and leads it to the hex.
fn can_follow(p: &[u8], v: View, u: usize, hex: usize, r: usize) -> bool
    requires { Laid p.now v }
    ensures { result ≡ can_follow (board p.now) u hex r }
{
    if !ground::joined(p, v, read::hex(p, v, u), read::route(p, v, r, 0)) {
        return false;
    }
    leads_to(p, v, u, hex, r)
}

// Whether no route serves unit `u` to the hex.
fn no_route(p: &[u8], v: View, u: usize, hex: usize) -> bool
    requires { Laid p.now v }
    ensures { result ≡ no_route (board p.now) u hex }
{
    !(0..layout::ROUTE_COUNT).any(|r| can_follow(p, v, u, hex, r))
}

// The questions of an advance past its numbers and its stage: 4, 5, 7, 11.
fn judge_unit(p: &[u8], v: View, u: usize, hex: usize) -> Result<(), Refusal>
    requires { Laid p.now v }
    ensures { TestedOf p.now (unit_checks (board p.now) u hex) (Unit {0}) result }
{
    if read::role(p, v, u) != role::ADVANCES {
        return Err(Refusal::WrongUnit(0));
    }
    if !Kind(read::kind(p, v, u)).moves_by_land() {
        return Err(Refusal::Forbidden(0));
    }
    if no_route(p, v, u, hex) {
        return Err(Refusal::NoWay(0));
    }
    if 3 <= crowd::others(p, v, u, hex) {
        return Err(Refusal::Full(0));
    }
    Ok(())
}

// All the questions of an advance.
fn judge_advance(p: &[u8], v: View, u: usize, hex: usize) -> Result<(), Refusal>
    requires { Laid p.now v }
    ensures { TestedOf p.now (advance_checks (board p.now) u hex) (Unit {0}) result }
{
    let count = v.count;
    if count <= u {
        return Err(Refusal::OutOfRange(0));
    }
    let hexes = v.hexes;
    if hexes <= hex {
        return Err(Refusal::OutOfRange(0));
    }
    if read::stage(p, v) != position::stage::ADVANCES {
        return Err(Refusal::Untimely);
    }
    judge_unit(p, v, u, hex)
}

// Unit `u` stands on the hex with no role, and the stage passes on.
fn step_up(p: &mut [u8], v: View, u: usize, hex: usize)
    requires { Laid p.old v }
    ensures { p.new ≡ makes p.old (then_on (board p.old) (advance_changes (board p.old) u hex)) }
{
    write::place(p, v, u, hex);
    write::assign(p, v, u, role::NONE);
    passing::pass_on(p, v);
}

// The advance on a checked position: unit `unit` advances to `hex`.
pub fn advance(p: &mut [u8], v: View, unit: usize, hex: usize) -> Result<(), Refusal>
    requires { Laid p.old v }
    ensures { Met p.old [] (advance_rule (board p.old) unit hex) (answer_as result) p.new [] }
{
    judge_advance(p, v, unit, hex)?;
    step_up(p, v, unit, hex);
    Ok(())
}

// The close on a checked position: nobody has a role any more, and the stage passes on.
pub fn close(p: &mut [u8], v: View) -> Result<(), Refusal>
    requires { Laid p.old v }
    ensures { Met p.old [] (close_rule (board p.old)) (answer_as result) p.new [] }
{
    if read::stage(p, v) != position::stage::ADVANCES {
        return Err(Refusal::Untimely);
    }
    passing::reassign(p, v, role::ADVANCES, role::NONE);
    passing::pass_on(p, v);
    Ok(())
}
