// Losses: their questions in their order, and then who is destroyed and who may advance.
#![tactic(auto)]

ghost use Rattle.std.specs.Prelude.{◌≡◌, [], map, ◌+◌, ◌<◌, ◌≤◌, length, take};
ghost use Rattle.position.specs.Tally.{any};
ghost use Rattle.position.specs.Board.{board};
ghost use Rattle.position.specs.Change.{makes};
ghost use Rattle.position.specs.Change.Change.{destroyed};
ghost use Rattle.position.specs.Laid.{Laid};
ghost use Rattle.line.specs.Line.{Filled};
ghost use Rattle.ruling.specs.Verdict.{Met};
ghost use Rattle.ruling.specs.Judged.{TestedOf};
ghost use Rattle.ruling.specs.Answers.{answer_as};
ghost use Rattle.aftermath.specs.Stage.{then_on};
ghost use Rattle.aftermath.specs.Losses.{
  owes,
  loss,
  losses,
  shown_total,
  loss_at,
  spared,
  enough,
  owes_phasing,
  other_type,
  spared_special,
  passed_over,
  short,
  loss_changes,
  loss_checks,
  losses_rule,
};

use field::listed;
use line::Fighter;
use position::kind::Kind;
use position::{View, read, role};
use ruling::Refusal;

// Whether unit `u` owes.
fn owes(p: &[u8], v: View, u: usize) -> bool
    requires { Laid p.now v }
    ensures { result ≡ owes (board p.now) u }
{
    read::role(p, v, u) == role::OWES
}

// The questions of unit `u` behind the first `n` of the list: 4, 6.
fn loss(p: &[u8], v: View, units: &[u16], n: usize, u: usize) -> Result<(), Refusal>
    requires { Laid p.now v × (n ≤ length units.now) × (n < 18) }
    ensures { TestedOf p.now (loss (board p.now) (take n units.now) u (n + 1)) (Unit {0}) result }
{
    let k = n + 1;
    if !owes(p, v, u) {
        return Err(Refusal::WrongUnit(k));
    }
    if listed::named(units, n, u) {
        return Err(Refusal::NamedTwice(k));
    }
    Ok(())
}

// The questions of every unit, along the list.
fn each_loss(p: &[u8], v: View, units: &[u16]) -> Result<(), Refusal>
    requires { Laid p.now v × (length units.now ≤ 18) }
    ensures { TestedOf p.now (losses (board p.now) units.now) (Unit {0}) result }
{
    for (i, &u) in units.iter().enumerate() {
        loss(p, v, units, i, u as usize)?;
    }
    Ok(())
}

// The line of the list: each unit with the strength that it shows. Nobody fights.
fn loss_line(p: &[u8], v: View, units: &[u16]) -> [Fighter; 21]
    requires { Laid p.now v × (length units.now ≤ 18) }
    ensures { Filled (loss_at (board p.now) units.now) (length units.now) result }
{
    let mut fighters = line::nobody();
    for (i, &unit) in units.iter().enumerate() {
        fighters[i] = Fighter {
            unit,
            printed: read::shown(p, v, unit as usize) as u8,
            fighting: 0,
        };
    }
    fighters
}

// The printed total of the list, of strengths that are shown.
fn shown_total(p: &[u8], v: View, units: &[u16]) -> usize
    requires { Laid p.now v × (length units.now ≤ 18) }
    ensures { result ≡ shown_total (board p.now) units.now }
{
    let fighters = loss_line(p, v, units);
    line::printed_total(&fighters[..units.len()])
}

// Whether unit `u` owes and the list spares it.
fn spared(p: &[u8], v: View, units: &[u16], u: usize) -> bool
    requires { Laid p.now v }
    ensures { result ≡ spared (board p.now) units.now u }
{
    if !owes(p, v, u) {
        return false;
    }
    !listed::named(units, units.len(), u)
}

// Whether the list spares a unit that owes.
fn any_spared(p: &[u8], v: View, units: &[u16]) -> bool
    requires { Laid p.now v }
    ensures { result ≡ any (spared (board p.now) units.now) (board p.now).units.count }
{
    (0..v.count).any(|u| spared(p, v, units, u))
}

// Whether the list reaches the need or names all.
fn enough(p: &[u8], v: View, units: &[u16]) -> bool
    requires { Laid p.now v × (length units.now ≤ 18) }
    ensures { result ≡ enough (board p.now) units.now }
{
    if read::need(p, v) <= shown_total(p, v, units) {
        return true;
    }
    !any_spared(p, v, units)
}

// Whether unit `u` owes and is of the phasing force.
fn owes_phasing(p: &[u8], v: View, u: usize) -> bool
    requires { Laid p.now v }
    ensures { result ≡ owes_phasing (board p.now) u }
{
    if !owes(p, v, u) {
        return false;
    }
    forces::force_of(p, v, u) == read::phasing(p, v)
}

// Whether the owing units are the phasing force's.
fn phasing_owes(p: &[u8], v: View) -> bool
    requires { Laid p.now v }
    ensures { result ≡ any (owes_phasing (board p.now)) (board p.now).units.count }
{
    (0..v.count).any(|u| owes_phasing(p, v, u))
}

// Whether the list names unit `u`, and it is no special infantry.
fn other_type(p: &[u8], v: View, units: &[u16], u: usize) -> bool
    requires { Laid p.now v }
    ensures { result ≡ other_type (board p.now) units.now u }
{
    if !listed::named(units, units.len(), u) {
        return false;
    }
    read::kind(p, v, u) != Kind::SPECIAL
}

// Whether the list names another type than special infantry.
fn names_other(p: &[u8], v: View, units: &[u16]) -> bool
    requires { Laid p.now v }
    ensures { result ≡ any (other_type (board p.now) units.now) (board p.now).units.count }
{
    (0..v.count).any(|u| other_type(p, v, units, u))
}

// Whether unit `u` is special infantry that owes and that the list spares.
fn spared_special(p: &[u8], v: View, units: &[u16], u: usize) -> bool
    requires { Laid p.now v }
    ensures { result ≡ spared_special (board p.now) units.now u }
{
    if !spared(p, v, units, u) {
        return false;
    }
    read::kind(p, v, u) == Kind::SPECIAL
}

// Whether the list spares special infantry that owes.
fn spares_special(p: &[u8], v: View, units: &[u16]) -> bool
    requires { Laid p.now v }
    ensures { result ≡ any (spared_special (board p.now) units.now) (board p.now).units.count }
{
    (0..v.count).any(|u| spared_special(p, v, units, u))
}

// Whether special infantry is passed over.
fn passed_over(p: &[u8], v: View, units: &[u16]) -> bool
    requires { Laid p.now v }
    ensures { result ≡ passed_over (board p.now) units.now }
{
    if !phasing_owes(p, v) {
        return false;
    }
    if !names_other(p, v, units) {
        return false;
    }
    spares_special(p, v, units)
}

// Whether the losses are short, or special infantry is passed over.
fn short(p: &[u8], v: View, units: &[u16]) -> bool
    requires { Laid p.now v × (length units.now ≤ 18) }
    ensures { result ≡ short (board p.now) units.now }
{
    if !enough(p, v, units) {
        return true;
    }
    passed_over(p, v, units)
}

// All the questions of losses.
fn judge_losses(p: &[u8], v: View, units: &[u16]) -> Result<(), Refusal>
    requires { Laid p.now v }
    ensures { TestedOf p.now (loss_checks (board p.now) units.now) (Unit {0}) result }
{
    if units.len() < 1 {
        return Err(Refusal::OutOfRange(0));
    }
    if 18 < units.len() {
        return Err(Refusal::OutOfRange(0));
    }
    listed::all_there(p, v, units)?;
    if read::stage(p, v) != position::stage::LOSSES {
        return Err(Refusal::Untimely);
    }
    each_loss(p, v, units)?;
    if short(p, v, units) {
        return Err(Refusal::LossesShort);
    }
    Ok(())
}

// Every unit of the list is destroyed.
fn destroy_all(p: &mut [u8], v: View, units: &[u16])
    requires { Laid p.old v }
    ensures { p.new ≡ makes p.old (map destroyed units.now) }
{
    for &u in units {
        write::destroy(p, v, u as usize);
    }
}

// The units of the list are destroyed, the survivors may advance, and the stage passes on.
fn lose(p: &mut [u8], v: View, units: &[u16])
    requires { Laid p.old v }
    ensures { p.new ≡ makes p.old (then_on (board p.old) (loss_changes (board p.old) units.now)) }
{
    destroy_all(p, v, units);
    passing::reassign(p, v, role::OWES, role::ADVANCES);
    passing::pass_on(p, v);
}

// The losses on a checked position: the units of the list are those of an exchange.
pub fn losses(p: &mut [u8], v: View, units: &[u16]) -> Result<(), Refusal>
    requires { Laid p.old v }
    ensures { Met p.old [] (losses_rule (board p.old) units.now) (answer_as result) p.new [] }
{
    judge_losses(p, v, units)?;
    lose(p, v, units);
    Ok(())
}
