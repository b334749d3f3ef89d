// The questions of an attack, in their order. Nothing is turned over here, and no question looks at a strength.
ghost use Rattle.std.specs.Prelude.{◌≡◌, ◌+◌, ◌<◌, ◌≤◌, length, take};
ghost use Rattle.position.specs.Tally.{any};
ghost use Rattle.position.specs.Board.{board};
ghost use Rattle.position.specs.Laid.{Laid};
ghost use Rattle.ruling.specs.Judged.{TestedOf};
ghost use Rattle.battle.specs.Attack.{
  may_attack_now,
  fought_on,
  no_target,
  cannot_attack,
  not_beside,
  attacker,
  attackers,
  in_range,
  attack_checks,
};
ghost use Rattle.battle.specs.Asked.{Faces, AllFace, InRange, Engaged};

use clock::phase;
use field::{listed, unit, zone};
use position::kind::Kind;
use position::{View, bits, layout, read, stage};
use ruling::Refusal;

// Refusal 3: lengths, then single numbers, then along the list.
fn in_range(
    p: &[u8],
    v: View,
    target: usize,
    units: &[u16],
    die: usize,
    long: usize,
) -> Result<(), Refusal>
    requires { Laid p.now v }
    ensures { TestedOf p.now (in_range (board p.now) target units.now die long) (InRange (board p.now) target units.now long) result }
{
    if units.len() < 1 {
        return Err(Refusal::OutOfRange(0));
    }
    if 18 < units.len() {
        return Err(Refusal::OutOfRange(0));
    }
    let hexes = v.hexes;
    if long != hexes {
        return Err(Refusal::OutOfRange(0));
    }
    if hexes <= target {
        return Err(Refusal::OutOfRange(0));
    }
    if die < 1 {
        return Err(Refusal::OutOfRange(0));
    }
    if layout::DIE_FACES < die {
        return Err(Refusal::OutOfRange(0));
    }
    listed::all_there(p, v, units)
}

// Whether an attack may be made in this stage and phase.
fn may_attack_now(p: &[u8], v: View) -> bool
    requires { Laid p.now v }
    ensures { result ≡ may_attack_now (board p.now) }
{
    if read::stage(p, v) != stage::QUIET {
        return false;
    }
    read::phase(p, v) == phase::COMBAT
}

// Whether unit `u` stands on hex `h` and has fought.
fn fought_on(p: &[u8], v: View, h: usize, u: usize) -> bool
    requires { Laid p.now v }
    ensures { result ≡ fought_on (board p.now) h u }
{
    if read::hex(p, v, u) == h {
        return bits::has(bits::FOUGHT, read::marks(p, v, u));
    }
    false
}

// Whether a unit on hex `h` has fought.
fn any_fought(p: &[u8], v: View, h: usize) -> bool
    requires { Laid p.now v }
    ensures { result ≡ any (fought_on (board p.now) h) (board p.now).units.count }
{
    (0..v.count).any(|u| fought_on(p, v, h, u))
}

// Whether the target holds no Enemy of the phasing force, or a unit there has fought.
fn no_target(p: &[u8], v: View, target: usize) -> bool
    requires { Laid p.now v }
    ensures { result ≡ no_target (board p.now) target }
{
    if !zone::holds_enemy(p, v, read::phasing(p, v), target) {
        return true;
    }
    any_fought(p, v, target)
}

// Whether unit `u`'s type or mark forbids an attack.
fn cannot_attack(p: &[u8], v: View, u: usize) -> bool
    requires { Laid p.now v }
    ensures { result ≡ cannot_attack (board p.now) u }
{
    if !Kind(read::kind(p, v, u)).may_attack() {
        return true;
    }
    bits::has(bits::FOUGHT, read::marks(p, v, u))
}

// Whether unit `u` does not stand beside the target over an unblocked side.
fn not_beside(p: &[u8], v: View, target: usize, u: usize) -> bool
    requires { Laid p.now v }
    ensures { result ≡ not_beside (board p.now) target u }
{
    !ground::joined(p, v, read::hex(p, v, u), target)
}

// The questions of unit `u` behind the first `n` of the list: 4, 5, 6, 13.
fn attacker(
    p: &[u8],
    v: View,
    target: usize,
    units: &[u16],
    n: usize,
    u: usize,
) -> Result<(), Refusal>
    requires { Laid p.now v × (n ≤ length units.now) × (n < 18) }
    ensures { TestedOf p.now (attacker (board p.now) target (take n units.now) u (n + 1)) (Faces (board p.now) target u) result }
{
    let k = n + 1;
    if unit::not_phasing(p, v, u) {
        return Err(Refusal::WrongUnit(k));
    }
    if cannot_attack(p, v, u) {
        return Err(Refusal::Forbidden(k));
    }
    if listed::named(units, n, u) {
        return Err(Refusal::NamedTwice(k));
    }
    if not_beside(p, v, target, u) {
        return Err(Refusal::NotBeside(k));
    }
    Ok(())
}

// The questions of every unit, along the list.
fn attackers(p: &[u8], v: View, target: usize, units: &[u16]) -> Result<(), Refusal>
    requires { Laid p.now v × (length units.now ≤ 18) }
    ensures { TestedOf p.now (attackers (board p.now) target units.now) (AllFace (board p.now) target units.now) result }
{
    for (i, &u) in units.iter().enumerate() {
        attacker(p, v, target, units, i, u as usize)?;
    }
    Ok(())
}

// All the questions of an attack.
pub fn judge_attack(
    p: &[u8],
    v: View,
    target: usize,
    units: &[u16],
    die: usize,
    long: usize,
) -> Result<(), Refusal>
    requires { Laid p.now v }
    ensures { TestedOf p.now (attack_checks (board p.now) target units.now die long) (Engaged (board p.now) target units.now long) result }
{
    in_range(p, v, target, units, die, long)?;
    if !may_attack_now(p, v) {
        return Err(Refusal::Untimely);
    }
    if no_target(p, v, target) {
        return Err(Refusal::NoTarget);
    }
    attackers(p, v, target, units)
}
