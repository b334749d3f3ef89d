// The attack: its questions, and then the battle.
#![tactic(auto)]

ghost use Rattle.std.specs.Prelude.{length};
ghost use Rattle.position.specs.Board.{board};
ghost use Rattle.acceptance.specs.Accepted.{Accepted};
ghost use Rattle.position.specs.Laid.{Laid};
ghost use Rattle.ruling.specs.Verdict.{Met};
ghost use Rattle.battle.specs.Asked.{Engaged};
ghost use Rattle.battle.specs.Battle.{battle, attack_rule};
ghost use Rattle.battle.specs.Answers.{fought_as};

mod asking;

use battle::Fought;
use position::{View, read};
use results::{codes, settling};

// The battle of an attack that is let through.
fn fight(
    p: &mut [u8],
    v: View,
    target: usize,
    units: &[u16],
    die: usize,
    scratch: &mut [u8],
) -> Fought
    requires { Laid p.old v × Accepted p.old × Engaged (board p.old) target units.now (length scratch.old) }
    ensures { Met p.old scratch.old (battle (board p.old) target units.now die) (fought_as result) p.new scratch.new }
{
    let k = units.len();
    let mut fighters = line::nobody();
    let n = ranks::muster(p, v, target, units, &mut fighters);
    ranks::arm_all(p, v, &mut fighters[..n], scratch);
    let attackers = line::sum_up(&fighters[..k]);
    let defenders = line::sum_up(&fighters[k..n]);
    let defence = defenders.fighting * odds::multiple_at(p, v, target, units);
    let column = odds::column(p, v, attackers.fighting, defence);
    let code = read::code(p, v, column, die);
    let o = codes::upshot(code);
    let need = codes::need_of(o, attackers.printed, defenders.printed);
    let mut who = [0u16; 21];
    ranks::units_of(&fighters[..n], &mut who);
    settling::settle(p, v, target, units, &who[..n], o, need);
    paint::clear(scratch);
    Fought::Done(column + 1, code)
}

// The attack on a checked position: the units of the list attack the target. The scratch has exactly width x height bytes, and is handed back
// all 0.
pub fn attack(
    p: &mut [u8],
    v: View,
    target: usize,
    units: &[u16],
    die: usize,
    scratch: &mut [u8],
) -> Fought
    requires { Laid p.old v × Accepted p.old }
    ensures { Met p.old scratch.old (attack_rule (board p.old) target units.now die (length scratch.old)) (fought_as result) p.new scratch.new }
{
    if let Err(refusal) = asking::judge_attack(p, v, target, units, die, scratch.len()) {
        return Fought::Refused(refusal);
    }
    fight(p, v, target, units, die, scratch)
}
