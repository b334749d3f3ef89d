// The battle line: who takes part, and what each brings. A fighter comes to its place with its unit and printed strength; what it fights with is
// written there once the supply of its nationality is traced.
#![tactic(auto)]

ghost use Rattle.std.specs.Prelude.{◌≡◌, ◌+◌, ◌<◌, ◌≤◌, length, map, take};
ghost use Rattle.position.specs.Tally.{any};
ghost use Rattle.position.specs.Board.{board};
ghost use Rattle.position.specs.Laid.{Laid, Read};
ghost use Rattle.field.specs.Scene.{scene};
ghost use Rattle.supply.specs.Traced.{Traced};
ghost use Rattle.results.specs.Participants.{defenders};
ghost use Rattle.battle.specs.Line.{strength_of};
ghost use Rattle.line.specs.Line.{places};
ghost use Rattle.battle.specs.Mustered.{recruit, Joins, Musters, Standing, AllStanding, nation_at, armed, arm_own, arm_home, unit_of};

use field::unit;
use line::Fighter;
use position::{View, kind, read};

// Unit `u` as it comes to the line.
#[tactic(auto, unfolding(battle::specs::Mustered::recruit))]
fn recruit(p: &[u8], v: View, u: usize) -> Fighter
    requires { Laid p.now v × (u < 65536) }
    ensures { result ≡ recruit p.now u }
{
    Fighter {
        unit: u as u16,
        printed: read::strength(p, v, u) as u8,
        fighting: 0,
    }
}

// The attackers stand first in the line, in list order.
fn enlist(p: &[u8], v: View, units: &[u16], line: &mut [Fighter; 21])
    requires { Laid p.now v × (length units.now ≤ 18) }
    ensures { take (length units.now) line.new ≡ map (recruit p.now) units.now }
{
    for (i, &u) in units.iter().enumerate() {
        line[i] = recruit(p, v, u as usize);
    }
}

// The units in the target hex join behind the first `m`, in counter order.
fn join(p: &[u8], v: View, target: usize, m: usize, line: &mut [Fighter; 21]) -> usize
    requires { Laid p.now v × (m + length (defenders (board p.now) target) ≤ places) }
    ensures { Joins p.now target line.old m line.new result }
{
    let mut n = m;
    for u in 0..v.count {
        if read::hex(p, v, u) == target {
            line[n] = recruit(p, v, u);
            n += 1;
        }
    }
    n
}

// All participants, and how many they are.
#[tactic(auto, using(battle::proofs::Lines::musters))]
pub fn muster(p: &[u8], v: View, target: usize, units: &[u16], line: &mut [Fighter; 21]) -> usize
    requires { Laid p.now v × (length units.now ≤ 18) × (length (defenders (board p.now) target) ≤ 3) }
    ensures { Musters p.now target units.now line.new result }
{
    enlist(p, v, units, line);
    join(p, v, target, units.len(), line)
}

// What `f` fights with, as what is traced of its nationality's supply says.
fn strength(p: &[u8], v: View, f: Fighter, traced: &[u8]) -> usize
    requires { Laid p.now v × Standing (board p.now) f.unit × Traced (scene (board p.now)) ((board p.now).units.counter.nationality f.unit) traced.now }
    ensures { Read (strength_of (board p.now) f.unit f.printed) 256 result }
{
    let u = f.unit as usize;
    let h = read::hex(p, v, u);
    unit::working(p, v, u, 2 <= traced[h], f.printed as usize)
}

// The fighters of nationality `nation` are armed by its supply, which is traced.
fn arm_by(p: &[u8], v: View, nation: usize, line: &mut [Fighter], traced: &[u8])
    requires { Laid p.now v × AllStanding (board p.now) line.old × Traced (scene (board p.now)) nation traced.now }
    ensures { line.new ≡ map (arm_own (board p.now) nation) line.old }
{
    for f in line.iter_mut() {
        if read::nationality(p, v, f.unit as usize) == nation {
            f.fighting = strength(p, v, *f, traced) as u8;
        }
    }
}

// Whether somebody in the line is of the nationality.
fn takes_part(p: &[u8], v: View, nation: usize, line: &[Fighter]) -> bool
    requires { Laid p.now v }
    ensures { result ≡ any (nation_at (board p.now) nation line.now) (length line.now) }
{
    line.iter()
        .any(|f| read::nationality(p, v, f.unit as usize) == nation)
}

// One nationality's fighters are armed: its supply is traced in the scratch if it takes part.
#[tactic(auto, using(battle::proofs::Lines::arms_none))]
fn arm(p: &[u8], v: View, nation: usize, line: &mut [Fighter], scratch: &mut [u8])
    requires { Laid p.now v × AllStanding (board p.now) line.old × (length scratch.old ≡ v.hexes) }
    ensures { line.new ≡ map (arm_own (board p.now) nation) line.old }
{
    if !takes_part(p, v, nation, line) {
        return;
    }
    supply::trace(p, v, nation, scratch);
    arm_by(p, v, nation, line, scratch);
}

// The fighters of US and Canada are armed. Where both take part, what is traced for the US serves Canada too.
#[tactic(auto, using(battle::proofs::Lines::arms_none, battle::proofs::Lines::standing_own), unfolding(battle::specs::Mustered::arm_home))]
fn arm_home(p: &[u8], v: View, line: &mut [Fighter], scratch: &mut [u8])
    requires { Laid p.now v × AllStanding (board p.now) line.old × (length scratch.old ≡ v.hexes) }
    ensures { line.new ≡ arm_home (board p.now) line.old }
{
    if !takes_part(p, v, kind::US, line) {
        arm(p, v, kind::CANADA, line, scratch);
        return;
    }
    supply::trace(p, v, kind::US, scratch);
    arm_by(p, v, kind::US, line, scratch);
    if !takes_part(p, v, kind::CANADA, line) {
        return;
    }
    supply::retrace(p, v, scratch);
    arm_by(p, v, kind::CANADA, line, scratch);
}

// All are armed, nationality by nationality.
pub fn arm_all(p: &[u8], v: View, line: &mut [Fighter], scratch: &mut [u8])
    requires { Laid p.now v × AllStanding (board p.now) line.old × (length scratch.old ≡ v.hexes) }
    ensures { line.new ≡ map (armed (board p.now)) line.old }
{
    for nation in 0..kind::US {
        arm(p, v, nation, line, scratch);
    }
    arm_home(p, v, line, scratch);
}

// The units of the line, read back into an array: those that the result is carried out on.
pub fn units_of(line: &[Fighter], who: &mut [u16; 21])
    requires { length line.now ≤ places }
    ensures { take (length line.now) who.new ≡ map unit_of line.now }
{
    for (i, f) in line.iter().enumerate() {
        who[i] = f.unit;
    }
}
