// One step of a move: what it costs, and its questions in their order.
#![tactic(auto)]

ghost use Rattle.std.specs.Prelude.{◌≡◌, ◌+◌, ◌<◌};
ghost use Rattle.position.specs.Board.{board, ground, force_of};
ghost use Rattle.position.specs.Ground.{bearing};
ghost use Rattle.position.specs.Laid.{Laid, Read};
ghost use Rattle.field.specs.Scene.{scene};
ghost use Rattle.field.specs.Zone.{holds_neutral, enemy_zone};
ghost use Rattle.paint.specs.Paint.{Marked};
ghost use Rattle.march.specs.Step.{side_cost, step_cost};
ghost use Rattle.march.specs.Move.{allowed, leaves_zone, step, after_step, leg};
ghost use Rattle.march.specs.Judged.{WayOf};

use field::{unit, zone};
use position::{View, bits, layout, read};
use ruling::Refusal;

// The allowance that unit `u` may spend: halved without the supplied mark.
pub fn allowed(p: &[u8], v: View, u: usize) -> usize
    requires { Laid p.now v }
    ensures { Read (allowed (board p.now) u) 256 result }
{
    let marked = bits::has(bits::SUPPLIED, read::marks(p, v, u));
    unit::working(p, v, u, marked, read::allowance(p, v, u))
}

fn side_cost(p: &[u8], v: View, s: usize) -> usize
    requires { Laid p.now v }
    ensures { Read (side_cost (board p.now) s) 256 result }
{
    if s == ground::RIVER {
        return read::cost(p, v, layout::RIVER);
    }
    if s == ground::MAJOR_RIVER {
        return read::cost(p, v, layout::MAJOR_RIVER);
    }
    0
}

// What a step from hex `h` to hex `x` costs, which lies in direction `d`.
fn step_cost(p: &[u8], v: View, h: usize, x: usize, d: usize) -> usize
    requires { Laid p.now v × (d < 6) × (d ≡ bearing (ground p.now) h x) }
    ensures { Read (step_cost (board p.now) h x) 512 result }
{
    let terrain = read::terrain(p, v, x);
    read::cost(p, v, terrain) + side_cost(p, v, ground::between(p, v, h, x, d))
}

// Whether hex `x`, which has the marks `m`, holds a force that is neutral to force `f`. Where nobody stands, no unit has to be asked.
fn neutral_there(p: &[u8], v: View, f: usize, x: usize, m: usize) -> bool
    requires { Laid p.now v × Marked (scene (board p.now)) f x m }
    ensures { result ≡ holds_neutral (scene (board p.now)) f x }
{
    if bits::has(paint::HELD, m) {
        return zone::holds_neutral(p, v, f, x);
    }
    false
}

// The questions of the step to hex `x`, at place `k`: 9, 7, 8, 18, 10. Whether it leaves an Enemy zone that the move has entered, the
// step before has told: one look at the hex entered shows its Enemies and its zone.
pub fn one_step(
    p: &[u8],
    v: View,
    u: usize,
    at: usize,
    spent: usize,
    leaves: bool,
    x: usize,
    k: usize,
) -> Result<(usize, bool), Refusal>
    requires { Laid p.now v × (spent < 256) × (leaves ≡ leaves_zone (board p.now) u (leg at spent) k) }
    ensures { WayOf p.now (step (board p.now) u (leg at spent) x k) (after_step (board p.now) (leg at spent) x).spent (enemy_zone (scene (board p.now)) (force_of (board p.now) u) x) result }
{
    if leaves {
        return Err(Refusal::AfterZone(k));
    }
    let Some(d) = ground::bearing(p, v, at, x) else {
        return Err(Refusal::NoWay(k));
    };
    if !ground::standable(p, v, x) {
        return Err(Refusal::NoWay(k));
    }
    let f = forces::force_of(p, v, u);
    let marks = paint::look(p, v, f, x);
    if bits::has(paint::ENEMY, marks) {
        return Err(Refusal::EnemyThere(k));
    }
    if neutral_there(p, v, f, x, marks) {
        return Err(Refusal::NeutralThere(k));
    }
    let total = spent + step_cost(p, v, at, x, d);
    if allowed(p, v, u) < total {
        return Err(Refusal::OverAllowance(k));
    }
    Ok((total, bits::has(paint::ZONE, marks)))
}
