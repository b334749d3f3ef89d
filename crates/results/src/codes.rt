// What a result code does to the two sides and to the desk.
ghost use Rattle.std.specs.Prelude.{◌≡◌};
ghost use Rattle.results.specs.Results.{comes_to, upshot, need_of};

use crate::Upshot;
use position::{role, stage};

// What becomes of a side: it is destroyed, it owes, or it may advance.
pub const LOST: usize = 0;

// The result codes: up to D3, up to A3, and those that destroy; what is left is Ax.
const D3: usize = 3;

const A3: usize = 6;

const AE: usize = 7;

const DE: usize = 8;

const DX: usize = 9;

// What becomes of the sides, the stage that follows, and the length of the retreats.
fn fate(attackers: usize, defenders: usize, stage: usize, owed: usize) -> Upshot
    ensures { result ≡ comes_to attackers defenders stage owed }
{
    Upshot {
        attackers,
        defenders,
        stage,
        owed,
    }
}

// What a result code does to the two sides and to the desk.
pub fn upshot(code: usize) -> Upshot
    ensures { result ≡ upshot code }
{
    if code <= D3 {
        return fate(role::ADVANCES, role::OWES, stage::RETREATS, code);
    }
    if code <= A3 {
        return fate(role::OWES, role::ADVANCES, stage::RETREATS, code - D3);
    }
    if code == AE {
        return fate(LOST, role::ADVANCES, stage::ADVANCES, 0);
    }
    if code == DE {
        return fate(role::ADVANCES, LOST, stage::ADVANCES, 0);
    }
    if code == DX {
        return fate(role::OWES, LOST, stage::LOSSES, 0);
    }
    fate(LOST, role::OWES, stage::LOSSES, 0)
}

// What the other side owes in an exchange: the printed total of the destroyed side.
pub fn need_of(o: Upshot, attack: usize, defence: usize) -> usize
    ensures { result ≡ need_of o attack defence }
{
    let stage = o.stage;
    if stage != stage::LOSSES {
        return 0;
    }
    let attackers = o.attackers;
    if attackers == LOST {
        return attack;
    }
    defence
}
