// Whether the stage keeps its lines of the documents, and what it asks of roles and routes.
#![tactic(auto)]

ghost use Rattle.std.specs.Prelude.{◌≡◌};
ghost use Rattle.position.specs.Stage as Stage;
ghost use Rattle.position.specs.Board.{board, desk};
ghost use Rattle.acceptance.specs.Accepted.{QuietOk, RetreatsOk, LossesOk, AdvancesOk, DuringOk, StageOk};
ghost use Rattle.position.specs.Laid.{Laid, Says};

mod owing;

use position::{View, layout, read, role, stage};

fn quiet_ok(p: &[u8], v: View) -> bool
    requires { Laid p.now v }
    ensures { Says result (QuietOk (board p.now)) }
{
    crowd::holders(p, v, role::OWES) == 0
        && crowd::holders(p, v, role::ADVANCES) == 0
        && crowd::routes(p, v) == 0
}

fn retreats_ok(p: &[u8], v: View) -> bool
    requires { Laid p.now v }
    ensures { Says result (RetreatsOk (board p.now)) }
{
    if !shape::within(1, read::owed(p, v), 3) {
        return false;
    }
    let k = owing::owing_hexes(p, v);
    0 < k && k + crowd::routes(p, v) <= layout::ROUTE_COUNT
}

fn losses_ok(p: &[u8], v: View) -> bool
    requires { Laid p.now v }
    ensures { Says result (LossesOk (board p.now)) }
{
    shape::within(1, read::need(p, v), 1080)
        && shape::within(1, crowd::holders(p, v, role::OWES), 18)
        && crowd::holders(p, v, role::ADVANCES) == 0
}

fn advances_ok(p: &[u8], v: View) -> bool
    requires { Laid p.now v }
    ensures { Says result (AdvancesOk (board p.now)) }
{
    crowd::holders(p, v, role::ADVANCES) != 0 && crowd::holders(p, v, role::OWES) == 0
}

// What the stage asks of n: 0 everywhere but in stage 1.
fn owed_ok(p: &[u8], v: View) -> bool
    requires { Laid p.now v }
    ensures { Says result (((desk p.now).battle.stage ≡ Stage.retreats → ⊥) → (desk p.now).battle.owed ≡ 0) }
{
    read::stage(p, v) == stage::RETREATS || read::owed(p, v) == 0
}

// What the stage asks of need: 0 everywhere but in stage 2.
fn need_ok(p: &[u8], v: View) -> bool
    requires { Laid p.now v }
    ensures { Says result (((desk p.now).battle.stage ≡ Stage.losses → ⊥) → (desk p.now).battle.need ≡ 0) }
{
    read::stage(p, v) == stage::LOSSES || read::need(p, v) == 0
}

// What the stage asks of roles and routes.
fn during_ok(p: &[u8], v: View) -> bool
    requires { Laid p.now v }
    ensures { Says result (DuringOk (board p.now)) }
{
    match read::stage(p, v) {
        stage::QUIET => quiet_ok(p, v),
        stage::RETREATS => retreats_ok(p, v),
        stage::LOSSES => losses_ok(p, v),
        stage::ADVANCES => advances_ok(p, v),
        _ => true,
    }
}

pub fn stage_ok(p: &[u8], v: View) -> bool
    requires { Laid p.now v }
    ensures { Says result (StageOk (board p.now)) }
{
    owed_ok(p, v) && need_ok(p, v) && during_ok(p, v)
}
