// The questions of a retreat in their order, before those of its route and pushes.
ghost use Rattle.std.specs.Prelude.{◌≡◌};
ghost use Rattle.position.specs.Tally.{any};
ghost use Rattle.position.specs.Board.{board};
ghost use Rattle.position.specs.Crowd.{owes_at};
ghost use Rattle.position.specs.Laid.{Laid};
ghost use Rattle.ruling.specs.Judged.{TestedOf};
ghost use Rattle.retreat.specs.Retreat.{RetreatNow, group_checks};

use field::listed;
use position::{View, read, stage};
use ruling::Refusal;
use shoves::group;

// Whether a unit owes in hex `h`.
fn any_owes(p: &[u8], v: View, h: usize) -> bool
    requires { Laid p.now v }
    ensures { result ≡ any (owes_at (board p.now) h) (board p.now).units.count }
{
    (0..v.count).any(|u| group::owes_at(p, v, h, u))
}

// The questions of a retreat before those of its route and pushes: 3, 2, 4. Places are counted on through both lists.
pub fn judge_group(
    p: &[u8],
    v: View,
    h: usize,
    route: &[u16],
    pushes: &[u16],
) -> Result<(), Refusal>
    requires { Laid p.now v }
    ensures { TestedOf p.now (group_checks (board p.now) h route.now pushes.now) (RetreatNow (board p.now) h) result }
{
    if 3 < route.len() {
        return Err(Refusal::OutOfRange(0));
    }
    if 9 < pushes.len() {
        return Err(Refusal::OutOfRange(0));
    }
    let hexes = v.hexes;
    if hexes <= h {
        return Err(Refusal::OutOfRange(0));
    }
    listed::on_map_all(p, v, route)?;
    listed::on_map_from(p, v, pushes, route.len() + 1)?;
    if read::stage(p, v) != stage::RETREATS {
        return Err(Refusal::Untimely);
    }
    if !any_owes(p, v, h) {
        return Err(Refusal::WrongUnit(0));
    }
    Ok(())
}
