// Friends near the start of a retreat, who might be pushed out of its road.
ghost use Rattle.std.specs.Prelude.{◌≡◌, ◌<◌, length, set};
ghost use Rattle.position.specs.Tally.{any};
ghost use Rattle.routes.specs.Outlook.{friendly, friendly_at};

use position::{bits, layout};

// Whether a hex with the marks `m` may hold a stack that can be pushed: friends and no supply unit of theirs, outside Enemy zones.
#[tactic(auto, unfolding(routes::specs::Outlook::friendly))]
fn friendly(m: usize) -> bool
    ensures { result ≡ friendly m }
{
    if !bits::has(paint::OWN, m) {
        return false;
    }
    if bits::has(paint::DEPOT, m) {
        return false;
    }
    !bits::has(paint::ZONE, m)
}

// Whether a place of the window shows such a hex. All are looked at: that is faster than to stop at the first.
fn any_friendly(painted: &[u8]) -> bool
    requires { length painted.now ≡ 56 }
    ensures { result ≡ any (friendly_at painted.now) 56 }
{
    painted
        .iter()
        .fold(false, |found, m| friendly(layout::wide(*m)) | found)
}

// Whether a place other than `home` does: the start's own, which no route enters, is blotted out first.
pub fn near(painted: &mut [u8], home: usize) -> bool
    requires { (length painted.old ≡ 56) × (home < 56) }
    ensures { result ≡ any (friendly_at (set painted.old home 0)) 56 }
{
    painted[home] = 0;
    any_friendly(painted)
}
