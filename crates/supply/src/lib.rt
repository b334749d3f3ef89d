// Supply: which hexes are open for a nationality, which are its sources, and from which a chain leads to one; the supply call.
#![tactic(auto)]

mod grade;

ghost use Rattle.std.specs.Prelude.{◌≡◌, ◌<◌, length};
ghost use Rattle.position.specs.Board.{board};
ghost use Rattle.position.specs.Laid.{Laid};
ghost use Rattle.ruling.specs.Verdict.{Met};
ghost use Rattle.ruling.specs.Answers.{answer_as};
ghost use Rattle.field.specs.Scene.{scene};
ghost use Rattle.position.specs.Kind.{us, canada};
ghost use Rattle.supply.specs.Graded.{Grades};
ghost use Rattle.supply.specs.Traced.{Traced};
ghost use Rattle.supply.specs.Supply.{supply_map, supply_rule};

use grid::region;
use position::{View, kind};
use ruling::Refusal;

// The grades of the hexes for nationality `n`, whatever the buffer held.
fn grades(p: &[u8], v: View, n: usize, out: &mut [u8])
    requires { Laid p.now v × (length out.old ≡ v.hexes) }
    ensures { Grades (scene (board p.now)) n out.new }
{
    let at = region::whole(v.width, v.height);
    paint::paint(p, v, at, kind::force(n), out);
    grade::grade(p, v, out, n);
}

// 1 for each hex that is supplied for nationality `n` and 0 for each other, whatever the buffer held.
pub fn fill(p: &[u8], v: View, n: usize, out: &mut [u8])
    requires { Laid p.now v × (length out.old ≡ v.hexes) }
    ensures { out.new ≡ supply_map (scene (board p.now)) n }
{
    grades(p, v, n, out);
    walking::walk(p, v, out);
}

// 2 or more for each hex that is supplied for nationality `n`, 1 for each other that is open, and 0 for each that is closed.
pub fn trace(p: &[u8], v: View, n: usize, out: &mut [u8])
    requires { Laid p.now v × (length out.old ≡ v.hexes) }
    ensures { Traced (scene (board p.now)) n out.new }
{
    grades(p, v, n, out);
    walking::reach(p, v, out);
}

// The same for Canada, in a buffer that holds it for the US: they are one force, so that only the sources differ.
pub fn retrace(p: &[u8], v: View, out: &mut [u8])
    requires { Laid p.now v × Traced (scene (board p.now)) us out.old }
    ensures { Traced (scene (board p.now)) canada out.new }
{
    grade::regrade(p, v, out);
    walking::reach(p, v, out);
}

// The supply call on a checked position: 1 or 0 per hex for a nationality, into a buffer of exactly width x height bytes.
pub fn supply(p: &[u8], v: View, nationality: usize, out: &mut [u8]) -> Result<(), Refusal>
    requires { Laid p.now v }
    ensures { Met p.now out.old (supply_rule (board p.now) nationality (length out.old)) (answer_as result) p.now out.new }
{
    let hexes = v.hexes;
    if out.len() != hexes {
        return Err(Refusal::OutOfRange(0));
    }
    if kind::CANADA < nationality {
        return Err(Refusal::OutOfRange(0));
    }
    fill(p, v, nationality, out);
    Ok(())
}
