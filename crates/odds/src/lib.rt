// The odds: what multiplies the defence, and the column of the results.
#![tactic(auto)]

ghost use Rattle.std.specs.Prelude.{◌≡◌, map, ◌<◌, ◌≤◌, length};
ghost use Rattle.position.specs.Board.{board, chart, results, ground};
ghost use Rattle.position.specs.Laid.{Laid, Read};
ghost use Rattle.odds.specs.Odds.{side_multiple, crossed, smallest, multiple_at, reached, column};
ghost use Rattle.odds.specs.Adjacent.{Adjacent, AllAdjacent};

use position::{View, layout, read};

// What a side without a river multiplies: nothing, less than any river.
const NO_RIVER: usize = 0;

fn side_multiple(p: &[u8], v: View, s: usize) -> usize
    requires { Laid p.now v }
    ensures { Read (side_multiple (chart p.now) s) 256 result }
{
    if s == ground::RIVER {
        return read::multiple(p, v, layout::RIVER);
    }
    if s == ground::MAJOR_RIVER {
        return read::multiple(p, v, layout::MAJOR_RIVER);
    }
    NO_RIVER
}

// The multiple that unit `u`, which stands beside the target, crosses to it.
fn crossed(p: &[u8], v: View, target: usize, u: usize) -> usize
    requires { Laid p.now v × Adjacent (board p.now) target u }
    ensures { Read (crossed (board p.now) target u) 256 result }
{
    let h = read::hex(p, v, u);
    let d = ground::bearing(p, v, h, target).unwrap();
    side_multiple(p, v, ground::side(p, v, h, d))
}

// The smallest multiple that the attackers cross.
fn smallest(p: &[u8], v: View, target: usize, units: &[u16]) -> usize
    requires { Laid p.now v × (1 ≤ length units.now) × AllAdjacent (board p.now) target units.now }
    ensures { Read (smallest (map (crossed (board p.now) target) units.now)) 256 result }
{
    let mut low = crossed(p, v, target, units[0] as usize);
    for &u in &units[1..] {
        low = low.min(crossed(p, v, target, u as usize));
    }
    low
}

// What multiplies the defence: the larger of the terrain's multiple and the smallest that the attackers cross.
pub fn multiple_at(p: &[u8], v: View, target: usize, units: &[u16]) -> usize
    requires { Laid p.now v × (1 ≤ length units.now) × AllAdjacent (board p.now) target units.now }
    ensures { Read (multiple_at (board p.now) target units.now) 256 result }
{
    let terrain = read::multiple(p, v, read::terrain(p, v, target));
    terrain.max(smallest(p, v, target, units))
}

// Whether the odds reach column `c`.
fn reached(p: &[u8], v: View, attack: usize, defence: usize, c: usize) -> bool
    requires { Laid p.now v × (attack < 16777216) × (defence < 16777216) }
    ensures { result ≡ reached (results p.now) attack defence c }
{
    read::attack_odds(p, v, c) * defence <= attack * read::defence_odds(p, v, c)
}

// The last column that the odds reach, else the first; counted from 0.
pub fn column(p: &[u8], v: View, attack: usize, defence: usize) -> usize
    requires { Laid p.now v × (attack < 16777216) × (defence < 16777216) }
    ensures { Read (column (results p.now) attack defence) 256 result }
{
    let columns = v.columns;
    let mut last = 0;
    for c in 0..columns {
        if reached(p, v, attack, defence, c) {
            last = c;
        }
    }
    last
}
