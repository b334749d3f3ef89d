// Whether chart and results keep their lines of document 01.
ghost use Rattle.std.specs.Prelude.{ℕ, ◌+◌, ◌<◌};
ghost use Rattle.position.specs.Layout.{die_faces};
ghost use Rattle.position.specs.Board.{chart, results};
ghost use Rattle.position.specs.Shape.{In};
ghost use Rattle.setting.specs.Setting.{TerrainOk, ChartOk, ColumnOk, RisingOk, ResultsOk};
ghost use Rattle.position.specs.Laid.{Laid, Says};

use position::{View, layout, read};

fn terrain_ok(p: &[u8], v: View, t: usize) -> bool
    requires { Laid p.now v }
    ensures { Says result (TerrainOk (chart p.now) t) }
{
    read::cost(p, v, t) <= 9 && shape::within(1, read::multiple(p, v, t), 4)
}

pub fn chart_ok(p: &[u8], v: View) -> bool
    requires { Laid p.now v }
    ensures { Says result (ChartOk (chart p.now)) }
{
    (0..layout::CHART_ROWS).all(|t| terrain_ok(p, v, t))
}

// The six codes of a column.
fn codes_ok(p: &[u8], v: View, c: usize) -> bool
    requires { Laid p.now v }
    ensures { Says result ((die : ℕ) → die < die_faces → In 1 ((results p.now).code c (die + 1)) 10) }
{
    (0..layout::DIE_FACES).all(|die| shape::within(1, read::code(p, v, c, die + 1), 10))
}

fn column_ok(p: &[u8], v: View, c: usize) -> bool
    requires { Laid p.now v }
    ensures { Says result (ColumnOk (results p.now) c) }
{
    shape::within(1, read::attack_odds(p, v, c), 20)
        && shape::within(1, read::defence_odds(p, v, c), 20)
        && codes_ok(p, v, c)
}

fn columns_ok(p: &[u8], v: View) -> bool
    requires { Laid p.now v }
    ensures { Says result ((c : ℕ) → c < (results p.now).columns → ColumnOk (results p.now) c) }
{
    (0..v.columns).all(|c| column_ok(p, v, c))
}

// The ratio grows from column `c` to the next, by cross product.
fn rising_ok(p: &[u8], v: View, c: usize) -> bool
    requires { Laid p.now v × (c < 12) }
    ensures { Says result (RisingOk (results p.now) c) }
{
    let here = read::attack_odds(p, v, c) * read::defence_odds(p, v, c + 1);
    let there = read::attack_odds(p, v, c + 1) * read::defence_odds(p, v, c);
    here < there
}

fn risings_ok(p: &[u8], v: View) -> bool
    requires { Laid p.now v }
    ensures { Says result ((c : ℕ) → c + 1 < (results p.now).columns → RisingOk (results p.now) c) }
{
    (0..v.columns.saturating_sub(1)).all(|c| rising_ok(p, v, c))
}

pub fn results_ok(p: &[u8], v: View) -> bool
    requires { Laid p.now v }
    ensures { Says result (ResultsOk (results p.now)) }
{
    columns_ok(p, v) && risings_ok(p, v)
}
