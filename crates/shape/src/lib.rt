// The contents: five entries, and the bodies that they name, without gap or tail.
#![tactic(auto)]

ghost use Rattle.std.specs.Prelude.{◌≡◌, ◌+◌, ◌*◌, ◌<◌, ◌≤◌, length};
ghost use Rattle.position.specs.Layout.{desk_body, chart_at, columns, width, height};
ghost use Rattle.position.specs.Shape.{In, Entry};
ghost use Rattle.position.specs.Laid.{LaidOf, SizedOf, Says};

use position::{View, layout};

// The units' count, and the whole: what the columns and the map leave to ask.
fn with_units(p: &[u8], cols: usize, wide: usize, high: usize) -> Option<View>
    requires cols_value { (cols ≡ columns p.now) × In 1 cols 12 }
    requires wide_value { (wide ≡ width p.now) × In 1 wide 64 }
    requires high_value { (high ≡ height p.now) × In 1 high 64 }
    ensures { SizedOf p.now result }
{
    let hexes = wide * high;
    let units = layout::RESULTS
        + layout::RESULTS_HEAD
        + layout::COLUMN_SIZE * cols
        + layout::MAP_HEAD
        + layout::HEX_SIZE * hexes;
    if p.len() < units + layout::UNITS_HEAD {
        return None;
    }
    let count = layout::word(p, units);
    if layout::MOST_UNITS < count {
        return None;
    }
    let desk = units + layout::UNITS_HEAD + layout::UNIT_SIZE * count;
    let players = layout::players_named(p);
    if p.len() != desk + layout::PLAYERS + players {
        return None;
    }
    Some(View {
        width: wide,
        height: high,
        hexes,
        columns: cols,
        count,
        units,
        desk,
        players,
    })
}

// The map's width and height, and what follows them.
fn with_map(p: &[u8], cols: usize) -> Option<View>
    requires { (cols ≡ columns p.now) × In 1 cols 12 }
    ensures { SizedOf p.now result }
{
    let map = layout::RESULTS + layout::RESULTS_HEAD + layout::COLUMN_SIZE * cols;
    if p.len() < map + layout::MAP_HEAD {
        return None;
    }
    let wide = layout::wide(p[map + layout::WIDTH]);
    let high = layout::wide(p[map + layout::HEIGHT]);
    if !within(1, wide, 64) {
        return None;
    }
    if !within(1, high, 64) {
        return None;
    }
    with_units(p, cols, wide, high)
}

// Whether n is lo..hi.
pub fn within(lo: usize, n: usize, hi: usize) -> bool
    ensures { Says result (In lo n hi) }
{
    if n < lo {
        return false;
    }
    if hi < n {
        return false;
    }
    true
}

// The counts that the bodies hold, each within its limits; the bodies that they ask for fill the position.
fn sized(p: &[u8]) -> Option<View>
    ensures { SizedOf p.now result }
{
    if p.len() < layout::RESULTS + layout::RESULTS_HEAD {
        return None;
    }
    let cols = layout::wide(p[layout::RESULTS]);
    if !within(1, cols, 12) {
        return None;
    }
    with_map(p, cols)
}

// Whether entry `k` of the contents names a body that begins at `at` and is `long` bytes long.
fn entry(p: &[u8], k: usize, at: usize, long: usize) -> bool
    requires { (k ≤ desk_body) × (chart_at ≤ length p.now) }
    ensures { Says result (Entry p.now k at long) }
{
    if layout::word(p, layout::ENTRY_SIZE * k) != at {
        return false;
    }
    if layout::word(p, layout::ENTRY_SIZE * k + layout::EXTENT) != long {
        return false;
    }
    true
}

// The view of a position whose bodies lie as they should.
pub fn shape(p: &[u8]) -> Option<View>
    ensures { LaidOf p.now result }
{
    let v = sized(p)?;
    if !entry(p, layout::CHART_BODY, layout::CHART, layout::CHART_LENGTH) {
        return None;
    }
    if !entry(
        p,
        layout::RESULTS_BODY,
        layout::RESULTS,
        layout::RESULTS_HEAD + layout::COLUMN_SIZE * v.columns,
    ) {
        return None;
    }
    if !entry(
        p,
        layout::MAP_BODY,
        layout::RESULTS + layout::RESULTS_HEAD + layout::COLUMN_SIZE * v.columns,
        layout::MAP_HEAD + layout::HEX_SIZE * v.hexes,
    ) {
        return None;
    }
    if !entry(
        p,
        layout::UNITS_BODY,
        v.units,
        layout::UNITS_HEAD + layout::UNIT_SIZE * v.count,
    ) {
        return None;
    }
    if !entry(p, layout::DESK_BODY, v.desk, layout::PLAYERS + v.players) {
        return None;
    }
    Some(v)
}
