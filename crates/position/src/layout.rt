// Where each number of a position stands: the one file of the code that knows the format.
ghost use Rattle.std.specs.Prelude.{◌≡◌, ◌+◌, ◌*◌, ◌<◌, ◌≤◌, length};
ghost use Rattle.position.specs.Layout.{terrain_size, column_size, hex_size, unit_size, players_field, chart_at};
ghost use Rattle.position.specs.Layout.{word, cell, players_named, chart_byte, column_byte, hex_byte, unit_byte, desk_byte, set_unit, set_desk};
ghost use Rattle.position.specs.Laid.{Laid, Read};

use crate::View;

// The number that stands for no hex.
pub const NOWHERE: usize = 65535;

// The bodies, by their place in the contents; how long an entry is there, and where it has its body's length.
pub const CHART_BODY: usize = 0;

pub const RESULTS_BODY: usize = 1;

pub const MAP_BODY: usize = 2;

pub const UNITS_BODY: usize = 3;

pub const DESK_BODY: usize = 4;

pub const ENTRY_SIZE: usize = 4;

pub const EXTENT: usize = 2;

const DESK_EXTENT: usize = ENTRY_SIZE * DESK_BODY + EXTENT;

// Where the first two bodies begin, and how long the chart is.
pub const CHART: usize = 20;

pub const CHART_LENGTH: usize = 36;

pub const RESULTS: usize = 56;

// What stands before the records of a body, how long a record is, and how many units there may be.
pub const RESULTS_HEAD: usize = 1;

pub const MAP_HEAD: usize = 2;

pub const UNITS_HEAD: usize = 2;

pub const CHART_ROWS: usize = 18;

pub const TERRAIN_SIZE: usize = 2;

pub const COLUMN_SIZE: usize = 8;

pub const HEX_SIZE: usize = 5;

pub const UNIT_SIZE: usize = 8;

pub const MOST_UNITS: usize = 400;

// How many routes the desk keeps and how many hexes are in one; how long a route is, and a number of it.
pub const ROUTE_COUNT: usize = 6;

pub const ROUTE_HEXES: usize = 4;

pub const ROUTE_SIZE: usize = 8;

pub const PLACE_SIZE: usize = 2;

// How many forces the desk names the players of, if it does.
pub const FORCES: usize = 4;

// The records of the two river sides stand behind those of the terrains.
pub const RIVER: usize = 16;

pub const MAJOR_RIVER: usize = 17;

// The fields of a terrain's record, of a column's with the faces of a die, of the map's head, of a hex's, of a unit's and of the desk.
pub const COST: usize = 0;

pub const MULTIPLE: usize = 1;

pub const ATTACK: usize = 0;

pub const DEFENCE: usize = 1;

pub const CODES: usize = 1;

pub const DIE_FACES: usize = 6;

pub const WIDTH: usize = 0;

pub const HEIGHT: usize = 1;

pub const TERRAIN: usize = 0;

pub const SURFACE: usize = 1;

pub const FLAGS: usize = 2;

pub const COUNTRY: usize = 3;

pub const SIDES: usize = 4;

pub const NATIONALITY: usize = 0;

pub const KIND: usize = 1;

pub const HEX: usize = 2;

pub const STRENGTH: usize = 4;

pub const ALLOWANCE: usize = 5;

pub const MARKS: usize = 6;

pub const ROLE: usize = 7;

pub const TURN: usize = 0;

pub const LAST_TURN: usize = 1;

pub const FORCE: usize = 2;

pub const PHASE: usize = 3;

pub const STAGE: usize = 4;

pub const OWED: usize = 5;

pub const NEED: usize = 6;

pub const ROUTES: usize = 8;

pub const PLAYERS: usize = 56;

pub fn wide(x: u8) -> usize
    ensures { Read x 256 result }
{
    x as usize
}

// The 16-bit number at `at`.
pub fn word(p: &[u8], at: usize) -> usize
    requires { at + 1 < length p.now }
    ensures { Read (word p.now at) 65536 result }
{
    wide(p[at]) + 256 * wide(p[at + 1])
}

// How many players the desk names: its length in the contents tells.
pub fn players_named(p: &[u8]) -> usize
    requires { chart_at ≤ length p.now }
    ensures { result ≡ players_named p.now }
{
    if word(p, DESK_EXTENT) == PLAYERS + FORCES {
        return FORCES;
    }
    0
}

// Byte `f` of record `k`, in a table of `n` records of `size` bytes that begins at `start`; 0 past its last record.
fn cell(p: &[u8], start: usize, size: usize, n: usize, k: usize, f: usize) -> usize
    requires { (f < size) × (start + size * n ≤ length p.now) }
    ensures { Read (cell p.now start size n k f) 256 result }
{
    if n <= k {
        return 0;
    }
    wide(p[start + size * k + f])
}

pub fn chart_byte(p: &[u8], v: View, t: usize, f: usize) -> usize
    requires { Laid p.now v × (f < terrain_size) }
    ensures { Read (chart_byte p.now t f) 256 result }
{
    cell(p, CHART, TERRAIN_SIZE, CHART_ROWS, t, f)
}

pub fn column_byte(p: &[u8], v: View, c: usize, f: usize) -> usize
    requires { Laid p.now v × (f < column_size) }
    ensures { Read (column_byte p.now c f) 256 result }
{
    cell(p, RESULTS + RESULTS_HEAD, COLUMN_SIZE, v.columns, c, f)
}

pub fn hex_byte(p: &[u8], v: View, h: usize, f: usize) -> usize
    requires { Laid p.now v × (f < hex_size) }
    ensures { Read (hex_byte p.now h f) 256 result }
{
    cell(
        p,
        RESULTS + RESULTS_HEAD + COLUMN_SIZE * v.columns + MAP_HEAD,
        HEX_SIZE,
        v.hexes,
        h,
        f,
    )
}

// The same of a hex that is known to be on the map.
pub fn map_byte(p: &[u8], v: View, h: usize, f: usize) -> usize
    requires { Laid p.now v × (f < hex_size) × (h < v.hexes) }
    ensures { Read (hex_byte p.now h f) 256 result }
{
    let hexes = RESULTS + RESULTS_HEAD + COLUMN_SIZE * v.columns + MAP_HEAD;
    wide(p[hexes + HEX_SIZE * h + f])
}

pub fn unit_byte(p: &[u8], v: View, u: usize, f: usize) -> usize
    requires { Laid p.now v × (f < unit_size) }
    ensures { Read (unit_byte p.now u f) 256 result }
{
    cell(p, v.units + UNITS_HEAD, UNIT_SIZE, v.count, u, f)
}

pub fn desk_byte(p: &[u8], v: View, f: usize) -> usize
    requires { Laid p.now v × (f < players_field + v.players) }
    ensures { Read (desk_byte p.now f) 256 result }
{
    let at = v.desk + f;
    wide(p[at])
}

// Byte `f` of unit `u` becomes `x`; nothing changes where there is no such unit.
pub fn set_unit(p: &mut [u8], v: View, u: usize, f: usize, x: usize)
    requires { Laid p.old v × (f < unit_size) × (x < 256) }
    ensures { p.new ≡ set_unit p.old u f x }
{
    let count = v.count;
    if u < count {
        let at = v.units + UNITS_HEAD + UNIT_SIZE * u + f;
        p[at] = x as u8;
    }
}

// Byte `f` of the desk becomes `x`.
pub fn set_desk(p: &mut [u8], v: View, f: usize, x: usize)
    requires { Laid p.old v × (f < players_field) × (x < 256) }
    ensures { p.new ≡ set_desk p.old f x }
{
    let at = v.desk + f;
    p[at] = x as u8;
}
