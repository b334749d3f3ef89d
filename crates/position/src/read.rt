// The numbers of a checked position, by name. Past the end of a table every number is 0, and every hex 65535.
ghost use Rattle.std.specs.Prelude.{◌<◌};
ghost use Rattle.position.specs.Layout.{
  cost,
  multiple,
  attack_odds,
  defence_odds,
  code,
  terrain,
  surface,
  flags,
  country,
  sides,
  nationality,
  kind,
  hex,
  strength,
  allowance,
  marks,
  role,
  turn,
  last_turn,
  phasing,
  phase,
  stage,
  owed,
  need,
  route,
};
ghost use Rattle.position.specs.Board.{shown};
ghost use Rattle.position.specs.Laid.{Laid, Read};

use crate::{View, bits, layout};

// The cost of a terrain; the extra cost of a river for 16 and of a major river for 17.
pub fn cost(p: &[u8], v: View, t: usize) -> usize
    requires { Laid p.now v }
    ensures { Read (cost p.now t) 256 result }
{
    layout::chart_byte(p, v, t, layout::COST)
}

pub fn multiple(p: &[u8], v: View, t: usize) -> usize
    requires { Laid p.now v }
    ensures { Read (multiple p.now t) 256 result }
{
    layout::chart_byte(p, v, t, layout::MULTIPLE)
}

// The odds of a column of the results, counted from 0: a to d.
pub fn attack_odds(p: &[u8], v: View, c: usize) -> usize
    requires { Laid p.now v }
    ensures { Read (attack_odds p.now c) 256 result }
{
    layout::column_byte(p, v, c, layout::ATTACK)
}

pub fn defence_odds(p: &[u8], v: View, c: usize) -> usize
    requires { Laid p.now v }
    ensures { Read (defence_odds p.now c) 256 result }
{
    layout::column_byte(p, v, c, layout::DEFENCE)
}

// The result code of a column for a die of 1 to 6; 0 for any other.
pub fn code(p: &[u8], v: View, c: usize, die: usize) -> usize
    requires { Laid p.now v }
    ensures { Read (code p.now c die) 256 result }
{
    if die <= 0 {
        return 0;
    }
    if 7 <= die {
        return 0;
    }
    layout::column_byte(p, v, c, layout::CODES + die)
}

pub fn terrain(p: &[u8], v: View, h: usize) -> usize
    requires { Laid p.now v }
    ensures { Read (terrain p.now h) 256 result }
{
    layout::hex_byte(p, v, h, layout::TERRAIN)
}

pub fn surface(p: &[u8], v: View, h: usize) -> usize
    requires { Laid p.now v }
    ensures { Read (surface p.now h) 256 result }
{
    layout::hex_byte(p, v, h, layout::SURFACE)
}

pub fn flags(p: &[u8], v: View, h: usize) -> usize
    requires { Laid p.now v }
    ensures { Read (flags p.now h) 256 result }
{
    layout::hex_byte(p, v, h, layout::FLAGS)
}

pub fn country(p: &[u8], v: View, h: usize) -> usize
    requires { Laid p.now v }
    ensures { Read (country p.now h) 256 result }
{
    layout::hex_byte(p, v, h, layout::COUNTRY)
}

pub fn sides(p: &[u8], v: View, h: usize) -> usize
    requires { Laid p.now v }
    ensures { Read (sides p.now h) 256 result }
{
    layout::hex_byte(p, v, h, layout::SIDES)
}

pub fn nationality(p: &[u8], v: View, u: usize) -> usize
    requires { Laid p.now v }
    ensures { Read (nationality p.now u) 256 result }
{
    layout::unit_byte(p, v, u, layout::NATIONALITY)
}

pub fn kind(p: &[u8], v: View, u: usize) -> usize
    requires { Laid p.now v }
    ensures { Read (kind p.now u) 256 result }
{
    layout::unit_byte(p, v, u, layout::KIND)
}

// Where a unit stands, 65535 if it is destroyed.
pub fn hex(p: &[u8], v: View, u: usize) -> usize
    requires { Laid p.now v }
    ensures { Read (hex p.now u) 65536 result }
{
    let count = v.count;
    if count <= u {
        return layout::NOWHERE;
    }
    layout::unit_byte(p, v, u, layout::HEX) + 256 * layout::unit_byte(p, v, u, layout::HEX + 1)
}

pub fn strength(p: &[u8], v: View, u: usize) -> usize
    requires { Laid p.now v }
    ensures { Read (strength p.now u) 256 result }
{
    layout::unit_byte(p, v, u, layout::STRENGTH)
}

pub fn allowance(p: &[u8], v: View, u: usize) -> usize
    requires { Laid p.now v }
    ensures { Read (allowance p.now u) 256 result }
{
    layout::unit_byte(p, v, u, layout::ALLOWANCE)
}

pub fn marks(p: &[u8], v: View, u: usize) -> usize
    requires { Laid p.now v }
    ensures { Read (marks p.now u) 256 result }
{
    layout::unit_byte(p, v, u, layout::MARKS)
}

pub fn role(p: &[u8], v: View, u: usize) -> usize
    requires { Laid p.now v }
    ensures { Read (role p.now u) 256 result }
{
    layout::unit_byte(p, v, u, layout::ROLE)
}

// The strength of a unit that is tried, else 0.
pub fn shown(p: &[u8], v: View, u: usize) -> usize
    requires { Laid p.now v }
    ensures { Read (shown p.now u) 256 result }
{
    if bits::has(bits::TRIED, marks(p, v, u)) {
        return strength(p, v, u);
    }
    0
}

pub fn turn(p: &[u8], v: View) -> usize
    requires { Laid p.now v }
    ensures { Read (turn p.now) 256 result }
{
    layout::desk_byte(p, v, layout::TURN)
}

pub fn last_turn(p: &[u8], v: View) -> usize
    requires { Laid p.now v }
    ensures { Read (last_turn p.now) 256 result }
{
    layout::desk_byte(p, v, layout::LAST_TURN)
}

// The force that moves and attacks now.
pub fn phasing(p: &[u8], v: View) -> usize
    requires { Laid p.now v }
    ensures { Read (phasing p.now) 256 result }
{
    layout::desk_byte(p, v, layout::FORCE)
}

pub fn phase(p: &[u8], v: View) -> usize
    requires { Laid p.now v }
    ensures { Read (phase p.now) 256 result }
{
    layout::desk_byte(p, v, layout::PHASE)
}

pub fn stage(p: &[u8], v: View) -> usize
    requires { Laid p.now v }
    ensures { Read (stage p.now) 256 result }
{
    layout::desk_byte(p, v, layout::STAGE)
}

pub fn owed(p: &[u8], v: View) -> usize
    requires { Laid p.now v }
    ensures { Read (owed p.now) 256 result }
{
    layout::desk_byte(p, v, layout::OWED)
}

pub fn need(p: &[u8], v: View) -> usize
    requires { Laid p.now v }
    ensures { Read (need p.now) 65536 result }
{
    layout::desk_byte(p, v, layout::NEED) + 256 * layout::desk_byte(p, v, layout::NEED + 1)
}

// Number `j` of route `r`, 65535 if it is empty.
pub fn route(p: &[u8], v: View, r: usize, j: usize) -> usize
    requires { Laid p.now v }
    ensures { Read (route p.now r j) 65536 result }
{
    if layout::ROUTE_COUNT <= r {
        return layout::NOWHERE;
    }
    if layout::ROUTE_HEXES <= j {
        return layout::NOWHERE;
    }
    let at = layout::ROUTES + layout::ROUTE_SIZE * r + layout::PLACE_SIZE * j;
    layout::desk_byte(p, v, at) + 256 * layout::desk_byte(p, v, at + 1)
}
