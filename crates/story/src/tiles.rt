// A hex on the map of text: number, surface, prohibited terrain, port, urban, supply, whether it is supplied, and a letter for each unit there.
ghost use Rattle.position.specs.Board.{board};
ghost use Rattle.position.specs.Laid.{Laid};
ghost use Rattle.story.specs.Look.{TileOf};

use page::Page;
use position::{View, bits, read};
use wording::names;

// The signs of land, coast, sea and lake.
const SURFACES: [u8; 4] = *b".:~o";

// How many units a hex has room for.
const UNITS: usize = 4;

// What is said of a hex: how many units stand there, and the cost of its terrain, 0 if it is prohibited.
#[derive(Clone, Copy)]
pub struct Tile {
    pub number: usize,
    pub surface: usize,
    pub terrain: usize,
    pub cost: usize,
    pub flags: usize,
    pub crowd: usize,
}

impl Tile {
    // Hex `h` of the board.
    fn of(p: &[u8], v: View, h: usize) -> Tile
        requires { Laid p.now v }
        ensures { TileOf (board p.now) h result }
    {
        let terrain = read::terrain(p, v, h);
        Tile {
            number: h,
            surface: read::surface(p, v, h),
            terrain,
            cost: read::cost(p, v, terrain),
            flags: read::flags(p, v, h),
            crowd: crowd::crowd(p, v, h),
        }
    }

    // Its number and its ground.
    fn ground(self, page: &mut Page) {
        page.column(self.number, 4);
        page.put(SURFACES.get(self.surface).copied().unwrap_or(b'?'));
        page.put(sign(self.cost == 0, b'#'));
        page.put(sign(bits::has(bits::PORT, self.flags), b'p'));
        page.put(sign(bits::has(bits::URBAN, self.flags), b'u'));
        page.put(sign(bits::has(bits::SUPPLY, self.flags), b's'));
    }
}

// A sign, or a blank in its place.
fn sign(there: bool, b: u8) -> u8 {
    if there { b } else { b' ' }
}

// The letter of each unit on hex `h`.
fn letters(page: &mut Page, p: &[u8], v: View, h: usize)
    requires { Laid p.now v }
{
    for u in 0..v.count {
        if read::hex(p, v, u) == h {
            page.put(names::letter(read::nationality(p, v, u)));
        }
    }
}

// Hex `h`, 14 signs wide.
pub fn draw(page: &mut Page, p: &[u8], v: View, h: usize, supplied: bool)
    requires { Laid p.now v }
{
    let tile = Tile::of(p, v, h);
    tile.ground(page);
    page.put(sign(supplied, b'+'));
    letters(page, p, v, h);
    page.blanks(UNITS.saturating_sub(tile.crowd));
}
