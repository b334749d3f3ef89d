// The roster of a position: a line for each unit on the map, by number: unit, hex, and S or O by supply as it is now.
#![tactic(auto)]

ghost use Rattle.position.specs.Laid.{Laid};

use page::Page;
use position::{View, read};

// The descriptor of the standard input.
const STDIN: i32 = 0;

// The supply of each nationality: a byte for each hex that a map may have, 1 where it is supplied.
type Maps = [[u8; 4096]; 5];

// The supply of every nationality.
fn judge(p: &[u8], v: View, maps: &mut Maps)
    requires { Laid p.now v }
{
    for (n, map) in maps.iter_mut().enumerate() {
        let row: &mut [u8] = map;
        supply::fill(p, v, n, &mut row[..v.hexes]);
    }
}

// The line of unit `u`, if it is on the map.
fn line(page: &mut Page, p: &[u8], v: View, maps: &Maps, u: usize)
    requires { Laid p.now v }
{
    let hex = read::hex(p, v, u);
    let Some(map) = maps.get(read::nationality(p, v, u)) else {
        return;
    };
    let Some(supplied) = map.get(hex) else {
        return;
    };
    page.pair("", u, hex);
    page.text(if *supplied == 1 { " S\n" } else { " O\n" });
}

// The roster of `p`; a refused position prints only `refused 1`.
pub fn roster(page: &mut Page, p: &[u8]) {
    let Some(v) = checking::check(p) else {
        page.text("refused 1\n");
        return;
    };
    let mut maps = [[0; 4096]; 5];
    judge(p, v, &mut maps);
    for u in 0..v.count {
        line(page, p, v, &maps, u);
    }
}

// The roster of the position on standard input. More bytes than any position has are a refused position.
pub fn run() {
    let mut input = [0; 32768];
    let mut page = Page::new();
    let got = io::read_full(STDIN, &mut input);
    roster(&mut page, &input[..got]);
    page.flush();
}
