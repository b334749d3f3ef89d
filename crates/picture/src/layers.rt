// The map, layer over layer.
ghost use Rattle.position.specs.Laid.{Laid};

use crate::hexes::Ground;
use crate::sheet::Sheet;
use crate::{counter, route, shades};
use page::Page;
use position::View;

// What is the same for all numbers and costs: they are texts at the upper edge of their hexes.
const NUMBERS: &str = "<g transform='translate(56 14)' font-size='9' fill='#333'>\n";

const EFFECTS: &str = "<g transform='translate(83 14)' font-size='9' fill='#333'>\n";

pub fn map(page: &mut Page, p: &[u8], v: View, nationality: Option<usize>)
    requires { Laid p.now v }
{
    let sheet = Sheet { p, v };
    sheet.grounds(page, "<g>\n", Ground::ground);
    if let Some(n) = nationality {
        shades::shades(page, p, v, n);
    }
    sheet.grounds(
        page,
        "<g fill='none' stroke-linecap='round'>\n",
        Ground::sides,
    );
    sheet.grounds(page, "<g>\n", Ground::signs);
    sheet.group(page, "<g>\n", |page, h, at| {
        at.sign_if(page, route::any_over(p, v, h), "e")
    });
    sheet.grounds(page, NUMBERS, Ground::number);
    sheet.grounds(page, EFFECTS, Ground::effect);
    sheet.group(
        page,
        "<g font-size='11' font-weight='bold'>\n",
        |page, h, at| { counter::stack(page, p, v, h, at) },
    );
}
