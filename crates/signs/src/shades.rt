// The shades of a hex, below its number: `a` for one that is supplied, `z` for one in an Enemy zone.
use page::Page;

const SIGNS: &str = "\
    <pattern id='plus' width='24' height='22' patternUnits='userSpaceOnUse'>\
    <path d='M9 10H15M12 7V13' stroke='#00603f' stroke-width='1.2'/></pattern>\n\
    <pattern id='lines' width='12' height='12' patternUnits='userSpaceOnUse' patternTransform='rotate(-45)'>\
    <path d='M0 6H12' stroke='#c1272d' stroke-width='2'/></pattern>\n\
    <g id='a'><path fill='#2fae7a' fill-opacity='.17' d='M20 18H100L120 52L90 104H30L0 52Z'/>\
    <path fill='url(#plus)' d='M20 18H100L120 52L90 104H30L0 52Z'/></g>\n\
    <path id='z' fill='url(#lines)' fill-opacity='.45' d='M20 18H100L120 52L90 104H30L0 52Z'/>\n";

pub fn define(page: &mut Page) {
    page.text(SIGNS);
}
