// The ground of a hex: land in four tints, l0 to l3, with a pattern of p1 to p3 or none, so that all 16 terrains differ; a coast's band
// `c`; what is prohibited, `x`; a town, `u`; sea `s` and lake `o`.
use page::Page;

const LAND: &str = "\
    <use id='l0' href='#h' fill='#faf7ec' stroke='#8f8a78'/>\n\
    <use id='l1' href='#h' fill='#dfe9c0' stroke='#8f8a78'/>\n\
    <use id='l2' href='#h' fill='#e8cf9f' stroke='#8f8a78'/>\n\
    <use id='l3' href='#h' fill='#bfc0c4' stroke='#8f8a78'/>\n";

const HILLS: &str = "\
    <path id='p1' fill='none' stroke='#9a7b4f' stroke-width='1.6' d='M10 56q8-14 16 0M94 56q8-14 16 0M30 36q8-14 16 0\
    M74 36q8-14 16 0M30 78q8-14 16 0M74 78q8-14 16 0M52 56q8-14 16 0M52 98q8-14 16 0'/>\n";

const MOUNTAINS: &str = "\
    <path id='p2' fill='#b9a58a' stroke='#6e5a3f' stroke-width='1.2' d='M8 58L18 40L28 58ZM92 58L102 40L112 58ZM28 37L38 19L48 37Z\
    M72 37L82 19L92 37ZM28 84L38 66L48 84ZM72 84L82 66L92 84ZM50 60L60 42L70 60ZM50 102L60 84L70 102Z'/>\n";

const WOODS: &str = "\
    <path id='p3' fill='none' stroke='#55804b' stroke-width='6' stroke-linecap='round' d='M14 52h0M24 40h0M24 62h0M106 52h0M96 40h0\
    M96 62h0M36 25h0M50 31h0M70 25h0M84 29h0M36 80h0M50 92h0M70 94h0M84 80h0M52 52h0M66 60h0M66 44h0'/>\n";

const WATER: &str = "\
    <g id='s' stroke='#7fa3bd'><use href='#h' fill='#a9cfe8'/>\
    <path fill='none' stroke='#6797b8' d='M26 34q6-5 12 0t12 0M70 58q6-5 12 0t12 0M32 80q6-5 12 0t12 0'/></g>\n\
    <g id='o' stroke='#8f8a78'><use href='#h' fill='#faf7ec'/>\
    <path fill='#a9cfe8' stroke='#3f78a3' stroke-width='1.5' \
    d='M34 20Q60 14 88 22Q108 34 106 56Q98 88 74 92Q40 100 26 80Q8 62 16 40Q22 26 34 20Z'/>\
    <path fill='none' stroke='#6797b8' d='M38 42q6-5 12 0t12 0M56 68q6-5 12 0t12 0'/></g>\n";

const COAST: &str = "\
    <path id='c' fill='none' stroke='#6fb0d8' stroke-width='7' d='M32.3 4H87.7L115.4 52L87.7 100H32.3L4.6 52Z'/>\n\
    <pattern id='hatch' width='9' height='9' patternUnits='userSpaceOnUse' patternTransform='rotate(45)'>\
    <path d='M0 0H9M0 0V9' stroke='#4d4038' stroke-width='1.6'/></pattern>\n\
    <path id='x' fill='url(#hatch)' d='M20 18H100L120 52L90 104H30L0 52Z'/>\n";

const TOWN: &str = "\
    <g id='u'><path fill='#9c9c9c' fill-opacity='.45' d='M25 20H95L111 52L86 96H34L9 52Z'/>\
    <path fill='#5c5c5c' stroke='#fff' stroke-width='.8' d='M11 48h8v9h-8zM20 39h9v9h-9zM20 57h9v9h-9zM101 48h8v9h-8z\
    M91 39h9v9h-9zM91 57h9v9h-9zM36 26h9v8h-9zM48 22h8v9h-8zM75 26h9v8h-9zM64 22h8v9h-8zM42 42h10v9h-10zM54 38h12v12h-12z\
    M68 44h10v8h-10zM44 56h11v9h-11zM58 54h9v12h-9zM70 57h9v8h-9zM46 80h9v9h-9zM57 82h9v11h-9zM68 80h8v9h-8z'/></g>\n";

pub fn define(page: &mut Page) {
    page.text(LAND);
    page.text(HILLS);
    page.text(MOUNTAINS);
    page.text(WOODS);
    page.text(WATER);
    page.text(COAST);
    page.text(TOWN);
}
