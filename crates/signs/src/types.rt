// The signs of the unit types, k0 to k5: a track for armour, a cross for infantry, both for mechanised; a cross with a disc for militia and
// with a star for special infantry; the supply unit's bar.
use page::Page;

const SIGNS: &str = "\
    <rect id='k' x='9' y='12' width='20' height='13' fill='none' stroke='currentColor' stroke-width='1.2'/>\n\
    <g id='k0' fill='none' stroke='currentColor'><use href='#k'/><rect x='12' y='15' width='14' height='7' rx='3.5'/></g>\n\
    <g id='k1' fill='none' stroke='currentColor'><use href='#k0'/><path d='M9 12L29 25M9 25L29 12'/></g>\n\
    <g id='k2' fill='none' stroke='currentColor'><use href='#k'/><path d='M9 12L29 25M9 25L29 12'/></g>\n\
    <g id='k3'><use href='#k2'/><circle cx='19' cy='18.5' r='3.2' fill='currentColor'/></g>\n\
    <g id='k4'><use href='#k2'/><path fill='currentColor' \
    d='M19 13.5L20.2 17H24L21 19.2L22.1 23L19 20.8L15.9 23L17 19.2L14 17H17.8Z'/></g>\n\
    <g id='k5' fill='none' stroke='currentColor'><use href='#k'/><path d='M9 21.5H29'/></g>\n";

pub fn define(page: &mut Page) {
    page.text(SIGNS);
}
