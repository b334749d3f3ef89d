// The counters of the nationalities, n0 to n4: a colour for each force, light to dark, and a letter for each nationality. On them: m for
// moved, f for fought, o for not supplied (vm, vf, vo); the frame of a unit that owes, w1, and of one that may advance, w2.
use page::Page;

const BODIES: &str = "\
    <rect id='n' width='38' height='38' rx='3' stroke='#000'/>\n\
    <g id='n0' font-size='10'><use href='#n' fill='#e8743b'/><text x='8' y='10'>S</text></g>\n\
    <g id='n1' font-size='10'><use href='#n' fill='#f6ec6e'/><text x='8' y='10'>E</text></g>\n\
    <g id='n2' font-size='10'><use href='#n' fill='#e4a9cb'/><text x='8' y='10'>P</text></g>\n\
    <g id='n3' font-size='10'><use href='#n' fill='#0b4a80'/><text x='8' y='10'>U</text></g>\n\
    <g id='n4' font-size='10'><use href='#n' fill='#0b4a80'/><text x='8' y='10'>C</text></g>\n";

const LETTERS: &str = "\
    <text id='vm' x='4.5' y='18' font-size='7'>m</text>\n\
    <text id='vf' x='4.5' y='26' font-size='7'>f</text>\n\
    <text id='vo' x='33.5' y='22' font-size='7'>o</text>\n\
    <rect id='w1' x='-1.5' y='-1.5' width='41' height='41' rx='4' fill='none' stroke='#d00000' stroke-width='3' stroke-dasharray='5 3'/>\n\
    <rect id='w2' x='-1.5' y='-1.5' width='41' height='41' rx='4' fill='none' stroke='#00a060' stroke-width='3'/>\n";

pub fn define(page: &mut Page) {
    page.text(BODIES);
    page.text(LETTERS);
}
