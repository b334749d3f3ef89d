// What the signs mean, below the caption.
use page::Page;

const GROUNDS: &str = "\
    <g transform='translate(6 50) scale(.4)'><use href='#s'/><use href='#o' x='175'/>\
    <use href='#l0' x='350'/><use href='#c' x='350'/><use href='#l0' x='525'/><use href='#x' x='525'/>\
    <use href='#l0' x='700'/><use href='#t' x='700'/><use href='#l0' x='875'/><use href='#u' x='875'/>\
    <use href='#l0' x='1050'/><use href='#q0' x='1050'/></g>\n\
    <text x='30' y='104'>sea</text><text x='100' y='104'>lake</text><text x='170' y='104'>coast</text>\
    <text x='240' y='104'>prohibited</text><text x='310' y='104'>port</text><text x='380' y='104'>town</text>\
    <text x='450' y='104'>supply</text>\n";

const SHADES: &str = "\
    <g transform='translate(496 50) scale(.4)'><use href='#l0'/><use href='#a'/>\
    <use href='#l0' x='175'/><use href='#z' x='175'/></g>\n\
    <text x='520' y='104'>supplied</text><text x='590' y='104'>Enemy zone</text>\n";

const NATIONALITIES: &str = "\
    <g font-weight='bold'><g fill='#000'><use href='#n0' x='11' y='114'/>\
    <use href='#n1' x='67' y='114'/><use href='#n2' x='123' y='114'/></g>\
    <g fill='#fff'><use href='#n3' x='179' y='114'/><use href='#n4' x='235' y='114'/></g></g>\n\
    <text x='30' y='164'>S.A.U.</text><text x='86' y='164'>E.S.C.</text><text x='142' y='164'>P.A.L.</text>\
    <text x='198' y='164'>US</text><text x='254' y='164'>Canada</text>\n";

const TYPES: &str = "\
    <g transform='translate(287 106) scale(1.5)' color='#000'><use href='#k0'/><use href='#k1' x='39'/>\
    <use href='#k2' x='78'/><use href='#k3' x='117'/><use href='#k4' x='156'/><use href='#k5' x='195'/></g>\n\
    <text x='315' y='164'>armour</text><text x='374' y='164'>mechanised</text><text x='432' y='164'>infantry</text>\
    <text x='490' y='164'>militia</text><text x='549' y='164'>special</text><text x='607' y='164'>supply unit</text>\n";

const SIDES: &str = "\
    <g fill='none' stroke-linecap='round'><use href='#r0' x='-20' y='182'/><use href='#m0' x='106' y='182'/>\
    <use href='#b0' x='262' y='182'/></g>\n\
    <g text-anchor='start'><text x='76' y='186'>river</text><text x='204' y='186'>major river</text>\
    <text x='358' y='186'>blocked side</text>\n";

const NOTES: &str = "\
    <text x='6' y='206'>on a hex: its number; 3x2 for cost 3 and defence x2, nothing for 1x1; \
    U or C on a star: supply of the US or of Canada</text>\n\
    <text x='6' y='221'>on a counter: its number; 5-6 for strength 5 and allowance 6, ? for face down; \
    m has moved, f has fought, o is not supplied</text>\n\
    <text x='6' y='236'>round a counter: a dashed frame, it owes a retreat or losses; a whole frame, it may advance; dots in a hex: a route</text></g>\n";

// What the signs mean, in a room of 640 by 240, below the words that have its upper 45. The shades are explained where there are some.
pub fn key(page: &mut Page, shaded: bool) {
    page.text("<g font-size='10'>\n");
    page.text(GROUNDS);
    page.text_if(shaded, SHADES);
    page.text(NATIONALITIES);
    page.text(TYPES);
    page.text(SIDES);
    page.text(NOTES);
    page.text("</g>\n");
}
