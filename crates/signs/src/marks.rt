// What a hex has besides its ground: a port's anchor `t`; the star of supply, q1 in the US, q2 in Canada, q0 elsewhere; the dots of a
// route, `e`.
use page::Page;

const SIGNS: &str = "\
    <g id='t' fill='#fff' stroke='#123f73'><circle cx='31' cy='88' r='9'/>\
    <path fill='none' stroke-width='1.6' d='M31 83V95M27 86H35M25.5 89.5Q26 95 31 95Q36 95 36.5 89.5'/>\
    <circle cx='31' cy='82' r='1.8'/></g>\n\
    <path id='q0' fill='#ffc933' stroke='#5a3a00' \
    d='M89 75L92.5 84H102L94.5 90L97.3 99L89 93.6L80.7 99L83.5 90L76 84H85.5Z'/>\n\
    <g id='q1'><use href='#q0'/><text x='89' y='92' font-size='9' font-weight='bold'>U</text></g>\n\
    <g id='q2'><use href='#q0'/><text x='89' y='92' font-size='9' font-weight='bold'>C</text></g>\n\
    <path id='e' fill='none' stroke='#7a2fa0' stroke-width='4.5' stroke-linecap='round' stroke-dasharray='0 9' \
    d='M14 57L36 96H84L106 57'/>\n";

pub fn define(page: &mut Page) {
    page.text(SIGNS);
}
