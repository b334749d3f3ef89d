// The sides that a hex keeps, N, NE and SE: rivers r0 to r2, major rivers m0 to m2, blocked sides b0 to b2.
use page::Page;

const RIVERS: &str = "\
    <path id='r0' stroke='#2b7bba' stroke-width='4' d='M30 0H90'/>\n\
    <path id='r1' stroke='#2b7bba' stroke-width='4' d='M90 0L120 52'/>\n\
    <path id='r2' stroke='#2b7bba' stroke-width='4' d='M120 52L90 104'/>\n";

const MAJOR_RIVERS: &str = "\
    <g id='m0' stroke='#123f73' stroke-width='11'><path d='M30 0H90'/>\
    <path stroke='#8cc4ee' stroke-width='5' d='M30 0H90'/></g>\n\
    <g id='m1' stroke='#123f73' stroke-width='11'><path d='M90 0L120 52'/>\
    <path stroke='#8cc4ee' stroke-width='5' d='M90 0L120 52'/></g>\n\
    <g id='m2' stroke='#123f73' stroke-width='11'><path d='M120 52L90 104'/>\
    <path stroke='#8cc4ee' stroke-width='5' d='M120 52L90 104'/></g>\n";

const BLOCKED_SIDES: &str = "\
    <path id='b0' stroke='#2a1a0e' stroke-width='9' stroke-linecap='butt' stroke-dasharray='6 3' d='M30 0H90'/>\n\
    <path id='b1' stroke='#2a1a0e' stroke-width='9' stroke-linecap='butt' stroke-dasharray='6 3' d='M90 0L120 52'/>\n\
    <path id='b2' stroke='#2a1a0e' stroke-width='9' stroke-linecap='butt' stroke-dasharray='6 3' d='M120 52L90 104'/>\n";

pub fn define(page: &mut Page) {
    page.text(RIVERS);
    page.text(MAJOR_RIVERS);
    page.text(BLOCKED_SIDES);
}
