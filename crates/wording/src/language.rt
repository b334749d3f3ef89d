// The lines of the record language.
use page::Page;

// What shows or sets the position.
const VIEWS: &str = "\
    position HEXDIGITS         the position from here on, - for the empty one\n\
    buffer LENGTH              the length of what the next call borrows\n\
    show                       the position in hex digits\n\
    lent                       what the last call borrowed, in hex digits\n\
    roster                     each unit, its hex, S or O by supply\n\
    map, map NATIONALITY       the position as a map; + for supplied hexes\n\
    echo, echo off             lines are written before their answers, with words\n\
    help                       these lines\n";

// The calls.
const CALLS: &str = "\
    supply NATIONALITY         which hexes are supplied for it: see lent\n\
    move UNIT HEX..            a unit goes along a path\n\
    end                        the phase ends\n\
    attack TARGET DIE UNIT..   units attack a hex\n\
    retreat HEX HEX.. / HEX..  units that owe go along a route / where pushed friends go\n\
    losses UNIT..              an exchange is paid\n\
    advance UNIT HEX           a unit follows along a route\n\
    close                      the advances are over\n";

// What stands in the map of text.
const SIGNS: &str = "\
    nationalities: 0 S.A.U., 1 E.S.C., 2 P.A.L., 3 US, 4 Canada\n\
    on the map: . land  : coast  ~ sea  o lake  # prohibited  p port  u urban  s supply\n\
    and a letter for each unit: S E P U C\n";

// The lines of the record language.
pub fn help(page: &mut Page) {
    page.text(VIEWS);
    page.text(CALLS);
    page.text(SIGNS);
}
