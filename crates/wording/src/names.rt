// The names of nationalities, forces, unit types, phases, marks, roles and results. What has no name here is written as `?`.
use page::Page;
use position::{bits, role};

// The letters of the nationalities.
const LETTERS: [u8; 5] = *b"SEPUC";

pub fn nationality(page: &mut Page, n: usize) {
    page.nth(&["S.A.U.", "E.S.C.", "P.A.L.", "US", "Canada"], n);
}

// The letter of a nationality on the map.
pub fn letter(n: usize) -> u8 {
    LETTERS.get(n).copied().unwrap_or(b'?')
}

// Force 3 is US and Canada, every other force a nationality.
pub fn force(page: &mut Page, f: usize) {
    page.nth(&["S.A.U.", "E.S.C.", "P.A.L.", "US and Canada"], f);
}

pub fn kind(page: &mut Page, k: usize) {
    page.nth(
        &[
            "armour",
            "mechanised",
            "infantry",
            "militia",
            "special infantry",
            "supply unit",
        ],
        k,
    );
}

pub fn phase(page: &mut Page, k: usize) {
    page.nth(&["land movement", "combat", "mechanised movement"], k);
}

pub fn role(page: &mut Page, k: usize) {
    match k {
        role::NONE => {}
        role::OWES => page.text(", owes"),
        role::ADVANCES => page.text(", may advance"),
        _ => page.text(", ?"),
    }
}

pub fn marks(page: &mut Page, m: usize) {
    page.text_if(bits::has(bits::TRIED, m), ", tried");
    page.text_if(bits::has(bits::SUPPLIED, m), ", supplied");
    page.text_if(bits::has(bits::MOVED, m), ", moved");
    page.text_if(bits::has(bits::FOUGHT, m), ", fought");
}

// Result codes begin at 1.
pub fn result(page: &mut Page, code: usize) {
    page.nth(
        &[
            "?", "D1", "D2", "D3", "A1", "A2", "A3", "Ae", "De", "Dx", "Ax",
        ],
        code,
    );
}
