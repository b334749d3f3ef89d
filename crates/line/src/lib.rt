// The battle line: one record for each participant, lent to the sums for odds and losses.
#![tactic(auto)]

ghost use Rattle.std.specs.Prelude.{◌≡◌, ◌≤◌, length};
ghost use Rattle.line.specs.Line.{places, fighting_total, printed_total, Comes, Sums};

// A participant: the unit, its printed strength and what it fights with.
#[derive(Clone, Copy)]
pub struct Fighter {
    pub unit: u16,
    pub printed: u8,
    pub fighting: u8,
}

// What a part of the line comes to.
#[derive(Clone, Copy)]
pub struct Totals {
    pub fighting: usize,
    pub printed: usize,
}

// A line of 21 places, with nobody in it yet.
pub fn nobody() -> [Fighter; 21]
    ensures { length result ≡ places }
{
    let none = Fighter {
        unit: 0,
        printed: 0,
        fighting: 0,
    };
    [none; 21]
}

// What the fighters that are lent come to in the odds.
pub fn fighting_total(line: &[Fighter]) -> usize
    requires { length line.now ≤ places }
    ensures { Comes (fighting_total line.now) result }
{
    line.iter().map(|f| f.fighting as usize).sum()
}

// What the fighters that are lent come to in the losses.
pub fn printed_total(line: &[Fighter]) -> usize
    requires { length line.now ≤ places }
    ensures { Comes (printed_total line.now) result }
{
    line.iter().map(|f| f.printed as usize).sum()
}

// The fighters that are lent come to both sums.
pub fn sum_up(line: &[Fighter]) -> Totals
    requires { length line.now ≤ places }
    ensures { Sums line.now result }
{
    Totals {
        fighting: fighting_total(line),
        printed: printed_total(line),
    }
}
