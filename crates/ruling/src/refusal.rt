// Why a call is refused: the rules of document 01, each with the place of the order that breaks it, counted from 1, or 0 for none.
ghost use Rattle.std.specs.Prelude.{◌≡◌};
ghost use Rattle.ruling.specs.Refused.{number_of, place_of};

#[derive(Clone, Copy, PartialEq, Eq)]
pub enum Refusal {
    Unaccepted,
    Untimely,
    OutOfRange(usize),
    WrongUnit(usize),
    Forbidden(usize),
    NamedTwice(usize),
    NoWay(usize),
    EnemyThere(usize),
    AfterZone(usize),
    OverAllowance(usize),
    Full(usize),
    NoTarget,
    NotBeside(usize),
    WrongRoute,
    LossesShort,
    LastPhase,
    WrongPushes,
    NeutralThere(usize),
}

impl Refusal {
    // The number that document 01 gives the rule.
    pub fn number(self) -> usize
        ensures { result ≡ number_of self }
    {
        match self {
            Refusal::Unaccepted => 1,
            Refusal::Untimely => 2,
            Refusal::OutOfRange(_) => 3,
            Refusal::WrongUnit(_) => 4,
            Refusal::Forbidden(_) => 5,
            Refusal::NamedTwice(_) => 6,
            Refusal::NoWay(_) => 7,
            Refusal::EnemyThere(_) => 8,
            Refusal::AfterZone(_) => 9,
            Refusal::OverAllowance(_) => 10,
            Refusal::Full(_) => 11,
            Refusal::NoTarget => 12,
            Refusal::NotBeside(_) => 13,
            Refusal::WrongRoute => 14,
            Refusal::LossesShort => 15,
            Refusal::LastPhase => 16,
            Refusal::WrongPushes => 17,
            Refusal::NeutralThere(_) => 18,
        }
    }

    pub fn place(self) -> usize
        ensures { result ≡ place_of self }
    {
        match self {
            Refusal::OutOfRange(k)
            | Refusal::WrongUnit(k)
            | Refusal::Forbidden(k)
            | Refusal::NamedTwice(k)
            | Refusal::NoWay(k)
            | Refusal::EnemyThere(k)
            | Refusal::AfterZone(k)
            | Refusal::OverAllowance(k)
            | Refusal::Full(k)
            | Refusal::NotBeside(k)
            | Refusal::NeutralThere(k) => k,
            _ => 0,
        }
    }
}
