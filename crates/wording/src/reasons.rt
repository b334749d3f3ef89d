// The words of each refusal: the one place for them. They depend on the call and the rule, and for a number out of range on whether a
// place is named.
// A refusal that a call does not give is written as `?`.
use crate::Call;
use page::Page;
use ruling::Refusal;

// "step 2 ", "number 2 of the list ", "number 2 of route and pushes ", or nothing where no place is named. The places of a retreat count
// on through both of its lists.
fn subject(page: &mut Page, call: Call, place: usize) {
    if place == 0 {
        return;
    }
    match call {
        Call::Attack | Call::Losses => numbered(page, "number ", place, " of the list "),
        Call::Retreat => numbered(page, "number ", place, " of route and pushes "),
        Call::Move => numbered(page, "step ", place, " "),
        _ => page.text("? "),
    }
}

fn numbered(page: &mut Page, before: &str, place: usize, after: &str) {
    page.word(before, place);
    page.text(after);
}

// Wrong phase or stage.
fn untimely(call: Call) -> &'static str {
    match call {
        Call::Move => "this is no movement phase, or a battle is still open",
        Call::Attack => "this is no combat phase, or a battle is still open",
        Call::Retreat => "no retreats are owed now",
        Call::Losses => "no losses are owed now",
        Call::Advance => "nobody may advance now",
        Call::Close => "no advances are open",
        Call::End => "a battle is still open",
        _ => "?",
    }
}

// A number or a length out of range.
fn out_of_range(call: Call) -> &'static str {
    match call {
        Call::Supply => "no such nationality, or a buffer of another length than the map's",
        Call::Move => "no such unit, or not 1 to 30 hexes",
        Call::Attack => "no such target or die, not 1 to 18 units, or a wrong scratch",
        Call::Retreat => "no such hex, or more than 3 steps or 9 pushes",
        Call::Losses => "not 1 to 18 units",
        Call::Advance => "no such unit or hex",
        Call::End => "a scratch of another length than the map's",
        _ => "?",
    }
}

// A number of a list or path out of range.
fn unknown(call: Call) -> &'static str {
    match call {
        Call::Attack | Call::Losses => "is no unit",
        Call::Move | Call::Retreat => "is no hex of the map",
        _ => "?",
    }
}

// The wrong unit, or a hex without the role asked.
fn wrong_unit(call: Call) -> &'static str {
    match call {
        Call::Move => "the unit is destroyed, or not of the phasing force",
        Call::Attack => "is destroyed, or not of the phasing force",
        Call::Retreat => "nobody owes in that hex",
        Call::Losses => "does not owe",
        Call::Advance => "the unit may not advance",
        _ => "?",
    }
}

// Type or mark forbids it.
fn forbidden(call: Call) -> &'static str {
    match call {
        Call::Move => "the unit has moved, or its type does not move in this phase",
        Call::Attack => "has fought, or is a supply unit",
        Call::Advance => "supply units do not advance",
        _ => "?",
    }
}

// The hex cannot be reached.
fn no_way(call: Call) -> &'static str {
    match call {
        Call::Move => "is not adjacent, or blocked, prohibited, sea or lake",
        Call::Advance => "no route leads the unit there",
        _ => "?",
    }
}

// Three others stand there.
fn full(call: Call) -> &'static str {
    match call {
        Call::Move => "ends where three others stand",
        Call::Advance => "three others stand there",
        _ => "?",
    }
}

// The rules whose words are the same for every call.
fn for_all(refusal: Refusal) -> &'static str {
    match refusal {
        Refusal::Unaccepted => "the position breaks a line of its rules",
        Refusal::NamedTwice(_) => "is named before",
        Refusal::EnemyThere(_) => "meets an Enemy",
        Refusal::AfterZone(_) => "leaves an Enemy zone",
        Refusal::OverAllowance(_) => "passes the allowance",
        Refusal::NoTarget => "no Enemy stands there, or one that has fought",
        Refusal::NotBeside(_) => "is not beside the target over an unblocked side",
        Refusal::WrongRoute => {
            "a vacant route, or a longest part route, is due: this is none, or pushes were sent"
        }
        Refusal::LossesShort => "the losses are short, or spare special infantry",
        Refusal::LastPhase => "it is the last phase of the last turn",
        Refusal::WrongPushes => "only pushes serve, and route or pushes are not legal",
        Refusal::NeutralThere(_) => "meets a neutral force",
        _ => "?",
    }
}

fn words(call: Call, refusal: Refusal) -> &'static str {
    match refusal {
        Refusal::Untimely => untimely(call),
        Refusal::OutOfRange(0) => out_of_range(call),
        Refusal::OutOfRange(_) => unknown(call),
        Refusal::WrongUnit(_) => wrong_unit(call),
        Refusal::Forbidden(_) => forbidden(call),
        Refusal::NoWay(_) => no_way(call),
        Refusal::Full(_) => full(call),
        _ => for_all(refusal),
    }
}

// The rule of a number, if one has it.
fn rule(n: usize, place: usize) -> Option<Refusal> {
    Some(match n {
        1 => Refusal::Unaccepted,
        2 => Refusal::Untimely,
        3 => Refusal::OutOfRange(place),
        4 => Refusal::WrongUnit(place),
        5 => Refusal::Forbidden(place),
        6 => Refusal::NamedTwice(place),
        7 => Refusal::NoWay(place),
        8 => Refusal::EnemyThere(place),
        9 => Refusal::AfterZone(place),
        10 => Refusal::OverAllowance(place),
        11 => Refusal::Full(place),
        12 => Refusal::NoTarget,
        13 => Refusal::NotBeside(place),
        14 => Refusal::WrongRoute,
        15 => Refusal::LossesShort,
        16 => Refusal::LastPhase,
        17 => Refusal::WrongPushes,
        18 => Refusal::NeutralThere(place),
        _ => return None,
    })
}

// The rule that a call is refused by, in words. Any numbers have some: what is no rule's is written as `?`.
pub fn reason(page: &mut Page, call: Call, n: usize, place: usize) {
    subject(page, call, place);
    page.text(rule(n, place).map_or("?", |refusal| words(call, refusal)));
}
