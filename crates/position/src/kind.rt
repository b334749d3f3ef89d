// Unit types and nationalities: the one place that knows what each may do.
ghost use Rattle.std.specs.Prelude.{◌≡◌};
ghost use Rattle.position.specs.Kind.{casts_zone, may_attack, moves_by_land, moves_in_phase2, always_tried, force, may_belong, may_allow};

// The nationalities that rules name, and the force of US and Canada. Numbers and no enum: what is read may be any byte, as long as no
// check has seen the unit, and its reader promises that number (`Read` in `position/specs/Laid.antt`).
pub const PAL: usize = 2;

pub const US: usize = 3;

pub const CANADA: usize = 4;

pub const HOME: usize = 3;

// Its codes are associated constants, the form that document 01 names.
#[derive(Clone, Copy)]
pub struct Kind(pub usize);

impl Kind {
    pub const ARMOUR: usize = 0;

    pub const MECHANISED: usize = 1;

    pub const INFANTRY: usize = 2;

    pub const MILITIA: usize = 3;

    pub const SPECIAL: usize = 4;

    pub const SUPPLY: usize = 5;

    pub fn casts_zone(self) -> bool
        ensures { result ≡ casts_zone self.0 }
    {
        let k = self.0;
        if k == Kind::SPECIAL {
            return true;
        }
        k <= Kind::INFANTRY
    }

    pub fn may_attack(self) -> bool
        ensures { result ≡ may_attack self.0 }
    {
        self.0 <= Kind::SPECIAL
    }

    pub fn moves_by_land(self) -> bool
        ensures { result ≡ moves_by_land self.0 }
    {
        self.0 <= Kind::SPECIAL
    }

    pub fn moves_in_phase_2(self) -> bool
        ensures { result ≡ moves_in_phase2 self.0 }
    {
        self.0 <= Kind::MECHANISED
    }

    pub fn always_tried(self) -> bool
        ensures { result ≡ always_tried self.0 }
    {
        let k = self.0;
        if k == Kind::SPECIAL {
            return true;
        }
        k == Kind::SUPPLY
    }

    // Whether a unit of this type may have the nationality.
    pub fn may_belong(self, nationality: usize) -> bool
        ensures { result ≡ may_belong self.0 nationality }
    {
        let k = self.0;
        if k == Kind::MILITIA {
            return force(nationality) == HOME;
        }
        if k == Kind::SPECIAL {
            return nationality == PAL;
        }
        if k == Kind::SUPPLY {
            return nationality <= PAL;
        }
        if k <= Kind::INFANTRY {
            return nationality <= CANADA;
        }
        false
    }

    // Whether a unit of this type may have the allowance.
    pub fn may_allow(self, allowance: usize) -> bool
        ensures { result ≡ may_allow self.0 allowance }
    {
        let k = self.0;
        if k == Kind::SUPPLY {
            return allowance == 0;
        }
        if k <= Kind::SPECIAL {
            return allowance <= 30;
        }
        false
    }
}

// US and Canada form force 3; every other nationality is a force of its own.
pub fn force(nationality: usize) -> usize
    ensures { result ≡ force nationality }
{
    if nationality == CANADA {
        return HOME;
    }
    nationality
}
