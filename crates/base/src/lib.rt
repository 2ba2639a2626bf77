// What every crate above shares: the limits of time, and the test for a finite float.

#![tactic(auto)]

ghost use Rattle.std.specs.Prelude.{◌≡◌, ℕ, refl};
ghost use Rattle.std.specs.Float.Ieee.Scale.{finite};
ghost use Rattle.base.specs.declared.Refusal.{Refusal};
ghost use Rattle.base.specs.Refusals.{itself, number_of, refusal_of};
ghost use Rattle.base.specs.Checks.{require};

// Moments are whole milliseconds from 0 up to but not including this.
pub const END_OF_TIME: u64 = 3_155_760_000_000;

pub const DAY_LENGTH: u64 = 86_400_000;

// An angle's parts in one circle.
pub const CIRCLE: u64 = 3_600_000_000_000;

pub const LONGEST_DUT: u32 = 100_000;

// Whether x is a number: neither an infinity nor a NaN.
#[tactic(auto, using(crate::proofs::Finite::same))]
pub fn is_finite(x: f64) -> bool
    ensures { result ≡ finite x }
{
    x.is_finite()
}

// Why a call refuses its input. Documents 01 and 02 know each refusal by a number.
#[derive(Clone, Copy, PartialEq, Eq)]
pub enum Refusal {
    // 1: the book does not pass
    Book,
    // 2: h not allowed
    Step,
    // 3: moment or UT out of range
    Moment,
    // 4: coefficient, DUT, J, A, K or rule not allowed
    Setting,
    // 5: target before the state, or not a whole number of steps away
    Target,
    // 6: a used body has no cover
    Cover,
    // 7: not finite, a given state included
    NotFinite,
    // 8: no such date within 1950 to 2049, or day above 36,524
    Date,
    // 9: c3 is zero
    Parabola,
    // 10: n(C) is zero
    StraightLine,
    // 11: root of a negative or non-finite float
    Root,
    // 12: angle of a circle or more, or out of range
    Angle,
    // 13: a listing that is not of the form
    Listing,
    // 14: a centre that is no body, or one that the setting does not use
    Centre,
    // 15: a stored acceleration that is not the rule's
    Stored,
    // 16: a repair of, or into, fewer than 8 bytes
    Short,
    // 17: a magnitude of 10^12 or more in a table
    Large,
    // 18: a state for the pane that is about another centre, or not later
    NotNext,
}

impl Refusal {
    // The refusal of a number, if there is one.
    pub fn from_number(number: u64) -> Option<Refusal>
        ensures { result ≡ refusal_of number }
    {
        match number {
            1 => Some(Refusal::Book),
            2 => Some(Refusal::Step),
            3 => Some(Refusal::Moment),
            4 => Some(Refusal::Setting),
            5 => Some(Refusal::Target),
            6 => Some(Refusal::Cover),
            7 => Some(Refusal::NotFinite),
            8 => Some(Refusal::Date),
            9 => Some(Refusal::Parabola),
            10 => Some(Refusal::StraightLine),
            11 => Some(Refusal::Root),
            12 => Some(Refusal::Angle),
            13 => Some(Refusal::Listing),
            14 => Some(Refusal::Centre),
            15 => Some(Refusal::Stored),
            16 => Some(Refusal::Short),
            17 => Some(Refusal::Large),
            18 => Some(Refusal::NotNext),
            _ => None,
        }
    }

    pub fn number(self) -> u64
        ensures { result ≡ number_of self }
    {
        match self {
            Refusal::Book => 1,
            Refusal::Step => 2,
            Refusal::Moment => 3,
            Refusal::Setting => 4,
            Refusal::Target => 5,
            Refusal::Cover => 6,
            Refusal::NotFinite => 7,
            Refusal::Date => 8,
            Refusal::Parabola => 9,
            Refusal::StraightLine => 10,
            Refusal::Root => 11,
            Refusal::Angle => 12,
            Refusal::Listing => 13,
            Refusal::Centre => 14,
            Refusal::Stored => 15,
            Refusal::Short => 16,
            Refusal::Large => 17,
            Refusal::NotNext => 18,
        }
    }
}

// What a type may hold in place of a value: a refusal, or any number that stands for one.
pub trait Reason: Copy {
    ghost held: { Refusal → Self };

    ghost told: { Self → ℕ };

    fn held(refusal: Refusal) -> Self
        ensures { result ≡ held refusal };

    fn told(self) -> u64
        ensures { result ≡ told self };

    // A refusal is told by its number.
    ghost keeps_number: { (refusal : Refusal) → told (held refusal) ≡ number_of refusal };
}

impl Reason for Refusal {
    ghost held = { itself };

    ghost told = { number_of };

    ghost keeps_number = { λ refusal. refl };

    fn held(refusal: Refusal) -> Refusal {
        refusal
    }

    fn told(self) -> u64 {
        self.number()
    }
}

impl Reason for u64 {
    ghost held = { number_of };

    ghost told = { λ number. number };

    ghost keeps_number = { λ refusal. refl };

    fn held(refusal: Refusal) -> u64 {
        refusal.number()
    }

    fn told(self) -> u64 {
        self
    }
}

// A check: refuses unless it holds.
pub fn require(ok: bool, refusal: Refusal) -> Result<(), Refusal>
    ensures { result ≡ require ok refusal }
{
    if ok { Ok(()) } else { Err(refusal) }
}
