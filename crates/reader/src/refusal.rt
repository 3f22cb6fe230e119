// Why a pattern, a line or a call is refused: the papers' numbers, and the place.

ghost use Rattle.std.specs.Prelude.{◌≡◌};
ghost use Rattle.reader.specs.declared.refusal.Fault.TheVariants.{FaultySets};
ghost use Rattle.reader.specs.Numbers.{number_of};

use sets::Faulty;

// The faults by the papers' numbers: 1 to 8 are the pattern's and 14 the table's of named sets, which the reader finds; the others are found above it.
#[derive(Clone, Copy, PartialEq, Eq)]
pub enum Fault {
    TooLong = 1,
    StrayByte = 2,
    BadEscape = 3,
    BadClass = 4,
    BadCount = 5,
    LeftOpen = 6,
    TooDeep = 7,
    TooHeavy = 8,
    LineTooLong = 9,
    NoSlot = 10,
    WitnessTooLong = 11,
    TooManyBrackets = 12,
    AreaTooShort = 13,
    FaultySets = 14,
}

impl Fault {
    pub fn number(self) -> u8
        ensures number { result ≡ number_of self }
    {
        self as u8
    }

    // The refusal for this fault at that place.
    pub fn at(self, place: usize) -> Refusal
        ensures refusal { result ≡ record { fault = self; place = place } }
    {
        Refusal { fault: self, place }
    }
}

// A fault and its place: a byte of the pattern, or an entry of the table.
#[derive(Clone, Copy, PartialEq, Eq)]
pub struct Refusal {
    pub fault: Fault,
    pub place: usize,
}

// A table of named sets that fails its checks is 14.
impl From<Faulty> for Refusal {
    ghost from_gives = { λ f r. r ≡ record { fault = FaultySets; place = f.place } };

    fn from(f: Faulty) -> Refusal {
        Fault::FaultySets.at(f.place)
    }
}
