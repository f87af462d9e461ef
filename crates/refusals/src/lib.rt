// The table of refusals: what each is given for, its number, and a refusal at its place.
#![tactic(auto)]

ghost use Rattle.std.specs.Prelude.{◌≡◌};
ghost use Rattle.refusals.specs.Table.{number_of, of_whole};

// Of a recording as a whole (1 to 5), of a record of it (6 to 10), of a buffer (11), and of a drawer (12, 19).
#[derive(Clone, Copy)]
pub enum Refusal {
    TooShort = 1,
    OtherVersion = 2,
    FalseLength = 3,
    TooLong = 4,
    NoHeight = 5,
    BrokenRecord = 6,
    NoProcess = 7,
    Busy = 8,
    Idle = 9,
    Full = 10,
    NoRoom = 11,
    NoCut = 12,
    DrawerTooLong = 19,
}

// A refusal, and the place that is told with it.
#[derive(Clone, Copy)]
pub struct Refused {
    pub refusal: Refusal,
    pub place: usize,
}

impl Refusal {
    pub fn number(self) -> u32
        ensures { result ≡ number_of self }
    {
        self as u32
    }
}

impl From<Refusal> for Refused {
    ghost from_gives = { λ refusal r. r ≡ of_whole refusal };

    // Of the bytes as a whole: place 0 is told.
    fn from(refusal: Refusal) -> Refused {
        Refused { refusal, place: 0 }
    }
}
