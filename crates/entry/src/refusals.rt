// Refusals, by the numbers of document 01.

ghost use Rattle.std.specs.Prelude.{◌≡◌};

// The number that stands where there is no refusal.
pub const ACCEPTED: u8 = 0;

// In the order in which document 01 lists and checks them; 11 to 14 are a record's text, its grant, the header, and the length of the input.
#[derive(Clone, Copy, PartialEq, Eq)]
pub enum Refusal {
    BadProcessors = 1,
    BadWords = 2,
    BadLines = 3,
    BadEntries = 4,
    BadMemory = 5,
    NotSound = 9,
    BadColumns = 10,
    NoSuchStep = 6,
    NoSuchProcessor = 7,
    NoSuchWord = 8,
    Malformed = 11,
    NotRising = 12,
    WrongHeader = 13,
    TooLong = 14,
}

impl From<Refusal> for u8 {
    ghost use Rattle.entry.specs.Refusals.{number_of};

    ghost from_gives = { λ refusal n. n ≡ number_of refusal };

    fn from(refusal: Refusal) -> u8 {
        refusal as u8
    }
}
