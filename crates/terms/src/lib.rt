// The words that every layer shares: scan numbers, word places, refusals.
#![tactic(auto)]

ghost use Rattle.std.specs.Prelude.{◌≡◌, Some};
ghost use Rattle.terms.specs.Refusals.{failure_text, number, place as place_of, refusal_text};
ghost use Rattle.terms.specs.declared.Failure.TheVariants.{Refused, NoMemory};

use std::alloc::AllocError;
use std::error::Error;
use std::fmt;

/// The number of a scan: 0 for the first, the total for the end of the list.
#[derive(Clone, Copy, PartialEq, Eq, PartialOrd, Ord, Debug)]
pub struct Scan(pub u32);

/// Where a word stands: its index in a recording, or what a source takes for one.
#[derive(Clone, Copy, PartialEq, Eq, Debug)]
pub struct Place(pub u32);

/// Why a call is turned down. `number` is the published number of each case, `place` the place of those that have one.
#[derive(Clone, Copy, PartialEq, Eq, Debug)]
pub enum Refusal {
    /// a recording of more than 1,000,000 words
    TooLong,
    /// a more word at index 0 or right after a scan
    StrayMore(Place),
    /// a kind from 4 to 7: needed, and not known here
    UnknownKind(Place),
    /// an end that does not tell the number of scans
    WrongTotal(Place),
    /// a word after the end
    AfterEnd(Place),
    /// no end up to the length, which is the place
    NoEnd(Place),
    /// too few unused words to write into
    NoRoom,
    /// the recording is closed
    Closed,
    /// a content of more than 28 bits
    WideContent,
    /// the session is not open
    NotOpen,
    /// a number of slots that is 0, above 32 or above the store's
    BadSlots,
    /// machine and store of different widths
    WidthsDiffer,
    /// nothing lies before this scan
    AtStart,
    /// the session is open already
    AlreadyOpen,
    /// the last scan
    AtEnd,
    /// no such word of the state
    NoWord,
    /// a state of another number of words
    WrongLength,
    /// words that are no lawful state
    Unlawful,
    /// no such control state in the table
    NoControl,
    /// a symbol or a cell's value above the largest
    BadSymbol,
    /// no such cell
    NoCell,
    /// a rule number, a count of control states or a total outside its limits
    OutOfLimits,
    /// no such slot
    NoSlot,
    /// words, or a width, that do not fit the store's
    WrongWidth,
    /// the slot is empty
    EmptySlot,
    /// two stores of different widths
    UnevenPair,
    /// no room for a snapshot, or more pages than can be numbered
    BadPool,
    /// more than 64 slots together
    TooManySlots,
}

impl Refusal {
    /// The number under which a refusal is known.
    pub fn number(self) -> u32
        ensures { result ≡ number self }
    {
        match self {
            Refusal::TooLong => 11,
            Refusal::StrayMore(_) => 12,
            Refusal::UnknownKind(_) => 13,
            Refusal::WrongTotal(_) => 14,
            Refusal::AfterEnd(_) => 15,
            Refusal::NoEnd(_) => 16,
            Refusal::NoRoom => 17,
            Refusal::Closed => 18,
            Refusal::WideContent => 19,
            Refusal::NotOpen => 20,
            Refusal::BadSlots => 21,
            Refusal::WidthsDiffer => 22,
            Refusal::AtStart => 23,
            Refusal::AlreadyOpen => 24,
            Refusal::AtEnd => 25,
            Refusal::NoWord => 26,
            Refusal::WrongLength => 31,
            Refusal::Unlawful => 32,
            Refusal::NoControl => 33,
            Refusal::BadSymbol => 34,
            Refusal::NoCell => 35,
            Refusal::OutOfLimits => 36,
            Refusal::NoSlot => 41,
            Refusal::WrongWidth => 42,
            Refusal::EmptySlot => 43,
            Refusal::UnevenPair => 44,
            Refusal::BadPool => 45,
            Refusal::TooManySlots => 46,
        }
    }

    /// Where the fault lies, for the refusals of a recording's check.
    pub fn place(self) -> Option<Place>
        ensures { result ≡ place_of self }
    {
        match self {
            Refusal::TooLong => Some(Place(0)),
            Refusal::StrayMore(at)
            | Refusal::UnknownKind(at)
            | Refusal::WrongTotal(at)
            | Refusal::AfterEnd(at)
            | Refusal::NoEnd(at) => Some(at),
            _ => None,
        }
    }
}

// `12 at 1`: the number and, where there is one, the place.
impl fmt::Display for Refusal {
    ghost output = { λ refusal. Some (refusal_text refusal) };

    fn fmt<W: fmt::Write>(&self, f: &mut fmt::Formatter<W>) -> fmt::Result {
        let number = self.number();
        match self.place() {
            Some(Place(at)) => write!(f, "{number} at {at}"),
            None => write!(f, "{number}"),
        }
    }
}

impl Error for Refusal {}

/// Why a call that takes memory comes to nothing: it is turned down, or there is no memory.
#[derive(Clone, Copy, PartialEq, Eq, Debug)]
pub enum Failure {
    Refused(Refusal),
    NoMemory,
}

impl fmt::Display for Failure {
    ghost output = { λ failure. Some (failure_text failure) };

    fn fmt<W: fmt::Write>(&self, f: &mut fmt::Formatter<W>) -> fmt::Result {
        match self {
            Self::Refused(refusal) => write!(f, "refused: {refusal}"),
            Self::NoMemory => write!(f, "no memory"),
        }
    }
}

impl Error for Failure {}

// Both by hand: thiserror's `From` has no contract, and clauses of callers name `from_gives`.
impl From<Refusal> for Failure {
    ghost from_gives = { λ refusal r. r ≡ Refused refusal };

    fn from(refusal: Refusal) -> Failure {
        Failure::Refused(refusal)
    }
}

impl From<AllocError> for Failure {
    ghost from_gives = { λ _ r. r ≡ NoMemory };

    fn from(_e: AllocError) -> Failure {
        Failure::NoMemory
    }
}
