// What is asked of a session and what it answers; the plain viewer, the rules and the promise are in specs/.
#![tactic(auto)]

mod condition;
mod replies;

pub use condition::Condition;
use terms::{Place, Refusal, Scan};

/// What a seek looks for in a state: a condition on one of its words.
#[derive(Clone, Copy, PartialEq, Eq, Debug)]
pub enum Watch {
    /// the word and the value agree where the mask has ones
    Equal { word: u32, mask: u32, value: u32 },
    /// the word has at least so many ones
    Ones { word: u32, least: u32 },
}

/// One call of a session.
#[derive(Clone, Copy, PartialEq, Eq, Debug)]
pub enum Call {
    Open(u32),
    Ahead,
    Back,
    Seek(Watch),
    Look(u32),
    Count,
    Turn,
}

/// What an accepted call answers.
#[derive(Clone, Copy, PartialEq, Eq, Debug)]
pub enum Answer {
    /// open: the total
    Total(u32),
    /// ahead: the scan it ends at
    Reached(Scan),
    /// back: the scan it ends at
    Returned(Scan),
    /// seek: the scan it found, or none
    Found(Option<Scan>),
    /// turn: the scan, which stays
    Turned(Scan),
    /// look: a word of the state
    Word(u32),
    /// count: the steps
    Steps(u64),
}

/// What a call answers, accepted or refused, as a long list keeps it: 16 bytes, where the result of a call takes 24, since
/// a result has a tag of its own beside that of the answer in it. It is made from a result, and turned back into it.
#[derive(Clone, Copy, PartialEq, Eq, Debug)]
pub enum Reply {
    Total(u32),
    Reached(Scan),
    Returned(Scan),
    Found(Option<Scan>),
    Turned(Scan),
    Word(u32),
    Steps(u64),
    Refused(Refusal),
}

/// A held scan with its place, which is none where the scan is the total.
#[derive(Clone, Copy, PartialEq, Eq, Debug)]
pub struct Held {
    pub scan: Scan,
    pub place: Option<Place>,
}
