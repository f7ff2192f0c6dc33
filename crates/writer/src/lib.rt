// The writer of recordings, lists of records written whole, and recordings read and written again.
#![tactic(auto)]

mod calls;
mod copying;
mod lists;
mod records;
mod space;
mod whole;

ghost use Rattle.std.specs.Prelude.{◌≡◌, false};

pub use copying::copy;
pub use lists::write_all;
pub use records::Record;

/// A writer over the caller's words: the first ones, as many as are used, hold what was written. Of the words at most
/// 1,000,000 are usable.
#[derive(Drop)]
pub struct Writer<'a> {
    // a rule of the project: what is written lies in the caller's words, no heap, so their used part is told by an index
    words: &'a mut [u32],
    used: usize,
    // a flag, no plainer as a type: a call on a closed writer is refused, and a type for it would ask more of callers
    closed: bool,
}

impl<'a> Writer<'a> {
    /// A writer that has used none of these words.
    pub fn new(words: &'a mut [u32]) -> Writer<'a>
        ensures words { result.words.now ≡ words.old }
        ensures name { result.words.ghost_name ≡ words.entry.ghost_name }
        ensures used { result.used ≡ 0 }
        ensures closed { result.closed ≡ false }
    {
        Writer {
            words,
            used: 0,
            closed: false,
        }
    }

    /// How many words are used.
    pub fn used(&self) -> usize
        ensures { result ≡ self.now.used }
    {
        self.used
    }
}
