// The space that a writer has: which words of it are used, and whether what is written is closed.
ghost use Rattle.std.specs.Prelude.{◌≡◌, ◌+◌, ◌-◌, ◌^◌, ◌∷◌, min, nat_lt};
ghost use Rattle.recording.specs.Format.{longest};
ghost use Rattle.writer.specs.Writing.{narrow, contents_of, admitting, closing};

use crate::Record;
use recording::LONGEST;
use terms::Refusal;

// How many of so many words are usable.
pub(crate) fn usable(length: usize) -> usize
    ensures { result ≡ min length longest }
{
    length.min(LONGEST)
}

fn is_narrow(content: u32) -> bool
    ensures { result ≡ nat_lt content (2 ^ 28) }
{
    content < 1 << 28
}

fn all_narrow(contents: &[u32]) -> bool
    ensures { result ≡ narrow contents.now }
{
    contents.iter().all(|content| is_narrow(*content))
}

// So many usable words, of which the first ones are used.
#[derive(Clone, Copy)]
pub(crate) struct Space {
    pub(crate) room: usize,
    pub(crate) used: usize,
    pub(crate) closed: bool,
}

impl Space {
    // Whether fewer words are unused than so many and two more.
    fn lacks(&self, more: usize) -> bool
        ensures { result ≡ nat_lt (self.now.room - self.now.used) (more + 2) }
    {
        let unused = self.room.saturating_sub(self.used);
        unused < 2 || unused - 2 < more
    }

    // Whether a record with this content and these more words can be written.
    fn admit_contents(&self, content: u32, more: &[u32]) -> Result<(), Refusal>
        ensures { result ≡ admitting self.now.room self.now.used self.now.closed (content ∷ more.now) }
    {
        if self.closed {
            return Err(Refusal::Closed);
        }
        if !is_narrow(content) || !all_narrow(more) {
            return Err(Refusal::WideContent);
        }
        if self.lacks(more.len()) {
            return Err(Refusal::NoRoom);
        }
        Ok(())
    }

    // Whether a record can be written.
    pub(crate) fn admit(&self, item: Record<'_>) -> Result<(), Refusal>
        ensures { result ≡ admitting self.now.room self.now.used self.now.closed (contents_of item.entry) }
    {
        match item {
            Record::Scan(input) => self.admit_contents(input, &[]),
            Record::Mark(number, more) => self.admit_contents(number, more),
        }
    }

    // Whether the end can be written.
    pub(crate) fn admit_end(&self) -> Result<(), Refusal>
        ensures { result ≡ closing self.now.room self.now.used self.now.closed }
    {
        if self.closed {
            return Err(Refusal::Closed);
        }
        if self.used >= self.room {
            return Err(Refusal::NoRoom);
        }
        Ok(())
    }
}
