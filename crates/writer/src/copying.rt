// A recording read and written again.
ghost use Rattle.std.specs.Prelude.{◌≡◌, map, IfOk};
ghost use Rattle.recording.specs.Reading.{left, seen};
ghost use Rattle.writer.specs.Trips.{bare, without_idle, copying, fitting, Rewritten};
ghost use Rattle.writer.specs.Writing.{told, room, written};

use crate::Record;
use crate::space::usable;
use crate::whole::{Records, fill, plan};
use recording::{Item, Reader};
use terms::Refusal;

// What was handed out, to be written.
fn record_of<'a>(item: Item<'a>) -> Record<'a>
    ensures { told result ≡ bare (seen item.entry) }
{
    match item {
        Item::Scan { place: _, input } => Record::Scan(input),
        Item::Mark {
            place: _,
            number,
            more,
        } => Record::Mark(number, more),
    }
}

impl<'a> Records<'a> for Reader<'a> {
    ghost records = { λ s. map bare (left s) };

    fn next_record(&mut self) -> Option<Record<'a>> {
        self.next_item().map(record_of)
    }
}

/// Checks a recording, and writes what a reader hands out of it, and the end, over the first words; tells how many words
/// these are. A recording at fault is refused by its fault; what cannot be written whole is refused as the first of the
/// single calls would refuse it. Then nothing is written.
pub fn copy(recording: &[u32], words: &mut [u32]) -> Result<usize, Refusal>
    ensures value { result ≡ copying (room words.old) recording.now }
    ensures fits { result ≡ fitting (room words.old) recording.now }
    ensures words { words.new ≡ written result words.old 0 (without_idle recording.now) }
    ensures back { IfOk result (λ n. Rewritten recording.now n words.new) }
{
    let mut reader = Reader::new(recording);
    reader.check()?;
    let used = plan(usable(words.len()), reader)?;
    fill(words, reader)?;
    Ok(used)
}
