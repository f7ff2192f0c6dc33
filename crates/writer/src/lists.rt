// Lists of records, written whole or not at all.
ghost use Rattle.std.specs.Prelude.{◌≡◌, map, IfOk};
ghost use Rattle.recording.specs.Records.{closed};
ghost use Rattle.writer.specs.Writing.{told, room, writing, written};
ghost use Rattle.writer.specs.Trips.{ReadsBack};

use crate::Record;
use crate::space::usable;
use crate::whole::{Records, fill, plan};
use std::slice::Iter;
use terms::Refusal;

impl<'a> Records<'a> for Iter<'_, Record<'a>> {
    ghost records = { λ s. map told s.rest.now };

    fn next_record(&mut self) -> Option<Record<'a>> {
        self.next().copied()
    }
}

/// Writes a list of records and the end over the first words, and tells how many words these are. What cannot be
/// written whole is refused as the first of the single calls would refuse it, and then nothing is written.
pub fn write_all(words: &mut [u32], records: &[Record<'_>]) -> Result<usize, Refusal>
    ensures value { result ≡ writing (room words.old) 0 (map told records.now) }
    ensures words { words.new ≡ written result words.old 0 (closed (map told records.now)) }
    ensures back { IfOk result (λ n. ReadsBack (map told records.now) n words.new) }
{
    let used = plan(usable(words.len()), records.iter())?;
    fill(words, records.iter())?;
    Ok(used)
}
