// The writer's calls. A refused one changes nothing.
ghost use Rattle.std.specs.Prelude.{◌≡◌, ◌+◌, true, length, is_ok, if◌then◌else◌, OnOk};
ghost use Rattle.recording.specs.Records.{scan, mark, spelled};
ghost use Rattle.writer.specs.Trips.{Completed};
ghost use Rattle.writer.specs.Writing.{told, contents_of, room_of, admits, scanning, marking, closing, front, ending, words_by, used_by};

use crate::records::{put, put_end, words_of};
use crate::space::{Space, usable};
use crate::{Record, Writer};
use terms::Refusal;

impl Writer<'_> {
    fn space(&self) -> Space
        ensures room { result.room ≡ room_of self.now }
        ensures used { result.used ≡ self.now.used }
        ensures closed { result.closed ≡ self.now.closed }
    {
        Space {
            room: usable(self.words.len()),
            used: self.used,
            closed: self.closed,
        }
    }

    /// Writes a scan.
    pub fn scan(&mut self, input: u32) -> Result<(), Refusal>
        ensures value { result ≡ scanning (room_of self.old) self.old.used self.old.closed input }
        ensures words { self.new.words.now ≡ words_by result self.old (spelled (scan input)) }
        ensures used { self.new.used ≡ used_by result self.old 1 }
        ensures closed { self.new.closed ≡ self.old.closed }
        ensures name { self.new.words.ghost_name ≡ self.old.words.ghost_name }
    {
        self.write(Record::Scan(input))
    }

    /// Writes a mark with its number and its more words.
    pub fn mark(&mut self, number: u32, more: &[u32]) -> Result<(), Refusal>
        ensures value { result ≡ marking (room_of self.old) self.old.used self.old.closed number more.now }
        ensures words { self.new.words.now ≡ words_by result self.old (spelled (mark number more.now)) }
        ensures used { self.new.used ≡ used_by result self.old (length more.now + 1) }
        ensures closed { self.new.closed ≡ self.old.closed }
        ensures name { self.new.words.ghost_name ≡ self.old.words.ghost_name }
    {
        self.write(Record::Mark(number, more))
    }

    /// Writes a record.
    pub fn write(&mut self, item: Record<'_>) -> Result<(), Refusal>
        ensures value { result ≡ admits self.old (contents_of item.entry) }
        ensures words { self.new.words.now ≡ words_by result self.old (spelled (told item.entry)) }
        ensures used { self.new.used ≡ used_by result self.old (length (contents_of item.entry)) }
        ensures closed { self.new.closed ≡ self.old.closed }
        ensures name { self.new.words.ghost_name ≡ self.old.words.ghost_name }
    {
        self.space().admit(item)?;
        put(self.words, self.used, item);
        self.used += words_of(item);
        Ok(())
    }

    /// Writes the end, which tells the number of scans written.
    pub fn close(&mut self) -> Result<(), Refusal>
        ensures value { result ≡ closing (room_of self.old) self.old.used self.old.closed }
        ensures words { self.new.words.now ≡ words_by result self.old (ending (front self.old)) }
        ensures used { self.new.used ≡ used_by result self.old 1 }
        ensures closed { self.new.closed ≡ (if is_ok result then true else self.old.closed) }
        ensures name { self.new.words.ghost_name ≡ self.old.words.ghost_name }
        ensures back { OnOk result (Completed (front self.old) self.new.used self.new.words.now) }
    {
        self.space().admit_end()?;
        put_end(self.words, self.used);
        self.used += 1;
        self.closed = true;
        Ok(())
    }
}
