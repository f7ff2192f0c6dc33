// Records that are written whole, with the end, or not at all: from a list, or as a reader hands them out.
ghost use Rattle.std.specs.Prelude.{◌≡◌, ◌≤◌, true, false, [], ◌∷◌, List, length, is_ok, IfSome, IfNone};
ghost use Rattle.recording.specs.Records.{closed, AllFine, Record};
ghost use Rattle.writer.specs.Writing.{told, writing, over};

use crate::Writer;
use crate::records::{Record, words_of};
use crate::space::Space;
use terms::Refusal;

// Records that come one after another. `records` are those that are still to come. The loops below are `while let`: with
// an iterator in its place the trait would need a law on what `next` gives, and be no plainer.
pub(crate) trait Records<'a> {
    ghost records: { Self → List Record };

    fn next_record(&mut self) -> Option<Record<'a>>
        ensures some { IfSome result (λ item. records self.old ≡ told item ∷ records self.new) }
        ensures none { IfNone result (records self.old ≡ []) }
        ensures last { IfNone result (records self.new ≡ []) };
}

// How many words of the room these records and the end take, or the first refusal that writing them one by one would give.
pub(crate) fn plan<'a, R: Records<'a> + Drop>(room: usize, mut records: R) -> Result<usize, Refusal>
    ensures { result ≡ writing room 0 (R.records records) }
{
    let mut space = Space {
        room,
        used: 0,
        closed: false,
    };
    while let Some(item) = records.next_record() {
        space.admit(item)?;
        space.used += words_of(item);
    }
    space.admit_end()?;
    Ok(space.used + 1)
}

// Writes these records and the end, for which there is room, with a writer that has written nothing.
fn write_each<'a, R: Records<'a> + Drop>(
    writer: &mut Writer<'_>,
    mut records: R,
) -> Result<(), Refusal>
    requires unused { writer.old.used ≡ 0 }
    requires unclosed { writer.old.closed ≡ false }
    requires room { length (closed (R.records records)) ≤ length writer.old.words.now }
    requires few { length (closed (R.records records)) ≤ 1000000 }
    requires fine { AllFine (R.records records) }
    ensures value { is_ok result ≡ true }
    ensures words { writer.new.words.now ≡ over writer.old.words.now 0 (closed (R.records records)) }
    ensures name { writer.new.words.ghost_name ≡ writer.old.words.ghost_name }
{
    while let Some(item) = records.next_record() {
        writer.write(item)?;
    }
    writer.close()
}

// The same with a new writer on these words.
pub(crate) fn fill<'a, R: Records<'a> + Drop>(words: &mut [u32], records: R) -> Result<(), Refusal>
    requires room { length (closed (R.records records)) ≤ length words.old }
    requires few { length (closed (R.records records)) ≤ 1000000 }
    requires fine { AllFine (R.records records) }
    ensures value { is_ok result ≡ true }
    ensures words { words.new ≡ over words.old 0 (closed (R.records records)) }
{
    let mut writer = Writer::new(words);
    write_each(&mut writer, records)
}
