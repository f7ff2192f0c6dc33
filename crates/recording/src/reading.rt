// The reader: made over words, checked, it hands out scans and marks.
ghost use Rattle.recording.specs.Checking.{Refuses, Takes};
ghost use Rattle.recording.specs.Format.{checked, samples};
ghost use Rattle.recording.specs.Reading.{taken, scans_of, left, all, seen, Next, head, tail, Asking, Among};
ghost use Rattle.recording.specs.Records.{Hands};
ghost use Rattle.std.specs.Iterator.{item_count};
ghost use Rattle.std.specs.Option.{option_map};
ghost use Rattle.std.specs.Prelude.{◌≡◌, true, false, [], is_ok, if◌then◌else◌};

use crate::checking::tally;
use crate::finding::{more_end, next_item_index};
use crate::word::{content_of, is_scan};
use crate::{Item, Reader};
use terms::{Place, Refusal};

impl<'a> Reader<'a> {
    /// A reader at the first of these words, which no check has taken yet.
    pub fn new(words: &'a [u32]) -> Reader<'a>
        ensures words { result.words.now ≡ words.now }
        ensures fresh { taken result ≡ false }
        ensures first { result.cursor ≡ 0 }
        ensures scans { scans_of result ≡ [] }
        ensures left { left result ≡ [] }
    {
        Reader {
            words,
            cursor: 0,
            total: None,
        }
    }

    /// Takes the words, or tells their first fault. A refusal changes nothing, nor does a check of words that are taken.
    pub fn check(&mut self) -> Result<(), Refusal>
        ensures value { result ≡ checked self.old.words.now }
        ensures taken { taken self.new ≡ is_ok result }
        ensures scans { scans_of self.new ≡ (if is_ok result then samples self.old.words.now else []) }
        ensures same { self.new.words.now ≡ self.old.words.now }
        ensures cursor { self.new.cursor ≡ self.old.cursor }
        ensures refused { is_ok result ≡ false → self.new ≡ self.old }
        ensures again { taken self.old ≡ true → self.new ≡ self.old }
        ensures refuses { Refuses }
        ensures takes { Takes }
    {
        if self.total.is_some() {
            return Ok(());
        }
        let total = tally(self.words)?;
        self.total = Some(total);
        Ok(())
    }

    /// The next scan or mark with its place, until there are no more.
    pub fn next_item(&mut self) -> Option<Item<'a>>
        ensures item { option_map seen result ≡ head (left self.old) }
        ensures left { left self.new ≡ tail (left self.old) }
        ensures same { self.new.words.now ≡ self.old.words.now }
        ensures taken { taken self.new ≡ taken self.old }
        ensures scans { scans_of self.new ≡ scans_of self.old }
        ensures records { Hands }
        ensures asking { Asking }
        ensures among { Among }
    {
        self.total?;
        let words = self.words;
        let Some(at) = next_item_index(words, self.cursor) else {
            self.cursor = words.len();
            return None;
        };
        let place = Place(at as u32);
        let content = content_of(words[at]);
        if is_scan(words[at]) {
            self.cursor = at + 1;
            return Some(Item::Scan {
                place,
                input: content,
            });
        }
        let end = more_end(words, at + 1);
        self.cursor = end;
        Some(Item::Mark {
            place,
            number: content,
            more: &words[at + 1..end],
        })
    }

    /// Back to the first item.
    pub fn rewind(&mut self)
        ensures left { left self.new ≡ all self.old }
        ensures same { self.new.words.now ≡ self.old.words.now }
        ensures taken { taken self.new ≡ taken self.old }
        ensures scans { scans_of self.new ≡ scans_of self.old }
    {
        self.cursor = 0;
    }
}

/// The items from the cursor on, as `next_item` hands them out. A reader is copied freely, and each copy walks by itself:
/// `for item in reader` goes through a copy and leaves the reader where it was.
impl<'a> Iterator for Reader<'a> {
    type Item = Item<'a>;

    ghost next_gives = { Next };

    ghost remaining = { item_count left };

    fn next(&mut self) -> Option<Item<'a>> {
        self.next_item()
    }
}
