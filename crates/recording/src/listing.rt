// The reader as a source: the list of its scans, read from the words themselves.
ghost use Rattle.recording.specs.Laws.{listed_rising, listed_few, total_taken};
ghost use Rattle.recording.specs.Reading.{taken, scans_of};

use crate::Reader;
use crate::finding::next_scan;
use crate::word::{content_of, is_scan};
use source::Source;
use terms::Place;

impl Source for Reader<'_> {
    ghost scans = { scans_of };

    ghost rising = { λ s. listed_rising (taken s) s.words.now };

    ghost few = { λ s. listed_few (taken s) s.words.now (total_taken s.total s.words.now s.counted) };

    fn total(&self) -> u32 {
        self.total.unwrap_or(0)
    }

    fn first(&self) -> Option<Place> {
        self.total?;
        next_scan(self.words, 0)
    }

    fn read(&self, place: Place) -> Option<(u32, Option<Place>)> {
        self.total?;
        let at = place.0 as usize;
        let word = *self.words.get(at)?;
        if !is_scan(word) {
            return None;
        }
        Some((content_of(word), next_scan(self.words, at + 1)))
    }
}
