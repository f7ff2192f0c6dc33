// Recordings: the check of a recording's words, and the reader that goes through them.
#![tactic(auto)]

mod checking;
mod finding;
mod listing;
mod reading;
mod word;

ghost use Rattle.std.specs.Prelude.{◌≡◌, ◌≤◌, length, Ok};
ghost use Rattle.std.specs.Option.{ForSome};
ghost use Rattle.recording.specs.Checking.{tallied};

use terms::Place;
pub use word::{Kind, LONGEST, content_of, is_scan, word_of};

/// A reader over the caller's words. It stands for no scans until its check has taken them.
#[derive(Clone, Copy)]
pub struct Reader<'a> {
    // a rule of the project: recordings stay in the caller's words, no heap; an index, since read and rewind look at all of them
    words: &'a [u32],
    // the index from which the next item is looked for
    cursor: usize,
    // the number of scans, once the words are taken
    total: Option<u32>,
    ghost counted: { ForSome total (λ n. tallied words.now ≡ Ok n) },
    ghost within: { cursor ≤ length words.now },
}

/// What a reader hands out.
#[derive(Clone, Copy)]
pub enum Item<'a> {
    /// a scan with its input
    Scan {
        place: Place,
        input: u32,
    },
    /// a mark with its number and its more words, which are a part of the recording
    Mark {
        place: Place,
        number: u32,
        more: &'a [u32],
    },
}

#[cfg(test)]
mod tests {
    use super::*;
    use source::Source;
    use std::test::Fail;

    // An idle record with a more word, a scan, the end.
    #[test]
    fn one_scan(rt: HostRuntime) -> Result<(), Fail> {
        let words = [0x8000_0007, 0x0000_0009, 0x1000_0002, 0x3000_0001];
        let mut reader = Reader::new(&words);
        reader.check()?;
        assert!(rt; reader.total() == 1);
        assert_eq!(rt; reader.first(), Some(Place(2)));
        assert_eq!(rt; reader.read(Place(2)), Some((2, None)));
        Ok(())
    }

    // The end alone.
    #[test]
    fn no_scans(rt: HostRuntime) -> Result<(), Fail> {
        let words = [0x3000_0000];
        let mut reader = Reader::new(&words);
        reader.check()?;
        assert!(rt; reader.total() == 0);
        assert_eq!(rt; reader.first(), None);
        Ok(())
    }
}
