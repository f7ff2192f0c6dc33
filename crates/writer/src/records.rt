// Records to be written, and the writing of one.
ghost use Rattle.std.specs.Prelude.{◌≡◌, ◌+◌, ◌^◌, ◌<◌, ◌≤◌, true, length, take, count_by};
ghost use Rattle.recording.specs.Format.{is_scan};
ghost use Rattle.recording.specs.Records.{spelled};
ghost use Rattle.writer.specs.Writing.{told, contents_of, narrow, ending, over};

use recording::{Kind, is_scan, word_of};

/// What can be written: a scan with its input, a mark with its number and its more words.
#[derive(Clone, Copy)]
pub enum Record<'a> {
    Scan(u32),
    Mark(u32, &'a [u32]),
}

// How many words a record takes.
pub(crate) fn words_of(item: Record<'_>) -> usize
    requires { length (contents_of item) < 2 ^ 64 }
    ensures { result ≡ length (contents_of item.entry) }
{
    match item {
        Record::Scan(_) => 1,
        Record::Mark(_, more) => more.len() + 1,
    }
}

// Writes a record over the words from an index on.
pub(crate) fn put(words: &mut [u32], at: usize, item: Record<'_>)
    requires within { at + length (contents_of item) ≤ length words.old }
    requires narrow { narrow (contents_of item) ≡ true }
    ensures { words.new ≡ over words.old at (spelled (told item.entry)) }
{
    match item {
        Record::Scan(input) => words[at] = word_of(Kind::Scan, input),
        Record::Mark(number, more) => {
            words[at] = word_of(Kind::Mark, number);
            let from = at + 1;
            words[from..from + more.len()].copy_from_slice(more);
        }
    }
}

// How many of the words are scans.
fn scans_among(words: &[u32]) -> u32
    requires { length words.now ≤ 1000000 }
    ensures value { result ≡ count_by is_scan words.now }
    ensures few { result ≤ length words.now }
{
    words.iter().map(|word| u32::from(is_scan(*word))).sum()
}

// Writes the end over the word at an index: it tells the scans among the words before it.
pub(crate) fn put_end(words: &mut [u32], at: usize)
    requires within { at < length words.old }
    requires few { at ≤ 1000000 }
    ensures { words.new ≡ over words.old at (ending (take at words.old)) }
{
    let scans = scans_among(&words[0..at]);
    words[at] = word_of(Kind::End, scans);
}
