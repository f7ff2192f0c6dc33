// Looking ahead in a recording: for the next scan or mark, the next scan, and the end of a mark's more words.
ghost use Rattle.std.specs.Prelude.{◌≡◌, ◌<◌, ◌≤◌, true, not, [], length, drop, slice_index, slice_range, IfSome, IfNone, position};
ghost use Rattle.recording.specs.Format.{is_more, is_scan, is_mark, is_item, items_at, mores, samples_from};
ghost use Rattle.source.specs.Scans.{first};

use crate::word::{is_mark, is_more, is_scan};
use terms::Place;

fn is_item(word: u32) -> bool
    ensures { result ≡ is_item word }
{
    is_scan(word) || is_mark(word)
}

// three of one line each: tried in their callers, where the proof of `position` over a part of the words did not close

// How many words stand before the first scan or mark, if there is one.
fn before_item(words: &[u32]) -> Option<usize>
    ensures { result ≡ position is_item words.now }
{
    words.iter().position(|word| is_item(*word))
}

// How many words stand before the first that is no more word, if there is one.
fn before_record(words: &[u32]) -> Option<usize>
    ensures { result ≡ position (λ w. not (is_more w)) words.now }
{
    words.iter().position(|word| !is_more(*word))
}

// How many words stand before the first scan, if there is one.
fn before_scan(words: &[u32]) -> Option<usize>
    ensures { result ≡ position is_scan words.now }
{
    words.iter().position(|word| is_scan(*word))
}

// The index of the first scan or mark from an index on, if there is one.
pub(crate) fn next_item_index(words: &[u32], from: usize) -> Option<usize>
    requires { from ≤ length words.now }
    ensures none { IfNone result (items_at words.now from ≡ []) }
    ensures items { IfSome result (λ at. items_at words.now at ≡ items_at words.now from) }
    ensures within { IfSome result (λ at. at < length words.now) }
    ensures found { IfSome result (λ at. is_item (slice_index words.now at) ≡ true) }
{
    before_item(&words[from..]).map(|k| from + k)
}

// The index behind the more words that stand from an index on.
pub(crate) fn more_end(words: &[u32], from: usize) -> usize
    requires { from ≤ length words.now }
    ensures low { from ≤ result }
    ensures high { result ≤ length words.now }
    ensures more { slice_range words.now from result ≡ mores (drop from words.now) }
    ensures items { items_at words.now result ≡ items_at words.now from }
{
    match before_record(&words[from..]) {
        Some(k) => from + k,
        None => words.len(),
    }
}

// The place of the first scan from an index on.
pub(crate) fn next_scan(words: &[u32], from: usize) -> Option<Place>
    requires within { from ≤ length words.now }
    requires few { length words.now ≤ 1000000 }
    ensures { result ≡ first (samples_from from (drop from words.now)) }
{
    before_scan(&words[from..]).map(|k| Place((from + k) as u32))
}
