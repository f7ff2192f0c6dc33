// The check of a recording's words: one fault decided per word, the first fault met decides.
ghost use Rattle.recording.specs.Checking.{tallied};
ghost use Rattle.std.specs.Result.{result_err};
ghost use Rattle.recording.specs.Format.{fault_at};
ghost use Rattle.std.specs.Prelude.{◌≡◌};

use crate::word::{LONGEST, content_of, is_end, is_more, is_scan, is_unknown};
use terms::{Place, Refusal};

// Refuses a word at a place with its fault, tried in the order of the refusals' numbers: `scans` stand before it, `after`
// says that the word before it is a scan, `over` that the end was met.
fn judge(index: u32, scans: u32, after: bool, over: bool, word: u32) -> Result<(), Refusal>
    ensures { result_err result ≡ fault_at index scans after over word }
{
    let place = Place(index);
    if is_more(word) && (index == 0 || after) {
        return Err(Refusal::StrayMore(place));
    }
    if is_unknown(word) {
        return Err(Refusal::UnknownKind(place));
    }
    if is_end(word) && content_of(word) != scans {
        return Err(Refusal::WrongTotal(place));
    }
    if over {
        return Err(Refusal::AfterEnd(place));
    }
    Ok(())
}

// The number of scans, where the check takes the words.
pub(crate) fn tally(words: &[u32]) -> Result<u32, Refusal>
    ensures { result ≡ tallied words.now }
{
    if words.len() > LONGEST {
        return Err(Refusal::TooLong);
    }
    let mut scans = 0;
    let mut after = false;
    let mut over = false;
    // a loop and not a fold, which is no plainer: three values are carried, and the first fault ends it
    for (i, word) in words.iter().enumerate() {
        judge(i as u32, scans, after, over, *word)?;
        after = is_scan(*word);
        scans += u32::from(after);
        over |= is_end(*word);
    }
    if over {
        Ok(scans)
    } else {
        Err(Refusal::NoEnd(Place(words.len() as u32)))
    }
}
