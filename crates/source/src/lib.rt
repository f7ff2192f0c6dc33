// Sources: what every list of recorded scans stands for, and the signal, a list that is computed.
#![tactic(auto)]

mod signal;

ghost use Rattle.std.specs.Prelude.{◌≡◌, ◌≤◌, List, length};
ghost use Rattle.source.specs.Scans.{Sample, Rising, most, first, reading};

pub use signal::Signal;
use terms::Place;

/// A source stands for a list of scans, each with a place and an input, the places strictly rising.
/// No call changes it.
pub trait Source {
    ghost scans: { Self → List Sample };

    /// The number of scans.
    fn total(&self) -> u32
        ensures { result ≡ length (scans self.now) };

    /// The place of the first scan, or none.
    fn first(&self) -> Option<Place>
        ensures { result ≡ first (scans self.now) };

    /// The input at a place of the list, together with the next place, if there is one; none at any other place.
    fn read(&self, place: Place) -> Option<(u32, Option<Place>)>
        ensures { result ≡ reading (scans self.now) place.0 };

    // the places rise strictly
    ghost rising: { (s : Self) → Rising (scans s) };

    // at most 999,999 scans
    ghost few: { (s : Self) → length (scans s) ≤ most };
}
