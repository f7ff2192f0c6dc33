// The signal: a source whose inputs are computed from the scan number.
ghost use Rattle.std.specs.Prelude.{◌≡◌, ◌<◌, ◌≤◌, IfErr, IfOk, OnErr, OnOk};
ghost use Rattle.source.specs.Laws.{from_rising, from_few};
ghost use Rattle.source.specs.Signals.{from};
ghost use Rattle.terms.specs.declared.Refusal.TheVariants.{OutOfLimits};

use crate::Source;
use terms::{Place, Refusal};

/// A source of `total` scans; the place of a scan is its number.
#[derive(Clone, Copy)]
pub struct Signal {
    total: u32,
    ghost few: { total ≤ 999999 },
}

impl Signal {
    /// A signal of so many scans, at most 999,999.
    pub fn new(total: u32) -> Result<Signal, Refusal>
        ensures taken { OnOk result (total ≤ 999999) }
        ensures total { IfOk result (λ s. s.total ≡ total) }
        ensures past { OnErr result (999999 < total) }
        ensures refused { IfErr result (λ e. e ≡ OutOfLimits) }
    {
        if total > 999_999 {
            return Err(Refusal::OutOfLimits);
        }
        Ok(Signal { total })
    }
}

impl Source for Signal {
    ghost scans = { λ s. from 0 s.total };

    fn total(&self) -> u32 {
        self.total
    }

    fn first(&self) -> Option<Place> {
        (self.total > 0).then_some(Place(0))
    }

    fn read(&self, place: Place) -> Option<(u32, Option<Place>)> {
        let Place(i) = place;
        if i >= self.total {
            return None;
        }
        let input = i.wrapping_mul(1_664_525).wrapping_add(1_013_904_223) >> 4;
        let next = i + 1;
        Some((input, (next < self.total).then_some(Place(next))))
    }

    ghost rising = { λ s. from_rising 0 s.total };

    ghost few = { λ s. from_few 0 s.total s.few };
}
