// The arithmetic of walking back: the least number of repetitions, the split of a gap, the count of steps.
// A number outside the limits is answered by none. The theorems of the walk stand on these functions.
#![tactic(auto)]

ghost use Rattle.std.specs.Prelude.{◌≡◌, ◌≤◌};
ghost use Rattle.checkpoints.specs.Theorems.{Binomial, Least, Inside, Price, Stays, Walk, Closed, Scheduled, Cheapest, Worked};
ghost use Rattle.schedule.specs.Answers.{is_within_limits, is_splittable, level, level_of, rounds_of, split_of, count_of};

// The most scans, and the most slots.
const SCANS: u32 = 999_999;

const SLOTS: u32 = 32;

// Whether l scans and s slots are within the limits.
fn is_within_limits(l: u32, s: u32) -> bool
    ensures { result ≡ is_within_limits l s }
{
    l <= SCANS && s >= 1 && s <= SLOTS
}

// Whether a gap of m scans can be split among g slots.
fn is_splittable(m: u32, g: u32) -> bool
    ensures { result ≡ is_splittable m g }
{
    is_within_limits(m, g) && m >= 2 && g >= 2
}

// The least r that reaches a number of scans, with B(s, r), B(s, r − 1) and B(s, r − 2).
#[derive(Clone, Copy)]
struct Level {
    rounds: u32,
    top: u32,
    below: u32,
    under: u32,
}

// Raises r until B(s, r) is no longer below l: B(s, r) = B(s, r − 1) × (s + r) / r.
// A `while`, since how often it turns is what is sought.
fn climb(l: u32, s: u32) -> Level
    requires some { 2 ≤ s }
    requires slots { s ≤ 64 }
    requires scans { l ≤ 999999 }
    ensures { result ≡ level l s }
{
    let mut r = 0;
    let mut top = 1;
    let mut below = 0;
    let mut under = 0;
    while top < l {
        under = below;
        below = top;
        r += 1;
        top = top * (s + r) / r;
    }
    Level {
        rounds: r,
        top,
        below,
        under,
    }
}

// The same for one slot too, where B(1, r) = r + 1; none outside the limits.
fn reached(l: u32, s: u32) -> Option<Level>
    ensures { result ≡ level_of l s }
{
    if !is_within_limits(l, s) {
        return None;
    }
    if s > 1 {
        return Some(climb(l, s));
    }
    let r = l.saturating_sub(1);
    Some(Level {
        rounds: r,
        top: r + 1,
        below: r,
        under: r.saturating_sub(1),
    })
}

/// The least r with l ≤ B(s, r).
#[tactic(auto, using(crate::proofs::Rules::of_rounds))]
pub fn rounds(l: u32, s: u32) -> Option<u32>
    ensures value { result ≡ rounds_of l s }
    ensures least { Least }
    ensures binomial { Binomial }
{
    Some(reached(l, s)?.rounds)
}

/// How far above its foot the next snapshot of a gap of m scans goes, with g slots: max(1, B(g, r − 2), m − B(g − 1, r)).
#[tactic(auto, using(crate::proofs::Rules::of_split))]
pub fn split(m: u32, g: u32) -> Option<u32>
    ensures value { result ≡ split_of m g }
    ensures inside { Inside }
    ensures price { Price }
    ensures stays { Stays }
{
    if !is_splittable(m, g) {
        return None;
    }
    let at = climb(m, g);
    let rest = at.top - at.below;
    let least = m.saturating_sub(rest);
    let q = at.under.max(least).max(1);
    Some(q)
}

/// The steps of a walk back over l scans with s slots.
#[tactic(auto, using(crate::proofs::Rules::of_count))]
pub fn count(l: u32, s: u32) -> Option<u64>
    ensures value { result ≡ count_of l s }
    ensures cheapest { Cheapest }
    ensures scheduled { Scheduled }
    ensures closed { Closed }
    ensures walk { Walk }
    ensures worked { Worked }
{
    let at = reached(l, s)?;
    let r = u64::from(at.rounds);
    let spared = r * u64::from(at.top) / (u64::from(s) + 1);
    Some(r * u64::from(l) - spared)
}
