// The tally of a combination: answers by kind, disagreements, and a checksum.
use crate::plain::Plain;
use std::fmt;
use terms::{Refusal, Scan};
use viewer::{Answer, Call, Reply};

// The refusals that a session has.
const REASONS: [(Refusal, &str); 7] = [
    (Refusal::NotOpen, "not open"),
    (Refusal::BadSlots, "bad slots"),
    (Refusal::WidthsDiffer, "widths differ"),
    (Refusal::AtStart, "at start"),
    (Refusal::AlreadyOpen, "already open"),
    (Refusal::AtEnd, "at end"),
    (Refusal::NoWord, "no word"),
];

// A number of its own for each answer of a kind; the stored sums are made of these very numbers, which no derived hash
// gives.
fn digest(reply: Result<Answer, Refusal>) -> u64 {
    match reply {
        Ok(Answer::Total(n)) => u64::from(n),
        Ok(Answer::Reached(Scan(n))) => u64::from(n).wrapping_add(1 << 33),
        Ok(Answer::Returned(Scan(n))) => u64::from(n).wrapping_add(2 << 33),
        Ok(Answer::Found(Some(Scan(n)))) => u64::from(n).wrapping_add(3 << 33),
        Ok(Answer::Found(None)) => 4 << 33,
        Ok(Answer::Turned(Scan(n))) => u64::from(n).wrapping_add(5 << 33),
        Ok(Answer::Word(w)) => u64::from(w).wrapping_add(6 << 33),
        Ok(Answer::Steps(n)) => n.wrapping_add(7 << 33),
        Err(why) => u64::from(why.number()).wrapping_add(8 << 33),
    }
}

// Whether a reply is what was expected: where nothing is known, any number of steps.
fn agrees(expected: Result<Option<Answer>, Refusal>, reply: Result<Answer, Refusal>) -> bool {
    match expected {
        Ok(Some(answer)) => reply == Ok(answer),
        Ok(None) => matches!(reply, Ok(Answer::Steps(_))),
        Err(why) => reply == Err(why),
    }
}

// One more.
fn up(count: &mut usize) {
    *count = count.wrapping_add(1);
}

// Counted as the replies come, so that none is kept.
#[derive(Default, Drop)]
pub struct Tally {
    calls: usize,
    opens: usize,
    aheads: usize,
    backs: usize,
    finds: usize,
    misses: usize,
    words: usize,
    turns: usize,
    counts: usize,
    // numbers of steps that were known beforehand
    known: usize,
    refusals: usize,
    // the refusals by their reason, in the order of REASONS
    reasons: [usize; 7],
    pub wrong: usize,
    sum: u64,
}

impl Tally {
    // Holds the replies to a list of calls against the plain viewer's.
    pub(crate) fn compare(&mut self, calls: &[Call], replies: &[Reply], plain: &mut Plain<'_>) {
        if calls.len() != replies.len() {
            up(&mut self.wrong);
        }
        for (call, reply) in calls.iter().zip(replies) {
            let reply = Result::from(*reply);
            let expected = plain.call(*call);
            if let Ok(Some(Answer::Steps(_))) = expected {
                up(&mut self.known);
            }
            if !agrees(expected, reply) {
                up(&mut self.wrong);
            }
            self.note(reply);
        }
    }

    fn note(&mut self, reply: Result<Answer, Refusal>) {
        up(&mut self.calls);
        match reply {
            Ok(Answer::Total(_)) => up(&mut self.opens),
            Ok(Answer::Reached(_)) => up(&mut self.aheads),
            Ok(Answer::Returned(_)) => up(&mut self.backs),
            Ok(Answer::Found(Some(_))) => up(&mut self.finds),
            Ok(Answer::Found(None)) => up(&mut self.misses),
            Ok(Answer::Word(_)) => up(&mut self.words),
            Ok(Answer::Turned(_)) => up(&mut self.turns),
            Ok(Answer::Steps(_)) => up(&mut self.counts),
            Err(why) => self.note_refusal(why),
        }
        self.sum = self
            .sum
            .wrapping_mul(6_364_136_223_846_793_005)
            .wrapping_add(digest(reply));
    }

    fn note_refusal(&mut self, why: Refusal) {
        up(&mut self.refusals);
        for ((reason, _), count) in REASONS.iter().zip(&mut self.reasons) {
            if *reason == why {
                up(count);
            }
        }
    }

    // The refusals, all and by their reason.
    fn tell_refusals<W: fmt::Write>(&self, f: &mut fmt::Formatter<W>) -> fmt::Result {
        let mut other = self.refusals;
        write!(f, "{other} refusals (")?;
        for ((_, name), count) in REASONS.iter().zip(&self.reasons) {
            other = other.saturating_sub(*count);
            write!(f, "{count} {name}, ")?;
        }
        write!(f, "{other} other)")
    }
}

// A line of the report, behind the name of the combination.
impl fmt::Display for Tally {
    fn fmt<W: fmt::Write>(&self, f: &mut fmt::Formatter<W>) -> fmt::Result {
        let Tally {
            calls,
            opens,
            aheads,
            backs,
            finds,
            misses,
            words,
            turns,
            counts,
            known,
            wrong,
            sum,
            ..
        } = self;
        write!(
            f,
            "{calls} calls, {opens} opens, {aheads} aheads, {backs} backs, {finds} finds, {misses} misses, "
        )?;
        write!(
            f,
            "{words} words, {turns} turns, {counts} counts ({known} known), "
        )?;
        self.tell_refusals(f)?;
        write!(f, ", {wrong} disagreements, sum {sum:016x}")
    }
}
