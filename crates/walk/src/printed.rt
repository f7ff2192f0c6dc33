// The calls of a walk, and what is printed of the replies.
use schedule::count;
use std::alloc::{AllocError, Global};
use std::io;
use terms::{Refusal, Scan};
use viewer::{Answer, Call, Reply, Watch};

// A walk over so many scans, from an open with so many slots.
#[derive(Clone, Copy)]
pub struct Plan {
    pub total: u32,
    pub slots: u32,
}

// Whether two replies in turn tell of steps in one direction.
fn goes_on(reply: &Reply, next: &Reply) -> bool {
    matches!(
        (reply, next),
        (Reply::Reached(_), Reply::Reached(_)) | (Reply::Returned(_), Reply::Returned(_))
    )
}

impl Plan {
    // Open, run to the end, turn, one back and a look; then backs down to the first scan, or seeks with a look after
    // each and one that never holds; the count, and one back too many.
    pub(crate) fn calls(
        &self,
        heap: Global,
        watch: Option<Watch>,
    ) -> Result<Vec<Call>, AllocError> {
        let mut calls = Vec::new(heap);
        calls.push(Call::Open(self.slots))?;
        for _ in 0..self.total {
            calls.push(Call::Ahead)?;
        }
        calls.push(Call::Turn)?;
        calls.push(Call::Back)?;
        calls.push(Call::Look(0))?;
        match watch {
            None => {
                for _ in 1..self.total {
                    calls.push(Call::Back)?;
                }
            }
            Some(watch) => {
                for _ in 0..3 {
                    calls.push(Call::Seek(watch))?;
                    calls.push(Call::Look(0))?;
                }
                calls.push(Call::Seek(Watch::Ones { word: 0, least: 33 }))?;
            }
        }
        calls.push(Call::Count)?;
        calls.push(Call::Back)?;
        Ok(calls)
    }

    fn print_count(&self, rt: &impl Print, steps: u64) -> io::Result<()> {
        match count(self.total, self.slots) {
            Some(formula) => println!(rt; "steps {steps}, by the formula {formula}"),
            None => println!(rt; "steps {steps}"),
        }
    }

    // A reply, which comes so many times in turn.
    fn print_reply(
        &self,
        rt: &impl Print,
        reply: Result<Answer, Refusal>,
        times: usize,
    ) -> io::Result<()> {
        match reply {
            Ok(Answer::Total(n)) => println!(rt; "open {n}"),
            Ok(Answer::Reached(Scan(n))) => println!(rt; "ahead {times}: at {n}"),
            Ok(Answer::Returned(Scan(n))) => println!(rt; "back {times}: at {n}"),
            Ok(Answer::Found(Some(Scan(n)))) => println!(rt; "seek: at {n}"),
            Ok(Answer::Found(None)) => println!(rt; "seek: none, at the first scan"),
            Ok(Answer::Turned(Scan(n))) => println!(rt; "turn: at {n}"),
            Ok(Answer::Word(w)) => println!(rt; "word 0: {w:08x}"),
            Ok(Answer::Steps(n)) => self.print_count(rt, n),
            Err(why) => println!(rt; "refused {why}"),
        }
    }

    // A line for each reply; steps in one direction share a line, which tells the last.
    pub(crate) fn print(&self, rt: &impl Print, replies: &[Reply]) -> io::Result<()> {
        for run in replies.chunk_by(goes_on) {
            if let Some(reply) = run.last() {
                self.print_reply(rt, Result::from(*reply), run.len())?;
            }
        }
        Ok(())
    }
}
