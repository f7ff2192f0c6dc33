// A session made and run over a list of calls, with the whole promise.
ghost use Rattle.std.specs.Prelude.{◌≡◌, IfOk, MatchResult, OnErr, OnOk, map};
ghost use Rattle.session.specs.Sessions.{IsClosed, IsOver, Keeps, Runs, Says};
ghost use Rattle.viewer.specs.Replies.{result_of};

use crate::Session;
use machine::Machine;
use source::Source;
use std::alloc::{AllocError, Global};
use store::Store;
use viewer::{Call, Reply};

/// A session after a list of calls, with the answers as a list keeps them, or with want of memory, where nothing was run.
#[derive(Drop)]
pub struct Outcome<M, S, T> {
    pub session: Session<M, S, T>,
    pub answers: Result<Vec<Reply>, AllocError>,
}

/// Makes a session from a machine, a source and a store, and runs the calls, one by one.
pub fn run<M: Machine, S: Source, T: Store>(
    machine: M,
    source: S,
    store: T,
    calls: &[Call],
    heap: Global,
) -> Outcome<M, S, T>
    ensures promise { MatchResult result.answers
        (λ v. Keeps M.Machine S.Source T.Store machine source store calls.now (map result_of v.items) result.session)
        (λ _. IsClosed M.Machine S.Source T.Store machine source store result.session) }
    ensures frame { IsOver M.Machine S.Source T.Store machine source store result.session }
{
    let mut session = Session::new(machine, source, store);
    let answers = replies(&mut session, calls, heap);
    Outcome { session, answers }
}

// The answers to the calls, or want of memory before the first of them.
fn replies<M: Machine, S: Source, T: Store>(
    session: &mut Session<M, S, T>,
    calls: &[Call],
    heap: Global,
) -> Result<Vec<Reply>, AllocError>
    ensures answers { IfOk result (λ v. Says M.Machine S.Source T.Store calls.now session.old (map result_of v.items)) }
    ensures goes { OnOk result (Runs M.Machine S.Source T.Store calls.now session.old session.new) }
    ensures same { OnErr result (session.new ≡ session.old) }
{
    let mut answers = Vec::with_capacity(heap, calls.len())?;
    for call in calls {
        answers.push_reserved(Reply::from(session.call(*call)));
    }
    Ok(answers)
}
