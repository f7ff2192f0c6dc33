// A whole source run through a machine, with or without telling the state after each scan.
#![tactic(auto)]

ghost use Rattle.std.specs.Prelude.{◌≡◌, ◌+◌, ◌≤◌, ◌++◌, vec_len, vec_capacity, IfErr, IfOk, OnErr, OnOk};
ghost use Rattle.rerun.specs.Runs.{end_of, run_of, scan_at, stepped, told_of};
ghost use Rattle.terms.specs.declared.Failure.TheVariants.{NoMemory};

use machine::{Machine, snapshot};
use source::Source;
use std::alloc::Global;
use terms::{Failure, Place};

// The input at a place of the list, with the next place; 0 and none where nothing stands there:
// 0 and no Option, total as the definition is; the loop counts the scans, so it ends without a proof that places rise.
fn scan_at<S: Source>(source: &S, place: Option<Place>) -> (u32, Option<Place>)
    ensures { result ≡ scan_at (S.scans source.now) place }
{
    place
        .and_then(|here| source.read(here))
        .unwrap_or((0, None))
}

// One step by the scan at a place, and the place after it.
fn advance<M: Machine, S: Source>(
    machine: &mut M,
    source: &S,
    place: Option<Place>,
) -> Option<Place>
    ensures place { result ≡ (scan_at (S.scans source.now) place).1 }
    ensures state { M.state machine.new ≡ stepped M.Machine S.Source machine.old source.now place }
    ensures rule { M.next machine.new ≡ M.next machine.old }
    ensures law { M.lawful machine.new ≡ M.lawful machine.old }
{
    let (input, after) = scan_at(source, place);
    machine.step(input);
    after
}

/// Every scan of the source, the first one first: the machine goes from x(0) to x(total).
pub fn replay<M: Machine, S: Source>(machine: &mut M, source: &S)
    ensures state { M.state machine.new ≡ end_of M.Machine S.Source machine.old source.now }
    ensures run { M.state machine.new ≡ run_of M.Machine S.Source machine.old source.now }
    ensures rule { M.next machine.new ≡ M.next machine.old }
    ensures law { M.lawful machine.new ≡ M.lawful machine.old }
{
    let mut place = source.first();
    for _scan in 0..source.total() {
        place = advance(machine, source, place);
    }
}

// The machine's words behind those that were told before, where there is room for them.
fn tell<M: Machine>(machine: &M, states: &mut Vec<u32>)
    requires { vec_len states.old + M.W ≤ vec_capacity states.old }
    ensures items { states.new.items ≡ states.old.items ++ M.state machine.now }
    ensures len { vec_len states.new ≡ vec_len states.old + M.W }
    ensures capacity { vec_capacity states.old ≤ vec_capacity states.new }
{
    let buffer = snapshot(machine);
    let _ = states.extend_from_slice(&buffer[0..M::W]);
}

/// The same run, and the words of x(1), x(2), .. x(total), one state after another.
/// Room for all of them is got before the first step: without it nothing is run.
pub fn replay_states<M: Machine, S: Source>(
    heap: Global,
    machine: &mut M,
    source: &S,
) -> Result<Vec<u32>, Failure>
    ensures states { IfOk result (λ v. v.items ≡ told_of M.Machine S.Source machine.old source.now) }
    ensures memory { IfErr result (λ e. e ≡ NoMemory) }
    ensures after { OnOk result (M.state machine.new ≡ end_of M.Machine S.Source machine.old source.now) }
    ensures same { OnErr result (machine.new ≡ machine.old) }
    ensures rule { M.next machine.new ≡ M.next machine.old }
    ensures law { M.lawful machine.new ≡ M.lawful machine.old }
{
    let total = source.total();
    // words one after another, and no rows: W is no array's length in generic code, and callers take the words flat
    let mut states = Vec::with_capacity(heap, total as usize * M::W)?;
    let mut place = source.first();
    // tried as one loop with a closure told each state: no proof learns what the closure borrowed and filled
    for _scan in 0..total {
        place = advance(machine, source, place);
        tell(machine, &mut states);
    }
    Ok(states)
}
