// Long random lists of calls on sessions over each kind of machine, source and store, every answer held against a
// plain viewer that keeps no snapshots.
#![tactic(auto)]

mod draw;
mod plain;
mod tally;

use copies::Copies;
use draw::{Draw, Random, draw_recording, make_row, make_tape, number, signal_inputs};
use machine::{Counter, Machine};
use pages::Pages;
use plain::{Plain, Shape, State, all_states};
use recording::Reader;
use session::{Outcome, run};
use source::{Signal, Source};
use std::alloc::{AllocError, Global};
use store::{Pair, Store};
use tally::Tally;

// The lists of a combination, and the draws of a list, each of one call or some.
const LISTS: u32 = 72;

const DRAWS: u32 = 100;

// The words that a store is given at most, a part of a fixed array: stores lie in lent words.
const ROOM: usize = 700;

// Kinds are chosen at run time, and each has a type of its own: a `dyn` value in place of these switches would have to be
// made by a function, which the gate refuses.
#[derive(Clone, Copy)]
enum MachineKind {
    Row,
    CountedRow,
    Tape,
}

#[derive(Clone, Copy)]
enum SourceKind {
    Signal,
    Recording,
}

#[derive(Clone, Copy)]
enum StoreKind {
    Copies,
    Pages,
    Pair,
    MixedPair,
    Unfit,
}

const MACHINES: [(MachineKind, &str); 3] = [
    (MachineKind::Row, "row"),
    (MachineKind::CountedRow, "counted row"),
    (MachineKind::Tape, "tape"),
];

const SOURCES: [(SourceKind, &str); 2] = [
    (SourceKind::Signal, "signals"),
    (SourceKind::Recording, "recordings"),
];

const STORES: [(StoreKind, &str); 5] = [
    (StoreKind::Copies, "copies"),
    (StoreKind::Pages, "pages"),
    (StoreKind::Pair, "two copies"),
    (StoreKind::MixedPair, "copies and pages"),
    (StoreKind::Unfit, "unfit stores"),
];

// What the sessions of a combination are made from.
#[derive(Clone, Copy)]
struct Combination {
    machine: MachineKind,
    source: SourceKind,
    store: StoreKind,
}

// The scans of a signal, and the slots of a store, by the number of a list.
const TOTALS: [u32; 4] = [40, 7, 1, 0];

const SLOTS: [u8; 9] = [3, 2, 5, 1, 8, 33, 6, 32, 12];

// What a session is made from besides its store, with what is known of it: the number of scans, and every state.
#[derive(Drop)]
struct Subject<M, S> {
    machine: M,
    source: S,
    total: u32,
    states: Vec<State>,
}

// The first words of a room, as many as it has at most.
fn front(words: &mut [u32; ROOM], count: usize) -> &mut [u32] {
    &mut words[0..count.min(ROOM)]
}

// What every list of a combination shares.
#[derive(Drop)]
struct Bench {
    heap: Global,
    random: Random,
    tally: Tally,
    // the number of the list
    list: u32,
}

impl Bench {
    // One list of calls on one session over a store of this width and so many slots.
    fn trial<M: Machine + Drop, S: Source + Drop, T: Store + Drop>(
        &mut self,
        subject: Subject<M, S>,
        store: T,
        width: usize,
        slots: usize,
    ) -> Result<(), AllocError> {
        let Subject {
            machine,
            source,
            total,
            states,
        } = subject;
        let shape = Shape {
            machine: number(M::W),
            store: number(width),
            slots: number(slots),
        };
        let mut draw = Draw {
            random: &mut self.random,
            width: shape.machine,
            slots: shape.slots,
            states: states.as_slice(),
        };
        let calls = draw.calls(DRAWS, self.heap)?;
        let Outcome {
            session: _,
            answers,
        } = run(machine, source, store, calls.as_slice(), self.heap);
        let answers = answers?;
        let mut plain = Plain::new(shape, total, states.as_slice());
        self.tally
            .compare(calls.as_slice(), answers.as_slice(), &mut plain);
        Ok(())
    }

    // A store that no session over the machine can be opened with: too wide, without a slot, of two widths, or of more than 64 slots.
    fn with_unfit<M: Machine + Drop, S: Source + Drop>(
        &mut self,
        subject: Subject<M, S>,
    ) -> Result<(), AllocError> {
        let mut first = [0; ROOM];
        let mut second = [0; ROOM];
        match self.list % 4 {
            0 => {
                let store = Copies::new(&mut first, M::W + 1);
                self.trial(subject, store, M::W + 1, (ROOM / (M::W + 1)).min(64))
            }
            1 => {
                let store = Copies::new(&mut first[0..M::W - 1], M::W);
                self.trial(subject, store, M::W, 0)
            }
            2 => {
                let wider = Pages::new(&mut second, M::W + 1);
                let store = Pair::new(Copies::new(&mut first, M::W), wider);
                self.trial(subject, store, M::W, 0)
            }
            _ => {
                let others = Copies::new(&mut second, M::W);
                let store = Pair::new(Copies::new(&mut first, M::W), others);
                self.trial(subject, store, M::W, 0)
            }
        }
    }

    // A store of the kind: copies with some words too many, pages, of which there are at most 32 slots, one copy and copies
    // after it, or pages for four snapshots and copies after them.
    fn with_store<M: Machine + Drop, S: Source + Drop>(
        &mut self,
        kind: StoreKind,
        subject: Subject<M, S>,
    ) -> Result<(), AllocError> {
        let slots = usize::from(SLOTS[(self.list % 9) as usize]);
        // the pages of a snapshot
        let pages = M::W.div_ceil(4);
        let mut first = [0; ROOM];
        let mut second = [0; ROOM];
        match kind {
            StoreKind::Copies => {
                let store = Copies::new(front(&mut first, slots * M::W + M::W / 2), M::W);
                self.trial(subject, store, M::W, slots)
            }
            StoreKind::Pages => {
                let store = Pages::new(front(&mut first, slots * pages * 4), M::W);
                self.trial(subject, store, M::W, slots.min(32))
            }
            StoreKind::Pair => {
                let one = Copies::new(front(&mut first, M::W), M::W);
                let others = Copies::new(front(&mut second, slots * M::W), M::W);
                self.trial(subject, Pair::new(one, others), M::W, slots + 1)
            }
            StoreKind::MixedPair => {
                let shared = Pages::new(front(&mut first, pages * 16), M::W);
                let others = Copies::new(front(&mut second, slots * M::W), M::W);
                self.trial(subject, Pair::new(shared, others), M::W, slots + 4)
            }
            StoreKind::Unfit => self.with_unfit(subject),
        }
    }

    // A source of the kind; the twin of the machine makes the states.
    fn with_source<M: Machine + Drop>(
        &mut self,
        kinds: Combination,
        machine: M,
        twin: M,
    ) -> anyhow::Result<()> {
        let heap = self.heap;
        match kinds.source {
            SourceKind::Signal => {
                let total = TOTALS[(self.list % 4) as usize];
                let inputs = signal_inputs(total, heap)?;
                let subject = Subject {
                    machine,
                    source: Signal::new(total)?,
                    total,
                    states: all_states(twin, inputs.as_slice(), heap)?,
                };
                self.with_store(kinds.store, subject)?;
            }
            SourceKind::Recording => {
                let recorded = draw_recording(&mut self.random, heap)?;
                let mut source = Reader::new(recorded.words.as_slice());
                source.check()?;
                let subject = Subject {
                    machine,
                    source,
                    total: number(recorded.inputs.len()),
                    states: all_states(twin, recorded.inputs.as_slice(), heap)?,
                };
                self.with_store(kinds.store, subject)?;
            }
        }
        Ok(())
    }

    // One list over a machine of the kind, which is made twice alike.
    fn with_machine(&mut self, kinds: Combination) -> anyhow::Result<()> {
        let seed = self.random.word();
        match kinds.machine {
            MachineKind::Row => self.with_source(kinds, make_row(seed)?, make_row(seed)?),
            MachineKind::CountedRow => {
                let machine = Counter::new(make_row(seed)?);
                self.with_source(kinds, machine, Counter::new(make_row(seed)?))
            }
            MachineKind::Tape => self.with_source(kinds, make_tape(seed)?, make_tape(seed)?),
        }
    }
}

// The tally of all lists of a combination.
fn run_lists(heap: Global, seed: u32, kinds: Combination) -> anyhow::Result<Tally> {
    let mut bench = Bench {
        heap,
        random: Random(seed),
        tally: Tally::default(),
        list: 0,
    };
    for list in 0..LISTS {
        bench.list = list;
        bench.with_machine(kinds)?;
    }
    let Bench { tally, .. } = bench;
    Ok(tally)
}

fn run_all(rt: &HostRuntime) -> anyhow::Result<()> {
    let mut seeds = Random(1);
    let mut wrong: usize = 0;
    for (machine, machine_name) in MACHINES {
        for (source, source_name) in SOURCES {
            for (store, store_name) in STORES {
                let kinds = Combination {
                    machine,
                    source,
                    store,
                };
                let tally = run_lists(rt.alloc(), seeds.word(), kinds)?;
                println!(rt; "{machine_name}, {source_name}, {store_name}: {tally}")?;
                wrong = wrong.wrapping_add(tally.wrong);
            }
        }
    }
    println!(rt; "disagreements {wrong}")?;
    Ok(())
}

fn main(rt: HostRuntime) -> anyhow::Result<()> {
    run_all(&rt)
}
