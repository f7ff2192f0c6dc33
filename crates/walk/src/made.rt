// The machine, the source and the store that a request names, and the session over them. Each has a type of its own, so
// the function that chooses one hands it on to the next, which is generic in it.
use crate::asked::{Feed, Keep, Kind, Request};
use crate::printed::Plan;
use anyhow::anyhow;
use copies::Copies;
use machine::Machine;
use pages::Pages;
use recording::Reader;
use row::Row;
use session::{Outcome, run};
use source::{Signal, Source};
use std::fs;
use store::{Pair, Store};
use tabletext::read_tape;
use tape::Tape;
use terms::Refusal;
use words::read_words;

// As in record: three lines, no crate of their own.
fn refused(why: Refusal) -> anyhow::Error {
    anyhow!("refused {why}")
}

// What a store tells of its pages: how many are used, and how many are free.
trait Usage {
    fn pages(&self) -> Option<(usize, usize)>;
}

impl Usage for Copies<'_> {
    fn pages(&self) -> Option<(usize, usize)> {
        None
    }
}

impl Usage for Pages<'_> {
    fn pages(&self) -> Option<(usize, usize)> {
        Some((self.pages_used(), self.pages_free()))
    }
}

impl<F: Store, S: Store + Usage> Usage for Pair<F, S> {
    fn pages(&self) -> Option<(usize, usize)> {
        self.second().pages()
    }
}

// The session over these three, run to the end and back.
fn run_session<M: Machine + Drop, S: Source + Drop, T: Store + Usage + Drop>(
    rt: &HostRuntime,
    machine: M,
    source: S,
    store: T,
    ask: &Request<'_>,
) -> anyhow::Result<()> {
    let plan = Plan {
        total: source.total(),
        slots: ask.slots,
    };
    let calls = plan.calls(rt.alloc(), ask.watch)?;
    let Outcome { session, answers } = run(machine, source, store, calls.as_slice(), rt.alloc());
    plan.print(rt, answers?.as_slice())?;
    if let Some((used, free)) = session.store().pages() {
        println!(rt; "pages used {used}, free {free}")?;
    }
    Ok(())
}

// The words of a store: 32 slots of full copies, a pool of 512 pages, or both.
fn choose_store<M: Machine + Drop, S: Source + Drop>(
    rt: &HostRuntime,
    machine: M,
    source: S,
    ask: &Request<'_>,
) -> anyhow::Result<()> {
    let mut copied = vec![in rt.alloc(); 0u32; 1024]?;
    let mut paged = vec![in rt.alloc(); 0u32; 2048]?;
    match ask.keep {
        Keep::Copies => run_session(rt, machine, source, Copies::new(&mut copied, M::W), ask),
        Keep::Pages => run_session(rt, machine, source, Pages::new(&mut paged, M::W), ask),
        Keep::Pair => {
            let small = Copies::new(&mut copied[0..8 * M::W], M::W);
            let pair = Pair::new(small, Pages::new(&mut paged, M::W));
            run_session(rt, machine, source, pair, ask)
        }
    }
}

// A recording is read as in replay, which tells other faults of it: a function for both would be no shorter.
fn choose_source<M: Machine + Drop>(
    rt: &HostRuntime,
    machine: M,
    ask: &Request<'_>,
) -> anyhow::Result<()> {
    match ask.feed {
        Feed::Signal(total) => {
            let signal = Signal::new(total).map_err(refused)?;
            choose_store(rt, machine, signal, ask)
        }
        Feed::Recording(file) => {
            let text = fs::read(rt, file)?;
            let words = read_words(rt.alloc(), text.as_slice()).map_err(|_| anyhow!(
                "the recording is no list of hexadecimal words"
            ))?;
            let mut reader = Reader::new(words.as_slice());
            reader.check().map_err(refused)?;
            choose_store(rt, machine, reader, ask)
        }
    }
}

// At most one cell is set, in replay any number: a function in row for both would be longer than both.
fn made_row(rule: u32, cell: Option<u32>) -> Result<Row, Refusal> {
    let mut row = Row::new(rule)?;
    if let Some(cell) = cell {
        row.set_cell(cell, 1)?;
    }
    Ok(row)
}

// The whole of a request, from its machine on.
pub(crate) fn walk(rt: &HostRuntime, ask: &Request<'_>) -> anyhow::Result<()> {
    match ask.kind {
        Kind::Row { rule, cell } => {
            let row = made_row(rule, cell).map_err(refused)?;
            choose_source(rt, row, ask)
        }
        Kind::Tape { table } => {
            let text = fs::read(rt, table)?;
            let tape = read_tape(text.as_slice()).map_err(|_| anyhow!("the table has a bad line"))?;
            choose_source(rt, tape, ask)
        }
    }
}
