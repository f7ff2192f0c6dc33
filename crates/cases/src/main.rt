// cases: the outcome of every refusal, a line for each. Every layer has a section, one function.
#![tactic(auto)]

mod line;
mod recordings;
mod rows;
mod sessions;
mod shelves;
mod signals;
mod tapes;
mod texts;
mod writers;

use std::io;

fn main(rt: HostRuntime) -> io::Result<()> {
    recordings::faults(&rt)?;
    recordings::lengths(&rt)?;
    rows::makers(&rt)?;
    rows::states(&rt)?;
    tapes::makers(&rt)?;
    signals::makers(&rt)?;
    writers::words(&rt)?;
    writers::lists(&rt)?;
    shelves::checks(&rt)?;
    shelves::kinds(&rt)?;
    shelves::pairs(&rt)?;
    sessions::widths(&rt)?;
    sessions::calls(&rt)?;
    texts::faults(&rt)
}
