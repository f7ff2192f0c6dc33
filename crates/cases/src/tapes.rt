// Tapes: making one, setting entries and cells, loading.
use crate::line::report;
use machine::Machine;
use std::io;
use tape::{Entry, Move, REST, Tape};

pub(crate) fn makers(rt: &HostRuntime) -> io::Result<()> {
    report(rt, "a tape of no control states", Tape::new(0))?;
    report(rt, "a tape of 17 control states", Tape::new(17))?;
    let mut tape = Tape::new(2).unwrap();
    report(
        rt,
        "an entry for control 2 of 2",
        tape.set_entry(Entry::new(2, 0, 0, Move::Right, 0)),
    )?;
    report(
        rt,
        "an entry that goes to control 2 of 2",
        tape.set_entry(Entry::new(0, 0, 0, Move::Right, 2)),
    )?;
    report(
        rt,
        "an entry that goes to rest",
        tape.set_entry(Entry::new(0, 0, 0, Move::Right, REST)),
    )?;
    report(
        rt,
        "an entry that reads symbol 4",
        tape.set_entry(Entry::new(0, 4, 0, Move::Right, 0)),
    )?;
    report(
        rt,
        "an entry that writes symbol 4",
        tape.set_entry(Entry::new(0, 0, 4, Move::Right, 0)),
    )?;
    report(rt, "cell 128 set to 4", tape.set_cell(128, 4))?;
    report(rt, "cell 127 set to 4", tape.set_cell(127, 4))?;
    report(rt, "9 words loaded into a tape", tape.load(&[0; 9]))?;
    report(
        rt,
        "control 2 of 2 loaded into a tape",
        tape.load(&[2, 0, 0, 0, 0, 0, 0, 0, 0, 0]),
    )?;
    report(
        rt,
        "head 128 loaded into a tape",
        tape.load(&[0, 128, 0, 0, 0, 0, 0, 0, 0, 0]),
    )
}
