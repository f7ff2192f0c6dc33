// Sessions: what each call refuses.
use crate::line::report;
use copies::Copies;
use row::Row;
use session::Session;
use source::Signal;
use std::io;
use viewer::Watch;

pub(crate) fn widths(rt: &HostRuntime) -> io::Result<()> {
    let row = Row::new(30).unwrap();
    let signal = Signal::new(1).unwrap();
    let mut words = [0u32; 16];
    let mut session = Session::new(row, signal, Copies::new(&mut words, 4));
    report(
        rt,
        "a session over a store of width 4 opened",
        session.open(1),
    )
}

pub(crate) fn calls(rt: &HostRuntime) -> io::Result<()> {
    let row = Row::new(30).unwrap();
    let signal = Signal::new(1).unwrap();
    let mut words = [0u32; 16];
    let mut session = Session::new(row, signal, Copies::new(&mut words, 8));
    report(rt, "a step ahead before the open", session.ahead())?;
    report(rt, "opened with no slots", session.open(0))?;
    report(rt, "opened with 3 of 2 slots", session.open(3))?;
    report(rt, "opened with 2 slots", session.open(2))?;
    report(rt, "opened again", session.open(2))?;
    report(rt, "back at the first scan", session.back())?;
    report(rt, "word 8 looked at", session.look(8))?;
    report(
        rt,
        "a seek in word 8 at the first scan",
        session.seek(Watch::Ones { word: 8, least: 1 }),
    )?;
    report(
        rt,
        "a seek in word 7 at the first scan",
        session.seek(Watch::Ones { word: 7, least: 1 }),
    )?;
    report(rt, "one step ahead", session.ahead())?;
    report(rt, "a step past the last scan", session.ahead())
}
