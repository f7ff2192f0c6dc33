// Rows: making one, setting a start cell, saving and loading.
use crate::line::report;
use machine::{Counter, Machine};
use row::Row;
use std::io;

pub(crate) fn makers(rt: &HostRuntime) -> io::Result<()> {
    report(rt, "a row under rule 256", Row::new(256))?;
    let mut row = Row::new(255).unwrap();
    report(rt, "cell 255 set to 1", row.set_cell(255, 1))?;
    report(rt, "cell 256 set to 1", row.set_cell(256, 1))?;
    report(rt, "cell 255 set to 2", row.set_cell(255, 2))?;
    report(rt, "cell 256 set to 2", row.set_cell(256, 2))
}

pub(crate) fn states(rt: &HostRuntime) -> io::Result<()> {
    let mut row = Counter::new(Row::new(90).unwrap());
    report(rt, "a row saved into 8 words", row.save(&mut [0; 8]))?;
    report(rt, "a row saved into 7 words", row.save(&mut [0; 7]))?;
    report(rt, "a row saved into 9 words", row.save(&mut [0; 9]))?;
    report(rt, "8 words loaded into a row", row.load(&[0; 8]))?;
    report(rt, "no words loaded into a row", row.load(&[]))?;
    report(rt, "9 words loaded into a row", row.load(&[0; 9]))
}
