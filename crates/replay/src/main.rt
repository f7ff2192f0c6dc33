// replay: runs a recording through a machine and prints the machine's words after each scan.
#![tactic(auto)]

mod call;
mod print;
mod trouble;

use call::{Call, Kind, asked};
use machine::Machine;
use print::{print_items, print_total};
use recording::Reader;
use rerun::replay_states;
use row::Row;
use std::process::ExitCode;
use std::{env, fs};
use tabletext::read_tape;
use tape::Tape;
use terms::Refusal;
use trouble::Trouble;
use words::read_words;

// The row that a call asks for, its start cells set: any number of them here, at most one in walk.
// A function in row for both would be longer than both.
fn made_row(rule: u32, cells: &[u32]) -> Result<Row, Refusal> {
    let mut row = Row::new(rule)?;
    for cell in cells {
        row.set_cell(*cell, 1)?;
    }
    Ok(row)
}

// The tape that a table's file tells.
fn made_tape(rt: &HostRuntime, file: &str) -> Result<Tape, Trouble> {
    let text = fs::read(rt, file).map_err(Trouble::NoTable)?;
    Ok(read_tape(text.as_slice())?)
}

// The scans and marks of a recording, with the machine's words after each scan.
fn print_run<M: Machine + Drop>(
    rt: &HostRuntime,
    mut machine: M,
    reader: &mut Reader,
) -> Result<(), Trouble> {
    let states = replay_states(rt.alloc(), &mut machine, reader)?;
    print_total(rt, reader)?;
    print_items(rt, reader, states.as_slice(), M::W)?;
    Ok(())
}

fn replayed(rt: &HostRuntime) -> Result<(), Trouble> {
    let heap = rt.alloc();
    let Call { kind, recording } = asked(heap, env::args(rt)?)?;
    let text = fs::read(rt, recording.as_str()).map_err(Trouble::NoFile)?;
    let words = read_words(heap, text.as_slice())?;
    let mut reader = Reader::new(words.as_slice());
    reader.check()?;
    match kind {
        Kind::Row { rule, cells } => {
            print_run(rt, made_row(rule, cells.as_slice())?, &mut reader)?;
            println!(rt; "end: every scan went through a row under rule {rule}")?;
        }
        Kind::Tape { table } => {
            print_run(rt, made_tape(rt, table.as_str())?, &mut reader)?;
            println!(rt; "end: every scan went through a tape")?;
        }
    }
    Ok(())
}

fn main(rt: HostRuntime) -> ExitCode {
    match replayed(&rt) {
        Ok(()) => ExitCode::SUCCESS,
        Err(trouble) => {
            let _ = eprintln!(rt; "replay: {trouble}");
            ExitCode::FAILURE
        }
    }
}
