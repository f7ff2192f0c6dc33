// Reads lines that stand for records from standard input, and prints the recording as hexadecimal words.
#![tactic(auto)]

use anyhow::anyhow;
use recordtext::{Line, parse};
use std::alloc::Global;
use std::process::ExitCode;
use terms::Refusal;
use writer::Writer;

// As in walk: three lines, no crate of their own.
fn refused(why: Refusal) -> anyhow::Error {
    anyhow!("refused {why}")
}

// Writes what a line stands for.
fn write_line(heap: Global, writer: &mut Writer<'_>, text: &[u8]) -> anyhow::Result<()> {
    match parse(heap, text)? {
        Line::Blank => Ok(()),
        Line::Scan(input) => writer.scan(input).map_err(refused),
        Line::Mark(number, more) => writer.mark(number, more.as_slice()).map_err(refused),
    }
}

// What went wrong, with the number of its line.
fn tell(rt: &HostRuntime, number: u64, trouble: anyhow::Error) -> anyhow::Result<ExitCode> {
    eprintln!(rt; "line {number}: {trouble}")?;
    Ok(ExitCode::FAILURE)
}

fn run(rt: &HostRuntime) -> anyhow::Result<ExitCode> {
    let mut words = vec![in rt.alloc(); 0u32; 1_000_000]?;
    let mut writer = Writer::new(words.as_mut_slice());
    // counted by hand: enumerate would be no plainer, since the number of the last line is told behind the loop too
    let mut number = 0u64;
    for line in rt.lines(rt.alloc()) {
        number = number.saturating_add(1);
        let line = line?;
        if let Err(trouble) = write_line(rt.alloc(), &mut writer, line.as_bytes()) {
            return tell(rt, number, trouble);
        }
    }
    if let Err(refusal) = writer.close() {
        return tell(rt, number, refused(refusal));
    }
    let used = writer.used();
    for word in words.iter().take(used) {
        println!(rt; "{word:08x}")?;
    }
    Ok(ExitCode::SUCCESS)
}

fn main(rt: HostRuntime) -> anyhow::Result<ExitCode> {
    run(&rt)
}
