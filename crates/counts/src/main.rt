// counts L S: the steps of a walk back over L scans with S slots, and the splits of its first way up.
// counts: a table for few scans and slots, and ten counts worked out.
#![tactic(auto)]

use schedule::{count, split};
use std::{env, io};

// The pairs of the worked examples, written again: no plainer through their crate, which brings five libraries more.
const WORKED: [(u32, u32); 10] = [
    (0, 3),
    (1, 1),
    (2, 1),
    (5, 2),
    (6, 2),
    (7, 2),
    (10, 3),
    (11, 3),
    (4, 4),
    (20, 1),
];

fn row(rt: &impl Print, l: u32) -> io::Result<()> {
    print!(rt; "{l:>5}")?;
    for s in 1..7 {
        if let Some(n) = count(l, s) {
            print!(rt; "{n:>5}")?;
        }
    }
    println!(rt; "")
}

fn table(rt: &impl Print) -> io::Result<()> {
    println!(rt;
        "steps of a walk back, a row for each number of scans, a column for each number of slots"
    )?;
    println!(rt; "         1    2    3    4    5    6")?;
    for l in 0..21 {
        row(rt, l)?;
    }
    Ok(())
}

fn line(rt: &impl Print, l: u32, s: u32) -> io::Result<()> {
    match count(l, s) {
        Some(n) => println!(rt; "{l} scans, {s} slots: {n} steps"),
        None => println!(rt;
            "{l} scans, {s} slots: not counted, since at most 999999 scans and from 1 to 32 slots are"
        ),
    }
}

fn worked(rt: &impl Print) -> io::Result<()> {
    for (l, s) in WORKED {
        line(rt, l, s)?;
    }
    Ok(())
}

// The splits from scan 0 up, each with the scan where it ends, which is put into a slot unless it is the last below l.
fn splits(rt: &impl Print, l: u32, s: u32) -> io::Result<()> {
    let mut m = l;
    for g in (1..=s).rev() {
        let Some(q) = split(m, g) else {
            break;
        };
        m = m.saturating_sub(q);
        let at = l.saturating_sub(m);
        let end = if m > 1 { "put" } else { "the last" };
        println!(rt; "split by {q} with {g} slots: scan {at} is {end}")?;
    }
    Ok(())
}

// One walk, or with no arguments the table.
fn run(rt: &HostRuntime) -> anyhow::Result<()> {
    let mut args = env::args(rt)?;
    let _ = args.next();
    match (args.next(), args.next()) {
        (Some(scans), Some(slots)) => {
            let l = scans.parse::<u32>()?;
            let s = slots.parse::<u32>()?;
            line(rt, l, s)?;
            splits(rt, l, s)?;
        }
        (None, _) => {
            table(rt)?;
            worked(rt)?;
        }
        _ => println!(rt; "counts, or counts SCANS SLOTS")?,
    }
    Ok(())
}

fn main(rt: HostRuntime) -> anyhow::Result<()> {
    run(&rt)
}
