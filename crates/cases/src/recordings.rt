// Recordings that the check takes or turns down.
use crate::line::report;
use recording::Reader;
use std::io;

fn check(rt: &HostRuntime, what: &str, words: &[u32]) -> io::Result<()> {
    let mut reader = Reader::new(words);
    report(rt, what, reader.check())
}

pub(crate) fn faults(rt: &HostRuntime) -> io::Result<()> {
    check(rt, "the end alone", &[0x3000_0000])?;
    check(
        rt,
        "an idle record with a more word, a scan, the end",
        &[0x8000_0007, 0x0000_0009, 0x1000_0002, 0x3000_0001],
    )?;
    check(rt, "a more word first", &[0x0000_0001, 0x3000_0000])?;
    check(rt, "a more word after a scan", &[0x1000_0000, 0x0000_0001])?;
    check(rt, "a record of kind 4", &[0x4000_0000, 0x3000_0000])?;
    check(
        rt,
        "a record of kind 7 after a mark",
        &[0x2000_0000, 0x7000_0000],
    )?;
    check(
        rt,
        "an end that tells 2 scans after one",
        &[0x1000_0000, 0x3000_0002],
    )?;
    check(rt, "a scan after the end", &[0x3000_0000, 0x1000_0000])?;
    check(rt, "a more word after the end", &[0x3000_0000, 0x0000_0001])?;
    check(
        rt,
        "a record of kind 5 after the end",
        &[0x3000_0000, 0x5000_0000],
    )?;
    check(rt, "a wrong end after the end", &[0x3000_0000, 0x3000_0001])?;
    check(rt, "no words", &[])?;
    check(rt, "a scan and no end", &[0x1000_0000])
}

pub(crate) fn lengths(rt: &HostRuntime) -> io::Result<()> {
    let words = vec![in rt.alloc(); 0x8000_0000; 1_000_001]?;
    check(rt, "1,000,001 idle words", words.as_slice())?;
    check(
        rt,
        "1,000,000 idle words and no end",
        &words.as_slice()[1..],
    )
}
