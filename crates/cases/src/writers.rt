// Writers: scans, marks and the close, and lists written whole.
use crate::line::report;
use std::io;
use writer::{Record, Writer, write_all};

pub(crate) fn words(rt: &HostRuntime) -> io::Result<()> {
    let mut words = [0u32; 4];
    let mut writer = Writer::new(&mut words);
    report(rt, "a scan of 29 bits", writer.scan(0x10000000))?;
    report(
        rt,
        "a mark whose second more word has 29 bits",
        writer.mark(1, &[2, 0x10000000]),
    )?;
    report(
        rt,
        "a mark with three more words into 4 words",
        writer.mark(1, &[2, 3, 4]),
    )?;
    report(
        rt,
        "a mark with two more words into 4 words",
        writer.mark(1, &[2, 3]),
    )?;
    report(rt, "a scan into the last word", writer.scan(5))?;
    report(rt, "a close into the last word", writer.close())?;
    report(
        rt,
        "a scan of 29 bits after the close",
        writer.scan(0x10000000),
    )?;
    report(rt, "a second close", writer.close())
}

pub(crate) fn lists(rt: &HostRuntime) -> io::Result<()> {
    let mut none = [0u32; 0];
    report(rt, "a close into no words", Writer::new(&mut none).close())?;
    let mut words = [0u32; 3];
    report(
        rt,
        "two scans and the end into 3 words",
        write_all(&mut words, &[Record::Scan(1), Record::Scan(2)]),
    )?;
    report(
        rt,
        "three scans and the end into 3 words",
        write_all(
            &mut words,
            &[Record::Scan(1), Record::Scan(2), Record::Scan(3)],
        ),
    )
}
