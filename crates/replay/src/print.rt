// What is printed of a recording.
use recording::{Item, Reader};
use source::Source;
use std::{fmt, io};
use terms::Place;

// A colon and words in hexadecimal, a blank before each; nothing where there are none.
#[derive(Clone, Copy)]
struct Words<'a>(&'a [u32]);

impl fmt::Display for Words<'_> {
    fn fmt<W: fmt::Write>(&self, f: &mut fmt::Formatter<W>) -> fmt::Result {
        if !self.0.is_empty() {
            write!(f, ":")?;
        }
        for word in self.0 {
            write!(f, " {word:08x}")?;
        }
        Ok(())
    }
}

// The numbers of scans and marks; the reader goes back to its first item.
pub(crate) fn print_total(rt: &HostRuntime, reader: &mut Reader) -> io::Result<()> {
    let scans = reader.total();
    // tried as filter and count: count asks that the number fits a usize, which did not close
    let mut marks = 0u32;
    for item in reader.by_ref() {
        if let Item::Mark { .. } = item {
            marks = marks.saturating_add(1);
        }
    }
    reader.rewind();
    println!(rt; "{scans} scans, {marks} marks")
}

// A line for each scan, with the state after it, and for each mark with its more words.
pub(crate) fn print_items(
    rt: &HostRuntime,
    reader: &mut Reader,
    states: &[u32],
    width: usize,
) -> io::Result<()> {
    let mut rows = states.chunks(width.max(1));
    // counted by hand: a scan keeps its number where no row is left for it, so enumerate would be no plainer
    let mut scan = 0u32;
    for item in reader {
        match item {
            Item::Scan {
                place: Place(at),
                input,
            } => {
                let state = Words(rows.next().unwrap_or(&[]));
                println!(rt; "scan {scan} at {at}, input {input:07x}{state}")?;
                scan = scan.saturating_add(1);
            }
            Item::Mark {
                place: Place(at),
                number,
                more,
            } => {
                let more = Words(more);
                println!(rt; "mark {number} at {at}{more}")?;
            }
        }
    }
    Ok(())
}
