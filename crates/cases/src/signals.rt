// Signals: making one.
use crate::line::report;
use source::Signal;
use std::io;

pub(crate) fn makers(rt: &HostRuntime) -> io::Result<()> {
    report(rt, "a signal of 999,999 scans", Signal::new(999_999))?;
    report(rt, "a signal of 1,000,000 scans", Signal::new(1_000_000))
}
