// A line of the report: what was tried, and what came of it.
use std::io;
use terms::Refusal;

pub(crate) fn report<T: Drop>(
    rt: &HostRuntime,
    what: &str,
    res: Result<T, Refusal>,
) -> io::Result<()> {
    match res {
        Ok(_) => println!(rt; "{what}: taken"),
        Err(refusal) => println!(rt; "{what}: refused, {refusal}"),
    }
}
