// Lines of text that stand for records.
#![tactic(auto)]

mod reading;

ghost use Rattle.recordtext.specs.Lines.{line_of, scan_of, mark_of, Reads, fault_text};
ghost use Rattle.recordtext.specs.declared.Fault.TheVariants.{NoMemory};
ghost use Rattle.std.specs.Prelude.{◌≡◌, Some};

use reading::{all_blank, behind, read_numbers};
use std::alloc::{AllocFailed, Global};
use std::error::Error;
use std::fmt;

/// What a line stands for.
#[derive(Drop)]
pub enum Line {
    Blank,
    Scan(u32),
    Mark(u32, Vec<u32>),
}

/// Why a line is not read.
#[derive(Clone, Copy, PartialEq, Eq, Debug)]
pub enum Fault {
    Bad,
    NoMemory,
}

impl fmt::Display for Fault {
    ghost output = { λ fault. Some (fault_text fault) };

    fn fmt<W: fmt::Write>(&self, f: &mut fmt::Formatter<W>) -> fmt::Result {
        match self {
            Fault::Bad => write!(f, "neither a scan nor a mark"),
            Fault::NoMemory => write!(f, "no memory"),
        }
    }
}

impl Error for Fault {}

// by hand: thiserror's has no contract, and the clauses say when memory fails
impl<T: Drop> From<AllocFailed<T>> for Fault {
    ghost from_gives = { λ _ r. r ≡ NoMemory };

    fn from(_e: AllocFailed<T>) -> Self {
        Self::NoMemory
    }
}

fn scan_line(numbers: Vec<u32>) -> Result<Line, Fault>
    ensures { Reads (scan_of (Some numbers.items)) result }
{
    match numbers.as_slice() {
        [input] => Ok(Line::Scan(*input)),
        _ => Err(Fault::Bad),
    }
}

fn mark_line(mut numbers: Vec<u32>) -> Result<Line, Fault>
    ensures { Reads (mark_of (Some numbers.items)) result }
{
    if numbers.is_empty() {
        return Err(Fault::Bad);
    }
    let number = numbers.remove(0);
    Ok(Line::Mark(number, numbers))
}

/// What a line stands for, its end of line left out. Refused where it stands for nothing that is known, or for want of memory.
pub fn parse(heap: Global, text: &[u8]) -> Result<Line, Fault>
    ensures { Reads (line_of text.now) result }
{
    if all_blank(text) {
        return Ok(Line::Blank);
    }
    if let Some(rest) = behind(b"scan", text) {
        return scan_line(read_numbers(heap, rest)?);
    }
    if let Some(rest) = behind(b"mark", text) {
        return mark_line(read_numbers(heap, rest)?);
    }
    Err(Fault::Bad)
}
