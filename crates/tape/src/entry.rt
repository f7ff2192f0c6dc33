// Entries of a table: what a caller hands in, and what is said of a bad one.
ghost use Rattle.std.specs.Prelude.{◌≡◌, Some};
ghost use Rattle.tape.specs.Tables.{bad_entry_text};

use std::error::Error;
use std::fmt;
use terms::Refusal;

/// The control that means rest: the format's own word in saved states, so a number.
pub const REST: u32 = 255;

/// Where the head goes: one cell down, one cell up, or nowhere.
#[derive(Clone, Copy, PartialEq, Eq, Debug)]
pub enum Move {
    Left,
    Right,
    Stay,
}

/// An entry of a table: in this control state, on this symbol, write that symbol, move the head, take the next control.
/// Any numbers may stand here, so that `set_entry` can refuse those that no table takes.
#[derive(Clone, Copy, PartialEq, Eq, Debug)]
pub struct Entry {
    pub control: u32,
    pub read: u32,
    pub write: u32,
    pub motion: Move,
    pub next: u32,
}

impl Entry {
    pub fn new(control: u32, read: u32, write: u32, motion: Move, next: u32) -> Entry
        ensures control { result.control ≡ control }
        ensures read { result.read ≡ read }
        ensures write { result.write ≡ write }
        ensures motion { result.motion ≡ motion }
        ensures next { result.next ≡ next }
    {
        Entry {
            control,
            read,
            write,
            motion,
            next,
        }
    }
}

/// The first bad entry of a table: its index, and why it is turned down.
#[derive(Clone, Copy, PartialEq, Eq, Debug)]
pub struct BadEntry {
    pub index: usize,
    pub refusal: Refusal,
}

impl fmt::Display for BadEntry {
    ghost output = { λ bad. Some (bad_entry_text bad) };

    fn fmt<W: fmt::Write>(&self, f: &mut fmt::Formatter<W>) -> fmt::Result {
        let BadEntry { index, refusal } = self;
        write!(f, "entry {index} is refused: {refusal}")
    }
}

impl Error for BadEntry {}
