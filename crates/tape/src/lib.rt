// The tape: a Turing machine on 128 cells whose table and cells a caller sets.
#![tactic(auto)]

mod entry;
mod tape;

pub use entry::{BadEntry, Entry, Move, REST};
pub use tape::Tape;
