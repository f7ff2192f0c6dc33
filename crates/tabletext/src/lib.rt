// Table files: the text from which a tape is made, one entry a line.
#![tactic(auto)]

mod file;
mod line;
mod read;

pub use file::read_tape;
pub use line::{BadLine, Line};
pub use read::read_line;
