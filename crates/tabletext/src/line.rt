// What a line of a table file says, and what is said of a bad one.
ghost use Rattle.std.specs.Prelude.{◌≡◌, Some};
ghost use Rattle.tabletext.specs.Texts.{bad_line_text};

use std::error::Error;
use std::fmt;
use tape::Entry;
use terms::Refusal;

#[derive(Clone, Copy, PartialEq, Eq, Debug)]
pub enum Line {
    /// nothing: it is empty or a comment
    Blank,
    /// the number of control states
    States(u32),
    /// an entry of the table
    Row(Entry),
}

/// The first bad line: its number, from 1 on, and the refusal where the tape turned down what it says.
#[derive(Clone, Copy, PartialEq, Eq, Debug)]
pub struct BadLine {
    pub line: usize,
    pub refusal: Option<Refusal>,
}

impl fmt::Display for BadLine {
    ghost output = { λ bad. Some (bad_line_text bad) };

    fn fmt<W: fmt::Write>(&self, f: &mut fmt::Formatter<W>) -> fmt::Result {
        let line = self.line;
        match self.refusal {
            Some(refusal) => write!(f, "line {line} of the table is refused: {refusal}"),
            None => write!(
                f,
                "line {line} of the table says nothing that a table can say"
            ),
        }
    }
}

impl Error for BadLine {}
