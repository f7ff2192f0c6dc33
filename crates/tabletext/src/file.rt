// Reading a whole table file.
ghost use Rattle.std.specs.Prelude.{◌≡◌, replicate, IfOk};
ghost use Rattle.std.specs.Io.BufRead.{strip_last};
ghost use Rattle.tabletext.specs.Grammar.{line_of};
ghost use Rattle.tabletext.specs.Texts.{lines_of, taken, table_of, made, seen, Takes, Fresh};
ghost use Rattle.tape.specs.Layout.{wide};
ghost use Rattle.tape.specs.Tapes.{state};

use crate::read::read_line;
use crate::{BadLine, Line};
use tape::Tape;

// A text without the end of its last line.
fn without_last_end(text: &[u8]) -> &[u8]
    ensures { result.now ≡ strip_last 10 text.now }
{
    text.strip_suffix(b"\n").unwrap_or(text)
}

// Takes one line behind those that made a tape, if there is one: the number of control states makes it, an entry changes it.
fn take_line(tape: &mut Option<Tape>, line: usize, text: &[u8]) -> Result<(), BadLine>
    ensures value { Takes (taken (line_of text.now) line (made tape.old)) (made tape.new) result }
    ensures fresh { Fresh tape.old → Fresh tape.new }
{
    let bad = BadLine {
        line,
        refusal: None,
    };
    let refused = |refusal| BadLine {
        line,
        refusal: Some(refusal),
    };
    match read_line(text).ok_or(bad)? {
        Line::Blank => {}
        Line::States(_) if tape.is_some() => return Err(bad),
        Line::States(count) => *tape = Some(Tape::new(count).map_err(refused)?),
        Line::Row(entry) => {
            let Some(tape) = tape else {
                return Err(bad);
            };
            tape.set_entry(entry).map_err(refused)?;
        }
    }
    Ok(())
}

/// The tape of a table file, or the first bad line.
pub fn read_tape(text: &[u8]) -> Result<Tape, BadLine>
    ensures value { seen result ≡ table_of 0 (lines_of text.now) }
    ensures fresh { IfOk result (λ t. state t ≡ replicate wide 0) }
{
    if text.is_empty() {
        return Err(BadLine {
            line: 0,
            refusal: None,
        });
    }
    let mut tape = None;
    // counted here: enumerate would be no plainer, since the number of the last line is told behind the loop too
    let mut line = 0;
    for content in without_last_end(text).split(|b| *b == b'\n') {
        line += 1;
        take_line(&mut tape, line, content)?;
    }
    tape.ok_or(BadLine {
        line,
        refusal: None,
    })
}
