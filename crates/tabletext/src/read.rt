// Reading one line: each reader answers what it read, and what follows.
ghost use Rattle.std.specs.Prelude.{◌≡◌};
ghost use Rattle.std.specs.Option.{option_map};
ghost use Rattle.tabletext.specs.Grammar.{behind_space, numeral, moving, entry_of, line_of};

use crate::Line;
use tape::{Entry, Move};
use text::{leading, number};

// What the line of the control states begins with.
const HEADER: &[u8; 7] = b"states ";

// What follows a space.
fn behind_space(text: &[u8]) -> Option<&[u8]>
    ensures { option_map (λ rest. rest.now) result ≡ behind_space text.now }
{
    match text {
        [b' ', rest @ ..] => Some(rest),
        _ => None,
    }
}

// A number and a space.
fn numeral(line: &[u8]) -> Option<(u32, &[u8])>
    ensures { option_map (λ p. (p.0, p.1.now)) result ≡ numeral line.now }
{
    let (number, rest) = leading(10, line)?;
    Some((number, behind_space(rest)?))
}

// A letter for a move and a space.
fn motion(line: &[u8]) -> Option<(Move, &[u8])>
    ensures { option_map (λ p. (p.0, p.1.now)) result ≡ moving line.now }
{
    let [letter, b' ', rest @ ..] = line else {
        return None;
    };
    let motion = match *letter {
        b'L' => Move::Left,
        b'R' => Move::Right,
        b'S' => Move::Stay,
        _ => return None,
    };
    Some((motion, rest))
}

// An entry: control, symbol read, symbol written, move, next control.
fn row(line: &[u8]) -> Option<Entry>
    ensures { result ≡ entry_of line.now }
{
    let (control, rest) = numeral(line)?;
    let (read, rest) = numeral(rest)?;
    let (write, rest) = numeral(rest)?;
    let (motion, rest) = motion(rest)?;
    let next = number(10, rest)?;
    Some(Entry::new(control, read, write, motion, next))
}

/// What a line says, if anything.
pub fn read_line(line: &[u8]) -> Option<Line>
    ensures { result ≡ line_of line.now }
{
    if matches!(line, [] | [b'#', ..]) {
        return Some(Line::Blank);
    }
    match line.strip_prefix(HEADER) {
        Some(count) => Some(Line::States(number(10, count)?)),
        None => Some(Line::Row(row(line)?)),
    }
}
