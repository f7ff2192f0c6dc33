// Words of 32 bits from hexadecimal text.
#![tactic(auto)]

ghost use Rattle.std.specs.Prelude.{◌≡◌, ◌+◌, ◌^◌, ◌<◌, ◌≤◌, Some, Ok, vec_len, MatchResult};
ghost use Rattle.words.specs.Hexadecimal.{is_blank, bare, word_of, added, read_all, Tells, Adds, fault_text};
ghost use Rattle.words.specs.declared.Fault.TheVariants.{NoMemory};

use std::alloc::{AllocFailed, Global};
use std::error::Error;
use std::fmt;
use terms::Place;
use text::number;

/// Why a text gives no words.
#[derive(Clone, Copy, PartialEq, Eq, Debug)]
pub enum Fault {
    /// 4 GiB of text or more.
    TooLong,
    /// A piece that is no word; the place counts the words before it.
    NoWord(Place),
    NoMemory,
}

impl fmt::Display for Fault {
    ghost output = { λ fault. Some (fault_text fault) };

    fn fmt<W: fmt::Write>(&self, f: &mut fmt::Formatter<W>) -> fmt::Result {
        match self {
            Fault::TooLong => write!(f, "the recording has 4 GiB of text or more"),
            Fault::NoWord(Place(at)) => write!(
                f,
                "word {at} of the recording is no hexadecimal number of one to eight digits (the first word is 0)"
            ),
            Fault::NoMemory => write!(f, "no memory"),
        }
    }
}

impl Error for Fault {}

// by hand: thiserror's has no contract, and the clauses say when memory fails
impl<T: Drop> From<AllocFailed<T>> for Fault {
    ghost from_gives = { λ _ r. r ≡ NoMemory };

    fn from(_e: AllocFailed<T>) -> Self {
        Self::NoMemory
    }
}

fn is_blank(byte: u8) -> bool
    ensures { result ≡ is_blank byte }
{
    matches!(byte, b' ' | b'\t'..=b'\r')
}

// A piece without the 0x that it may begin with.
fn without_prefix(piece: &[u8]) -> &[u8]
    ensures { result.now ≡ bare piece.now }
{
    piece.strip_prefix(b"0x").unwrap_or(piece)
}

// The word that a piece of text writes.
fn word_of(piece: &[u8]) -> Option<u32>
    ensures { result ≡ word_of piece.now }
{
    let digits = without_prefix(piece);
    if digits.len() > 8 {
        return None;
    }
    number(16, digits)
}

// A piece behind the words before it; an empty one adds nothing.
// As in recordtext, and no plainer as one function: blanks, limits, the 0x and the fault's place differ.
fn add(words: &mut Vec<u32>, piece: &[u8]) -> Result<(), Fault>
    requires { vec_len words.old < 2 ^ 32 }
    ensures value { Adds (added words.old.items piece.now) words.new.items result }
    ensures len { vec_len words.new ≤ vec_len words.old + 1 }
{
    if piece.is_empty() {
        return Ok(());
    }
    let word = word_of(piece).ok_or(Fault::NoWord(Place(words.len() as u32)))?;
    words.push(word)?;
    Ok(())
}

/// The words of a text.
pub fn read_words(heap: Global, text: &[u8]) -> Result<Vec<u32>, Fault>
    ensures { MatchResult result (λ v. read_all text.now ≡ Ok v.items) (λ e. Tells (read_all text.now) e) }
{
    if text.len() > u32::MAX as usize {
        return Err(Fault::TooLong);
    }
    let mut words = Vec::new(heap);
    for piece in text.split(|b| is_blank(*b)) {
        add(&mut words, piece)?;
    }
    Ok(words)
}
