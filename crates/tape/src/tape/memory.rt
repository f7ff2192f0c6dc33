// The state of a tape in the words that are saved, and one step of the machine on them.
ghost use Rattle.tape.specs.Layout.{wide, fit};
ghost use Rattle.tape.specs.Turing.{edge, size};
ghost use Rattle.std.specs.Prelude.{◌≡◌, ◌<◌, true, length, slice_index};

use crate::{Entry, Move, REST};

// The number of words of a state.
pub(super) const WORDS: usize = 10;

// The number of cells.
pub(super) const CELLS: u32 = 128;

// A state: the control, the head, then the cells, 16 to a word.
#[derive(Drop)]
pub(super) struct Memory {
    pub(super) words: [u32; WORDS],
    ghost long: { length words ≡ wide },
    ghost head: { slice_index words 1 < size },
    ghost fits: { fit words ≡ true },
}

impl Memory {
    ghost use Rattle.std.specs.Prelude.{replicate};
    ghost use Rattle.tape.specs.Layout.{configuration};
    ghost use Rattle.tape.specs.Tables.{small};
    ghost use Rattle.tape.specs.Turing.{scanned, marked, fed, acted};

    // Control 0, head 0, zeros in the cells.
    pub(super) fn new() -> Memory
        ensures { result.words ≡ replicate wide 0 }
    {
        Memory { words: [0; WORDS] }
    }

    // Takes the words of another state.
    pub(super) fn load(&mut self, words: &[u32])
        requires long { length words.now ≡ wide }
        requires head { slice_index words.now 1 < size }
        ensures { self.new.words ≡ words.now }
    {
        self.words.copy_from_slice(words);
    }

    pub(super) fn control(&self) -> u32
        ensures { result ≡ (configuration self.now.words).control }
    {
        self.words[0]
    }

    // The symbol under the head.
    pub(super) fn scanned(&self) -> u32
        ensures value { result ≡ scanned (configuration self.now.words) }
        ensures below { result < 4 }
    {
        let cell = self.words[1];
        (self.words[2 + cell as usize / 16] >> (2 * (cell % 16))) & 3
    }

    // Puts a symbol into a cell.
    pub(super) fn mark(&mut self, cell: u32, symbol: u32)
        requires cell { cell < size }
        requires symbol { symbol < 4 }
        ensures { configuration self.new.words ≡ marked cell symbol (configuration self.old.words) }
    {
        let at = 2 + cell as usize / 16;
        let shift = 2 * (cell % 16);
        let word = self.words[at];
        let old = (word >> shift) & 3;
        self.words[at] = word - (old << shift) + (symbol << shift);
    }

    // Writes an input into the cell that it addresses, if it addresses one.
    pub(super) fn feed(&mut self, input: u32)
        ensures { configuration self.new.words ≡ fed input (configuration self.old.words) }
    {
        let address = machine::address(input);
        let value = machine::value(input);
        if address >= 1 && address <= CELLS {
            self.mark(address - 1, value % 4);
        }
    }

    // Carries an entry out; a missing one only comes to rest.
    pub(super) fn act(&mut self, entry: Option<Entry>)
        requires { small entry ≡ true }
        ensures { configuration self.new.words ≡ acted entry (configuration self.old.words) }
    {
        match entry {
            None => self.words[0] = REST,
            Some(e) => {
                let head = self.words[1];
                self.mark(head, e.write);
                let (to, control) = arrive(e.motion, head, e.next);
                self.words[0] = control;
                self.words[1] = to;
            }
        }
    }
}

// Where a move leads from a cell, and the control that is taken there.
fn arrive(motion: Move, head: u32, next: u32) -> (u32, u32)
    ensures { result ≡ edge motion head next }
{
    match motion {
        Move::Left if head > 0 => (head - 1, next),
        Move::Right if head < CELLS - 1 => (head + 1, next),
        Move::Stay => (head, next),
        _ => (head, REST),
    }
}
