// What is drawn at random: calls, recordings, machines.
use crate::plain::{State, word_at};
use recording::{Kind, word_of};
use row::Row;
use std::alloc::{AllocError, Global};
use tape::{Entry, Move, Tape};
use terms::Refusal;
use viewer::{Call, Watch};

// Random numbers, each from the one before; the high bits are used.
// Three lines of its own: a crate shared with store_stress, which takes other bits, would be longer than both.
#[derive(Drop)]
pub struct Random(pub u32);

impl Random {
    // A number of 16 bits.
    pub(crate) fn half(&mut self) -> u32 {
        self.0 = self.0.wrapping_mul(1_664_525).wrapping_add(1_013_904_223);
        self.0 >> 16
    }

    // A word of 32 bits.
    pub(crate) fn word(&mut self) -> u32 {
        let high = self.half().wrapping_mul(65536);
        high ^ self.half()
    }

    // A number below n, which is at most 65,536; 0 where n is 0.
    pub(crate) fn below(&mut self, n: u32) -> u32 {
        self.half() % n.max(1)
    }
}

// What calls are drawn from and for: the random numbers, the machine's width, the store's slots, the states at which a watch may look.
#[derive(Drop)]
pub struct Draw<'a> {
    pub random: &'a mut Random,
    pub width: u32,
    pub slots: u32,
    pub states: &'a [State],
}

impl Draw<'_> {
    // The number of an open: mostly one that the store takes.
    fn slots(&mut self) -> u32 {
        if self.random.below(4) == 0 {
            return self.random.below(40);
        }
        self.random.below(self.slots.min(32)).wrapping_add(1)
    }

    // The number of a word: mostly one of the state's.
    fn word(&mut self) -> u32 {
        match self.random.below(24) {
            0 => self.width,
            1 => self.width.wrapping_add(self.random.below(9)),
            2 => self.random.word(),
            _ => self.random.below(self.width),
        }
    }

    // A word of some state that comes.
    fn value(&mut self) -> u32 {
        let scan = self.random.below(41);
        let word = self.random.below(self.width);
        word_at(self.states, scan, word)
    }

    // Two bits, the whole of a word that comes, or a number of ones.
    fn watch(&mut self) -> Watch {
        let word = self.word();
        match self.random.below(3) {
            0 => {
                let low: u32 = 1 << (self.random.half() % 32);
                let high: u32 = 1 << (self.random.half() % 32);
                Watch::Equal {
                    word,
                    mask: low | high,
                    value: self.random.word(),
                }
            }
            1 => Watch::Equal {
                word,
                mask: u32::MAX,
                value: self.value(),
            },
            _ => Watch::Ones {
                word,
                least: self.random.below(24),
            },
        }
    }

    // A watch that holds nowhere.
    fn hopeless(&mut self) -> Watch {
        Watch::Ones {
            word: self.random.below(self.width),
            least: 33,
        }
    }

    fn looks(&mut self, calls: &mut Vec<Call>) -> Result<(), AllocError> {
        for _ in 0..self.random.below(8).wrapping_add(1) {
            calls.push(Call::Look(self.word()))?;
        }
        Ok(())
    }

    // One call, some of one kind, or a turn with a walk to the start and a count.
    fn some(&mut self, calls: &mut Vec<Call>) -> Result<(), AllocError> {
        match self.random.below(100) {
            0..=2 => calls.push(Call::Open(self.slots()))?,
            3..=30 => repeat(calls, Call::Ahead, self.random.below(16).wrapping_add(1))?,
            31..=48 => repeat(calls, Call::Back, self.random.below(6).wrapping_add(1))?,
            49..=63 => calls.push(Call::Seek(self.watch()))?,
            64..=82 => self.looks(calls)?,
            83..=88 => calls.push(Call::Count)?,
            89..=92 => calls.push(Call::Turn)?,
            _ => {
                calls.push(Call::Turn)?;
                calls.push(Call::Count)?;
                repeat(calls, Call::Back, self.random.below(4))?;
                calls.push(Call::Seek(self.hopeless()))?;
                calls.push(Call::Count)?;
            }
        }
        Ok(())
    }

    // A list of calls, mostly with an open first.
    pub(crate) fn calls(&mut self, draws: u32, heap: Global) -> Result<Vec<Call>, AllocError> {
        let mut calls = Vec::new(heap);
        if self.random.below(5) != 0 {
            calls.push(Call::Open(self.slots()))?;
        }
        for _ in 0..draws {
            self.some(&mut calls)?;
        }
        Ok(calls)
    }
}

fn repeat(calls: &mut Vec<Call>, call: Call, times: u32) -> Result<(), AllocError> {
    for _ in 0..times {
        calls.push(call)?;
    }
    Ok(())
}

// An input of 28 bits, mostly with the address of a cell.
fn draw_input(random: &mut Random) -> u32 {
    if random.below(4) == 0 {
        return random.word() >> 4;
    }
    let value = random.below(4096).wrapping_mul(65536);
    value.wrapping_add(random.below(260))
}

// A record that is no scan, a mark or an idle one, with up to three more words.
// Its kind is a number: recording's word_of makes idle words of number 8 alone.
fn draw_gap(random: &mut Random, words: &mut Vec<u32>) -> Result<(), AllocError> {
    let kind = if random.below(2) == 0 {
        2
    } else {
        random.below(8).wrapping_add(8)
    };
    let content = random.word() >> 4;
    words.push(content.wrapping_add(kind.wrapping_mul(1 << 28)))?;
    for _ in 0..random.below(4) {
        words.push(random.word() >> 4)?;
    }
    Ok(())
}

// A count as a word; as in store_stress: one line, no crate of its own.
pub(crate) fn number(count: usize) -> u32 {
    u32::try_from(count).unwrap_or(u32::MAX)
}

// The words of a recording, and the inputs of its scans.
#[derive(Drop)]
pub struct Recorded {
    pub words: Vec<u32>,
    pub inputs: Vec<u32>,
}

// A recording of up to 40 scans, with gaps of other records between them.
pub(crate) fn draw_recording(random: &mut Random, heap: Global) -> Result<Recorded, AllocError> {
    let mut words = Vec::new(heap);
    let mut inputs = Vec::new(heap);
    for _ in 0..random.below(81) {
        if random.below(5) < 3 && inputs.len() < 40 {
            let input = draw_input(random);
            inputs.push(input)?;
            words.push(word_of(Kind::Scan, input))?;
        } else {
            draw_gap(random, &mut words)?;
        }
    }
    words.push(word_of(Kind::End, number(inputs.len())))?;
    Ok(Recorded { words, inputs })
}

// The inputs of a signal.
pub(crate) fn signal_inputs(total: u32, heap: Global) -> Result<Vec<u32>, AllocError> {
    (0..total)
        .map(|i| i.wrapping_mul(1_664_525).wrapping_add(1_013_904_223) >> 4)
        .collect(heap)
}

const RULES: [u32; 8] = [30, 110, 240, 90, 150, 45, 184, 0];

// A row with a rule and cells that the seed tells.
pub(crate) fn make_row(seed: u32) -> Result<Row, Refusal> {
    let mut random = Random(seed);
    let mut row = Row::new(RULES[(seed % 8) as usize])?;
    for _ in 0..64 {
        let _ = row.set_cell(random.below(256), 1);
    }
    Ok(row)
}

fn draw_entry(random: &mut Random) -> Entry {
    let motion = match random.below(8) {
        0 => Move::Left,
        1..=2 => Move::Stay,
        _ => Move::Right,
    };
    let (control, read, write) = (random.below(4), random.below(4), random.below(4));
    Entry::new(control, read, write, motion, random.below(4))
}

// A tape with a table and cells that the seed tells.
pub(crate) fn make_tape(seed: u32) -> Result<Tape, Refusal> {
    let mut random = Random(seed);
    let mut tape = Tape::new(4)?;
    for _ in 0..64 {
        let _ = tape.set_entry(draw_entry(&mut random));
        let _ = tape.set_cell(random.below(128), random.below(4));
    }
    Ok(tape)
}
