// Random calls to a store and to the plain list, and what they told.
use crate::plain::{self, MOST, Slot, WIDTH};
use std::fmt;
use store::Store;
use terms::Refusal;

// The calls of a round.
const CALLS: u32 = 500;

// Random numbers, each from the one before.
// Three lines of its own: a crate shared with session_stress, which takes other bits, would be longer than both.
#[derive(Drop)]
struct Random(u32);

impl Random {
    fn next(&mut self) -> u32 {
        self.0 = self.0.wrapping_mul(1_664_525).wrapping_add(1_013_904_223);
        self.0 >> 8
    }

    // Words from a small choice, so that pages come again.
    fn draw(&mut self, words: &mut [u32]) {
        for word in words.iter_mut() {
            *word = self.next() >> 22;
        }
    }
}

// What a run did, and in how many calls store and plain list differed.
#[derive(Drop, Default)]
pub struct Tally {
    calls: u32,
    refused: u32,
    wrong: u32,
    sum: u32,
}

impl fmt::Display for Tally {
    fn fmt<W: fmt::Write>(&self, f: &mut fmt::Formatter<W>) -> fmt::Result {
        let Tally {
            calls,
            refused,
            wrong,
            sum,
        } = self;
        write!(
            f,
            "{calls} calls, {refused} refused, {wrong} differences, sum {sum}"
        )
    }
}

impl Tally {
    // The answers of store and list to one call.
    fn note(&mut self, answer: Result<(), Refusal>, expected: Result<(), Refusal>) {
        self.calls = self.calls.wrapping_add(1);
        if answer.is_err() {
            self.refused = self.refused.wrapping_add(1);
        }
        // the sum is over the published numbers
        let number = match answer {
            Ok(()) => 0,
            Err(refusal) => refusal.number(),
        };
        self.add(number, answer == expected);
    }

    // A number of the store beside what it should be.
    pub(crate) fn compare(&mut self, number: u32, expected: u32) {
        self.add(number, number == expected);
    }

    fn add(&mut self, number: u32, right: bool) {
        if !right {
            self.wrong = self.wrong.wrapping_add(1);
        }
        self.sum = self.sum.wrapping_mul(31).wrapping_add(number);
    }
}

// A store and a plain list, whose first slots are called alike.
#[derive(Drop)]
pub struct Trial<'t, S> {
    pub store: &'t mut S,
    pub plain: &'t mut [Slot; MOST],
    random: Random,
    pub tally: Tally,
}

impl<'t, S: Store> Trial<'t, S> {
    pub(crate) fn new(store: &'t mut S, plain: &'t mut [Slot; MOST], seed: u32) -> Trial<'t, S> {
        Trial {
            store,
            plain,
            random: Random(seed),
            tally: Tally::default(),
        }
    }

    // The plain list of a store with so many slots.
    fn listed(&mut self, slots: usize) -> &mut [Slot] {
        &mut self.plain[..slots.min(MOST)]
    }

    fn put(&mut self, slots: usize, slot: usize, words: &mut [u32]) {
        self.random.draw(words);
        let answer = self.store.put(slot, words);
        let expected = plain::put(self.listed(slots), slot, words);
        self.tally.note(answer, expected);
    }

    // A buffer keeps its words where it is refused.
    fn get(&mut self, slots: usize, slot: usize, buffer: &mut [u32]) {
        buffer.fill(7);
        let answer = self.store.get(slot, buffer);
        let expected = plain::get(self.listed(slots), slot, buffer.len());
        self.tally.note(answer, expected.map(|_| ()));
        match expected {
            Ok(words) => {
                for (word, expected) in buffer.iter().zip(words) {
                    self.tally.compare(*word, expected);
                }
            }
            Err(_) => {
                for word in buffer.iter() {
                    self.tally.compare(*word, 7);
                }
            }
        }
    }

    fn free(&mut self, slots: usize, slot: usize) {
        let answer = self.store.free(slot);
        let expected = plain::free(self.listed(slots), slot);
        self.tally.note(answer, expected);
    }

    // One random call; every ninth is of another width. At each the store is asked anew how many slots it has.
    fn call(&mut self) {
        let slots = self.store.capacity();
        let slot = self.random.next() as usize % (slots.min(MOST) + 2);
        match self.random.next() % 9 {
            0..=2 => self.put(slots, slot, &mut [0; WIDTH]),
            3..=5 => self.get(slots, slot, &mut [0; WIDTH]),
            6 | 7 => self.free(slots, slot),
            _ if self.random.next() % 2 == 0 => self.put(slots, slot, &mut [0; 5]),
            _ => self.get(slots, slot, &mut [0; 7]),
        }
    }

    pub(crate) fn round(&mut self) {
        for _ in 0..CALLS {
            self.call();
        }
    }
}
