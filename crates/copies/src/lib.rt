// A store of full copies: snapshots one after another in lent words.
#![tactic(auto)]

ghost use Rattle.std.specs.Prelude.{◌≡◌, ◌+◌, ◌*◌, ◌<◌, ◌≤◌, length, replicate, slice_index_or};
ghost use Rattle.copies.specs.Copying.{checking, count, slots_few, slots_sized};
ghost use Rattle.copies.specs.Stored.{width_of, words_of, rest_of, stored_slots};
ghost use Rattle.store.specs.Slots.{empty, is_held, putting, puts, getting, got, freeing, frees};

use store::{MOST, Store, WIDEST, may_free, may_get, may_put};
use terms::Refusal;

/// Slot j lies at the words from j times the width on, and is in use where its mark says so.
/// A mark beside the words and no Option of them: the words are lent, and hold snapshots alone.
#[derive(Drop)]
pub struct Copies<'a> {
    words: &'a mut [u32],
    width: usize,
    marks: [bool; MOST],
}

impl<'a> Copies<'a> {
    /// Whether words can hold snapshots of a width.
    pub fn check(words: &[u32], width: usize) -> Result<(), Refusal>
        ensures { result ≡ checking width (length words.now) }
    {
        if width < 1 || width > WIDEST {
            return Err(Refusal::WrongWidth);
        }
        if words.len() < width {
            return Err(Refusal::BadPool);
        }
        Ok(())
    }

    /// An empty store in the words, none of which it changes.
    pub fn new(words: &'a mut [u32], width: usize) -> Copies<'a>
        ensures slots { stored_slots result ≡ replicate (count width (length words.old)) empty }
        ensures width { width_of result ≡ width }
        ensures words { words_of result ≡ words.old }
        ensures lent { result.words.ghost_name ≡ words.entry.ghost_name }
    {
        Copies {
            words,
            width,
            marks: [false; MOST],
        }
    }

    // Whether the slot is there and holds a snapshot.
    fn is_held(&self, slot: usize) -> bool
        ensures { result ≡ is_held (slice_index_or (stored_slots self.now) slot empty) }
    {
        slot < self.capacity() && self.marks[slot]
    }

    // Where the words of a slot begin.
    fn start(&self, slot: usize) -> usize
        requires { slot < length (stored_slots self.now) }
        ensures start { result ≡ slot * width_of self.now }
        ensures end { result + width_of self.now ≤ length (words_of self.now) }
    {
        slot * self.width
    }

    // The slot's words into the buffer.
    fn read(&self, slot: usize, buffer: &mut [u32]) -> Result<(), Refusal>
        ensures value { result ≡ getting (width_of self.now) (stored_slots self.now) slot (length buffer.old) }
        ensures after { buffer.new ≡ got (width_of self.now) (stored_slots self.now) slot buffer.old }
    {
        let held = self.is_held(slot);
        may_get(self.capacity(), self.width, slot, buffer.len(), held)?;
        let at = self.start(slot);
        buffer.copy_from_slice(&self.words[at..at + self.width]);
        Ok(())
    }
}

impl<'a> Store for Copies<'a> {
    ghost wide = { width_of };

    ghost slots = { stored_slots };

    ghost tidy = { λ _. Unit {0} };

    fn width(&self) -> usize {
        self.width
    }

    fn capacity(&self) -> usize
        ensures slots { result ≡ length (stored_slots self.now) }
        ensures few { result ≤ 64 }
    {
        match Copies::check(self.words, self.width) {
            Ok(()) => (self.words.len() / self.width).min(MOST),
            Err(_) => 0,
        }
    }

    fn put(&mut self, slot: usize, words: &[u32]) -> Result<(), Refusal>
        ensures value { result ≡ putting (width_of self.old) (stored_slots self.old) slot words.now }
        ensures after { stored_slots self.new ≡ puts (width_of self.old) (stored_slots self.old) slot words.now }
        ensures width { width_of self.new ≡ width_of self.old }
        ensures rest { rest_of self.new ≡ rest_of self.old }
        ensures lent { self.new.words.ghost_name ≡ self.old.words.ghost_name }
    {
        may_put(self.capacity(), self.width, slot, words.len())?;
        let at = self.start(slot);
        self.words[at..at + self.width].copy_from_slice(words);
        self.marks[slot] = true;
        Ok(())
    }

    fn get(&mut self, slot: usize, buffer: &mut [u32]) -> Result<(), Refusal>
        ensures value { result ≡ getting (width_of self.old) (stored_slots self.old) slot (length buffer.old) }
        ensures after { buffer.new ≡ got (width_of self.old) (stored_slots self.old) slot buffer.old }
        ensures same { stored_slots self.new ≡ stored_slots self.old }
        ensures width { width_of self.new ≡ width_of self.old }
        ensures words { words_of self.new ≡ words_of self.old }
        ensures lent { self.new.words.ghost_name ≡ self.old.words.ghost_name }
    {
        self.read(slot, buffer)
    }

    fn free(&mut self, slot: usize) -> Result<(), Refusal>
        ensures value { result ≡ freeing (stored_slots self.old) slot }
        ensures after { stored_slots self.new ≡ frees (stored_slots self.old) slot }
        ensures width { width_of self.new ≡ width_of self.old }
        ensures words { words_of self.new ≡ words_of self.old }
        ensures lent { self.new.words.ghost_name ≡ self.old.words.ghost_name }
    {
        may_free(self.capacity(), slot, self.is_held(slot))?;
        self.marks[slot] = false;
        Ok(())
    }

    ghost few = { λ s. slots_few s.marks s.words.now s.width };

    ghost sized = { λ s. slots_sized s.marks s.words.now s.width };

    ghost kept = { λ _. tt };
}
