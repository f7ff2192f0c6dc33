// A store of shared pages: a snapshot is a row of page numbers, and equal pages lie at one place.
#![tactic(auto)]

mod laying;
mod used;

ghost use Rattle.std.specs.Prelude.{◌≡◌, ◌-◌, ◌≤◌, length, replicate, slice_index_or};
ghost use Rattle.paging.specs.Layout.{whole, checking, count as fitting};
ghost use Rattle.paging.specs.Pages.{shot, slots_few, slots_sized, TidyAll};
ghost use Rattle.store.specs.Slots.{empty, is_held, putting, puts, getting, got, freeing, frees};

use crate::laying::{LARGEST, PAGE, lay, pages_in, word};
use crate::used::{Row, Used};
use store::{Store, WIDEST, may_free, may_get, may_put};
use terms::Refusal;

// The most slots.
const MOST: usize = 32;

/// Slot j holds the snapshot whose pages row j names.
#[derive(Drop)]
pub struct Pages<'a> {
    words: &'a mut [u32],
    width: usize,
    rows: [Option<Row>; MOST],
    ghost tidy: { TidyAll rows words.now width },
}

// The words of the pages of a row into the buffer.
fn collect(row: &Row, pool: &[u32], buffer: &mut [u32])
    requires { length buffer.old ≤ 32 }
    ensures { buffer.new ≡ shot pool.now (length buffer.old) row.now }
{
    // by index: of the buffer after an adapter of `iter_mut` a proof knows nothing
    for i in 0..buffer.len() {
        buffer[i] = word(pool, PAGE * usize::from(row[i / PAGE]) + i % PAGE);
    }
}

impl<'a> Pages<'a> {
    ghost use Rattle.pages.specs.Stored.{width_of, pool_of, stored_slots, TidyOf, used_of};

    /// Whether words can hold the pages of snapshots of a width.
    pub fn check(words: &[u32], width: usize) -> Result<(), Refusal>
        ensures { result ≡ checking width (length words.now) }
    {
        if width < 1 || width > WIDEST {
            return Err(Refusal::WrongWidth);
        }
        let pages = words.len() / PAGE;
        if pages < pages_in(width) || pages > LARGEST {
            return Err(Refusal::BadPool);
        }
        Ok(())
    }

    /// An empty store over the words, none of which it changes.
    pub fn new(words: &'a mut [u32], width: usize) -> Pages<'a>
        ensures slots { stored_slots result ≡ replicate (fitting width (length words.old)) empty }
        ensures width { width_of result ≡ width }
        ensures tidy { TidyOf result }
        ensures words { pool_of result ≡ words.old }
        ensures lent { result.words.ghost_name ≡ words.entry.ghost_name }
    {
        Pages {
            words,
            width,
            rows: [None; MOST],
        }
    }

    /// The different pages among the held snapshots: as many as are in use, since equal pages lie at one place.
    pub fn pages_used(&self) -> usize
        ensures { result ≡ used_of self.now }
    {
        let slots = self.capacity();
        if slots == 0 {
            return 0;
        }
        let used = Used {
            rows: &self.rows[..slots],
            pages: pages_in(self.width),
            laid: &[],
        };
        used.count()
    }

    /// The whole pages of the pool that are not used.
    pub fn pages_free(&self) -> usize
        ensures { result ≡ whole (length (pool_of self.now)) - used_of self.now }
    {
        (self.words.len() / PAGE).saturating_sub(self.pages_used())
    }

    // Whether a slot holds a snapshot; none does that is not there.
    fn is_held(&self, slot: usize) -> bool
        ensures { result ≡ is_held (slice_index_or (stored_slots self.now) slot empty) }
    {
        slot < self.capacity() && self.rows[slot].is_some()
    }

    // The slot's words into the buffer.
    fn read(&self, slot: usize, buffer: &mut [u32]) -> Result<(), Refusal>
        ensures value { result ≡ getting (width_of self.now) (stored_slots self.now) slot (length buffer.old) }
        ensures after { buffer.new ≡ got (width_of self.now) (stored_slots self.now) slot buffer.old }
    {
        let held = self.is_held(slot);
        may_get(self.capacity(), self.width, slot, buffer.len(), held)?;
        if let Some(row) = &self.rows[slot] {
            collect(row, self.words, buffer);
        }
        Ok(())
    }
}

impl<'a> Store for Pages<'a> {
    ghost use Rattle.pages.specs.Stored.{width_of, pool_of, rest_of, stored_slots, TidyOf, SparedBy};

    ghost wide = { width_of };

    ghost slots = { stored_slots };

    // equal pages lie at one place
    ghost tidy = { TidyOf };

    fn width(&self) -> usize {
        self.width
    }

    fn capacity(&self) -> usize
        ensures slots { result ≡ length (stored_slots self.now) }
        ensures fitting { result ≡ fitting (width_of self.now) (length (pool_of self.now)) }
    {
        match Pages::check(self.words, self.width) {
            Ok(()) => (self.words.len() / PAGE / pages_in(self.width)).min(MOST),
            Err(_) => 0,
        }
    }

    fn put(&mut self, slot: usize, words: &[u32]) -> Result<(), Refusal>
        ensures value { result ≡ putting (width_of self.old) (stored_slots self.old) slot words.now }
        ensures after { stored_slots self.new ≡ puts (width_of self.old) (stored_slots self.old) slot words.now }
        ensures width { width_of self.new ≡ width_of self.old }
        ensures spared { SparedBy slot self.old self.new }
        ensures rest { rest_of self.new ≡ rest_of self.old }
        ensures lent { self.new.words.ghost_name ≡ self.old.words.ghost_name }
    {
        let slots = self.capacity();
        may_put(slots, self.width, slot, words.len())?;
        self.rows[slot] = None; // its pages are given back first
        let pages = pages_in(self.width);
        let row = lay(&self.rows[..slots], self.words, pages, words);
        self.rows[slot] = Some(row);
        Ok(())
    }

    fn get(&mut self, slot: usize, buffer: &mut [u32]) -> Result<(), Refusal>
        ensures value { result ≡ getting (width_of self.old) (stored_slots self.old) slot (length buffer.old) }
        ensures after { buffer.new ≡ got (width_of self.old) (stored_slots self.old) slot buffer.old }
        ensures same { stored_slots self.new ≡ stored_slots self.old }
        ensures width { width_of self.new ≡ width_of self.old }
        ensures words { pool_of self.new ≡ pool_of self.old }
        ensures lent { self.new.words.ghost_name ≡ self.old.words.ghost_name }
    {
        self.read(slot, buffer)
    }

    fn free(&mut self, slot: usize) -> Result<(), Refusal>
        ensures value { result ≡ freeing (stored_slots self.old) slot }
        ensures after { stored_slots self.new ≡ frees (stored_slots self.old) slot }
        ensures width { width_of self.new ≡ width_of self.old }
        ensures words { pool_of self.new ≡ pool_of self.old }
        ensures lent { self.new.words.ghost_name ≡ self.old.words.ghost_name }
    {
        may_free(self.capacity(), slot, self.is_held(slot))?;
        self.rows[slot] = None; // and with it its pages
        Ok(())
    }

    ghost few = { λ s. slots_few s.rows s.words.now s.width };

    ghost sized = { λ s. slots_sized s.rows s.words.now s.width };

    ghost kept = { λ s. s.tidy };
}
