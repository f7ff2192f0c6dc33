// Snapshot stores: what every kind of store stands for, and two stores as one.
#![tactic(auto)]

mod judge;
mod pair;

ghost use Rattle.std.specs.Prelude.{◌≡◌, ℕ, ◌≤◌, List, length};
ghost use Rattle.store.specs.Slots.{Slot, Sized, putting, puts, getting, got, freeing, frees};

pub use judge::{may_free, may_get, may_put};
pub use pair::Pair;
use terms::Refusal;

/// The most slots.
pub const MOST: usize = 64;

/// The widest snapshot, in words.
pub const WIDEST: usize = 32;

/// A store stands for a width and a list of at most 64 slots, each empty or holding a snapshot of that many words.
/// Neither the width nor the number of slots ever changes.
pub trait Store {
    // the number of words of a snapshot
    ghost wide: { Self → ℕ };

    ghost slots: { Self → List Slot };

    // what only some kinds keep of their own words, and keep at all times
    ghost tidy: { Self → Type 0 };

    /// The number of words of a snapshot.
    fn width(&self) -> usize
        ensures { result ≡ wide self.now };

    /// The number of slots.
    fn capacity(&self) -> usize
        ensures { result ≡ length (slots self.now) };

    /// The slot takes the words; the other slots stay.
    fn put(&mut self, slot: usize, words: &[u32]) -> Result<(), Refusal>
        ensures value { result ≡ putting (wide self.old) (slots self.old) slot words.now }
        ensures after { slots self.new ≡ puts (wide self.old) (slots self.old) slot words.now }
        ensures width { wide self.new ≡ wide self.old };

    /// The buffer takes the slot's snapshot; the store stays.
    fn get(&mut self, slot: usize, buffer: &mut [u32]) -> Result<(), Refusal>
        ensures value { result ≡ getting (wide self.old) (slots self.old) slot (length buffer.old) }
        ensures after { buffer.new ≡ got (wide self.old) (slots self.old) slot buffer.old }
        ensures same { slots self.new ≡ slots self.old }
        ensures width { wide self.new ≡ wide self.old };

    /// The slot becomes empty; the other slots stay.
    fn free(&mut self, slot: usize) -> Result<(), Refusal>
        ensures value { result ≡ freeing (slots self.old) slot }
        ensures after { slots self.new ≡ frees (slots self.old) slot }
        ensures width { wide self.new ≡ wide self.old };

    ghost few: { (s : Self) → length (slots s) ≤ 64 };

    // every held snapshot has as many words as the width says
    ghost sized: { (s : Self) → Sized (wide s) (slots s) };

    ghost kept: { (s : Self) → tidy s };
}
