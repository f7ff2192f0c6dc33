// Two stores as one, the slots of the first one first.
ghost use Rattle.std.specs.Prelude.{◌≡◌, ◌<◌, ◌≤◌, length, IfOk, IfErr, OnOk, OnErr};
ghost use Rattle.store.specs.Pairs.{pairing, slots_of, paired_few, paired_sized};
ghost use Rattle.store.specs.Sides.{Lies};
ghost use Rattle.terms.specs.declared.Refusal.TheVariants.{NoSlot};

use crate::{MOST, Store};
use terms::Refusal;

// A slot of the first or of the second store, by its number there.
#[derive(Drop)]
enum Side {
    First(usize),
    Second(usize),
}

/// Two stores. Where they do not go together, the pair has no slots.
#[derive(Drop)]
pub struct Pair<F, S> {
    first: F,
    second: S,
}

impl<F: Store, S: Store> Pair<F, S> {
    /// Whether two stores make a pair: their widths are equal, and they have at most 64 slots together.
    pub fn check(first: &F, second: &S) -> Result<(), Refusal>
        ensures { result ≡
            pairing (F.wide first.now) (S.wide second.now) (F.slots first.now) (S.slots second.now) }
    {
        if first.width() != second.width() {
            return Err(Refusal::UnevenPair);
        }
        if first.capacity() + second.capacity() > MOST {
            return Err(Refusal::TooManySlots);
        }
        Ok(())
    }

    /// The two stores as one.
    pub fn new(first: F, second: S) -> Self
        ensures first { result.first ≡ first }
        ensures second { result.second ≡ second }
    {
        Pair { first, second }
    }

    /// The first of the two, to be looked at.
    pub fn first(&self) -> &F
        ensures { result.now ≡ self.now.first }
    {
        &self.first
    }

    /// The second.
    pub fn second(&self) -> &S
        ensures { result.now ≡ self.now.second }
    {
        &self.second
    }

    // Which of the two has a slot of the pair.
    fn side(&self, slot: usize) -> Result<Side, Refusal>
        ensures side { IfOk result (Lies (length (F.slots self.now.first)) slot) }
        ensures refused { IfErr result (λ e. e ≡ NoSlot) }
        ensures within { OnOk result (slot < length (slots_of F.Store S.Store self.now)) }
        ensures past { OnErr result (length (slots_of F.Store S.Store self.now) ≤ slot) }
    {
        let own = self.first.capacity();
        if slot >= self.capacity() {
            return Err(Refusal::NoSlot);
        }
        if slot < own {
            Ok(Side::First(slot))
        } else {
            Ok(Side::Second(slot - own))
        }
    }
}

impl<F: Store, S: Store> Store for Pair<F, S> {
    ghost wide = { λ p. F.wide p.first };

    ghost slots = { slots_of F.Store S.Store };

    ghost tidy = { λ p. F.tidy p.first × S.tidy p.second };

    fn width(&self) -> usize {
        self.first.width()
    }

    fn capacity(&self) -> usize {
        match Pair::check(&self.first, &self.second) {
            Ok(()) => self.first.capacity() + self.second.capacity(),
            Err(_) => 0,
        }
    }

    fn put(&mut self, slot: usize, words: &[u32]) -> Result<(), Refusal> {
        match self.side(slot)? {
            Side::First(at) => self.first.put(at, words),
            Side::Second(at) => self.second.put(at, words),
        }
    }

    fn get(&mut self, slot: usize, buffer: &mut [u32]) -> Result<(), Refusal> {
        match self.side(slot)? {
            Side::First(at) => self.first.get(at, buffer),
            Side::Second(at) => self.second.get(at, buffer),
        }
    }

    fn free(&mut self, slot: usize) -> Result<(), Refusal> {
        match self.side(slot)? {
            Side::First(at) => self.first.free(at),
            Side::Second(at) => self.second.free(at),
        }
    }

    ghost few = { λ p. paired_few (F.wide p.first) (S.wide p.second) (F.slots p.first) (S.slots p.second) };

    ghost sized = { λ p.
        paired_sized (F.wide p.first) (S.wide p.second) (F.slots p.first) (S.slots p.second)
        (F.sized p.first) (S.sized p.second) };

    ghost kept = { λ p. (F.kept p.first, S.kept p.second) };
}
