// The session: a recorded controller run forward and walked backward, over any machine, source and store.
#![tactic(auto)]

mod calls;
mod runs;
mod table;

ghost use Rattle.session.specs.Sessions.{Goes, IsClosed, IsOver, Tells, here};
ghost use Rattle.viewer.specs.Model.{climbed, dropped, emptied, finding, forward, opened, released, restored, returned, shed, snapped, sought, stepped, stride};
ghost use Rattle.std.specs.Option.{ok_or};
ghost use Rattle.terms.specs.declared.Refusal.TheVariants.{NotOpen};
ghost use Rattle.std.specs.Prelude.{◌≡◌, ◌-◌, ◌≤◌};

use machine::{Counter, Machine, snapshot};
pub use runs::{Outcome, run};
use source::Source;
use store::Store;
use table::Table;
use terms::{Place, Refusal, Scan};
use viewer::{Condition, Held};

/// A machine under a counter, a source, a store, where it stands, and what it holds.
#[derive(Drop)]
pub struct Session<M, S, T> {
    machine: Counter<M>,
    source: S,
    store: T,
    // the slots of the accepted open, none while the session is closed
    slots: Option<u32>,
    scan: Scan,
    // the place of that scan, none at the total
    place: Option<Place>,
    table: Table,
}

impl<M: Machine, S: Source, T: Store> Session<M, S, T> {
    /// A closed session over a machine, which it puts under a counter, a source and a store.
    pub fn new(machine: M, source: S, store: T) -> Self
        ensures frame { IsOver M.Machine S.Source T.Store machine source store result }
        ensures here { IsClosed M.Machine S.Source T.Store machine source store result }
    {
        Session {
            machine: Counter::new(machine),
            source,
            store,
            slots: None,
            scan: Scan(0),
            place: None,
            table: Table::new(),
        }
    }

    // The slots of the accepted open, or the refusal of a session that is not open.
    fn require_open(&self) -> Result<u32, Refusal>
        ensures { result ≡ ok_or self.now.slots NotOpen }
    {
        self.slots.ok_or(Refusal::NotOpen)
    }

    // One step, where there is a scan to read; a step that answers an Option would be no plainer, since the model's is total.
    fn advance(&mut self)
        ensures { Goes M.Machine S.Source T.Store stepped self.old self.new }
    {
        let Some(place) = self.place else {
            return;
        };
        let Some((input, next)) = self.source.read(place) else {
            return;
        };
        self.machine.step(input);
        self.scan = Scan(self.scan.0.saturating_add(1));
        self.place = next;
    }

    // So many steps.
    fn forward(&mut self, steps: u32)
        ensures { Goes M.Machine S.Source T.Store (λ f. forward f steps) self.old self.new }
    {
        for _ in 0..steps {
            self.advance();
        }
    }

    // A snapshot of the present state goes into the slot after the held ones.
    fn snap(&mut self)
        ensures { Goes M.Machine S.Source T.Store snapped self.old self.new }
    {
        let words = snapshot(&self.machine);
        let _ = self.store.put(self.table.len(), &words[0..M::W]);
        self.table.push(Held {
            scan: self.scan,
            place: self.place,
        });
    }

    // The highest held scan is freed.
    fn drop_last(&mut self)
        ensures { Goes M.Machine S.Source T.Store (λ _. dropped) self.old self.new }
    {
        let held = self.table.len();
        if held > 0 {
            let _ = self.store.free(held - 1);
        }
        self.table.pop();
    }

    // The highest held scan is freed where it is not below this one.
    fn release(&mut self, scan: Scan)
        ensures { Goes M.Machine S.Source T.Store (λ _. released scan.0) self.old self.new }
    {
        if self.table.last().is_some_and(|last| last.scan >= scan) {
            self.drop_last();
        }
    }

    // The machine takes the state of the highest held scan, if there is one: total for the same reason.
    fn restore(&mut self)
        ensures { Goes M.Machine S.Source T.Store restored self.old self.new }
    {
        let Some(last) = self.table.last() else {
            return;
        };
        let mut words = [0; 32];
        let _ = self.store.get(self.table.len() - 1, &mut words[0..M::W]);
        let _ = self.machine.load(&words[0..M::W]);
        self.scan = last.scan;
        self.place = last.place;
    }

    // Up gap − 1 scans with so many slots free, and a snapshot where the rule puts one.
    fn climb(&mut self, slots: u32, gap: u32)
        ensures { Goes M.Machine S.Source T.Store (λ f. climbed f slots gap) self.old self.new }
    {
        let mut m = gap;
        for g in (2..=slots).rev() {
            if m <= 1 {
                return;
            }
            let q = stride(m, g);
            self.forward(q);
            m = m.saturating_sub(q);
            if m > 1 {
                self.snap();
            }
        }
        if slots > 0 {
            self.forward(m.saturating_sub(1));
        }
    }

    // One back: free, restore, go up to the scan before this one.
    fn retreat(&mut self)
        ensures { Goes M.Machine S.Source T.Store returned self.old self.new }
    {
        let scan = self.scan;
        self.release(scan);
        self.restore();
        let below = self.table.len().saturating_sub(1);
        let free = self.slots.unwrap_or(0).saturating_sub(below as u32);
        self.climb(free, scan.0.saturating_sub(self.scan.0));
    }

    // Whether the present state meets a condition.
    fn matches<C: Condition>(&self, condition: &C) -> bool
        ensures { result ≡ C.holds condition.now (here M.Machine S.Source T.Store self.now).state }
    {
        condition.holds(&snapshot(&self.machine)[0..M::W])
    }

    // Backs until a state meets the condition, at most so many. A loop: each back changes the session, so there is no list
    // that could be searched.
    fn find<C: Condition>(&mut self, condition: &C, backs: u32) -> Option<Scan>
        ensures value { Tells M.Machine S.Source T.Store
            (λ f. finding f (C.holds condition.now) backs) self.old result }
        ensures goes { Goes M.Machine S.Source T.Store
            (λ f. sought f (C.holds condition.now) backs) self.old self.new }
    {
        for _ in 0..backs {
            self.retreat();
            if self.matches(condition) {
                return Some(self.scan);
            }
        }
        None
    }

    // The highest held scans are freed, so many of them.
    fn shed(&mut self, many: usize)
        ensures { Goes M.Machine S.Source T.Store (λ _. shed many) self.old self.new }
    {
        for _ in 0..many {
            self.drop_last();
        }
    }

    // The session begins at scan 0 with so many slots.
    fn begin(&mut self, slots: u32)
        ensures { Goes M.Machine S.Source T.Store (λ f. opened f slots) self.old self.new }
    {
        empty_slots(&mut self.store, slots);
        let words = snapshot(&self.machine);
        let _ = self.store.put(0, &words[0..M::W]);
        self.machine.reset();
        self.slots = Some(slots);
        self.scan = Scan(0);
        self.place = self.source.first();
        self.table = Table::new();
        self.table.push(Held {
            scan: self.scan,
            place: self.place,
        });
    }
}

// The steps to the next snapshot of a gap of m scans with g slots.
fn stride(m: u32, g: u32) -> u32
    ensures { 2 ≤ m → 2 ≤ g → result ≡ stride m g }
{
    schedule::split(m, g).unwrap_or(1)
}

// Slots 1 to s − 1 are emptied; they are numbers of the store, and no list that could be gone through.
fn empty_slots<T: Store>(store: &mut T, s: u32)
    ensures after { T.Store.slots store.new ≡ emptied (s - 1) 1 (T.Store.slots store.old) }
    ensures width { T.Store.wide store.new ≡ T.Store.wide store.old }
{
    for j in 1..s {
        let _ = store.free(j as usize);
    }
}
