// The table of held records.
ghost use Rattle.std.specs.Prelude.{◌≡◌, ◌-◌, ◌≤◌, [], ◌∷◌, ◌++◌, length, take, if◌then◌else◌, nat_lt};
ghost use Rattle.viewer.specs.Model.{floor, top};

use std::marker::Model;
use terms::Scan;
use viewer::Held;

// At most 32 held scans with their places, the lowest first. A rule of the project: the held records lie in a plain table in
// the session itself. The kit's ArrayVec would ask that a held scan has a default, and its clauses would be no plainer.
#[derive(Drop)]
pub struct Table {
    records: [Held; 32],
    len: usize,
}

impl Model for Table {
    ghost use Rattle.std.specs.Prelude.{◌≡◌, ◌≤◌, List, length, take};
    ghost use Rattle.viewer.specs.declared.Held.{Held};

    ghost Value = { List Held };

    ghost view = { λ t. take t.len t.records };

    ghost invariant = { λ t. (length t.records ≡ 32) × (t.len ≤ 32) };
}

impl Table {
    // A table that holds nothing.
    pub(crate) fn new() -> Table
        ensures { result ≡ [] }
    {
        let none = Held {
            scan: Scan(0),
            place: None,
        };
        Table {
            records: [none; 32],
            len: 0,
        }
    }

    // How many scans are held.
    pub(crate) fn len(&self) -> usize
        ensures items { result ≡ length self.now }
        ensures few { result ≤ 32 }
    {
        self.len
    }

    // The highest held scan.
    pub(crate) fn last(&self) -> Option<Held>
        ensures { result ≡ top self.now }
    {
        self.records[..self.len].last().copied()
    }

    // The lowest held scan, 0 and no Option where none is held: total as the model's floor is.
    pub(crate) fn floor(&self) -> Scan
        ensures { result.0 ≡ floor self.now }
    {
        self.records[..self.len].first().map_or(Scan(0), |r| r.scan)
    }

    // One record more, where there is room.
    pub(crate) fn push(&mut self, entry: Held)
        ensures { self.new ≡ (if nat_lt (length self.old) 32 then self.old ++ entry ∷ [] else self.old) }
    {
        if self.len < 32 {
            self.records[self.len] = entry;
            self.len += 1;
        }
    }

    // One record less, where there is one.
    pub(crate) fn pop(&mut self)
        ensures { self.new ≡ take (length self.old - 1) self.old }
    {
        self.len = self.len.saturating_sub(1);
    }
}
