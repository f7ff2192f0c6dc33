// The tape: its table and its state, and how both are set.
mod memory;
pub mod stepping;

ghost use Rattle.std.specs.Prelude.{◌≡◌, ◌<◌, ◌≤◌, true, length, IfOk};
ghost use Rattle.tape.specs.Layout.{lawful};
ghost use Rattle.tape.specs.Tables.{empty, setting, after, filled, tabling, built, sound};
ghost use Rattle.tape.specs.Turing.{place};

use crate::{BadEntry, Entry, REST};
use memory::{CELLS, Memory};
use terms::Refusal;

// The number of places of a table: four symbols for each of 16 control states, one row after another,
// as the definitions number them; rows in rows would be no plainer.
const PLACES: usize = 64;

/// A Turing machine on 128 cells of a symbol from 0 to 3.
#[derive(Drop)]
pub struct Tape {
    count: u32,
    entries: [Option<Entry>; PLACES],
    memory: Memory,
    ghost places: { length entries ≡ 64 },
    ghost few: { count ≤ 16 },
    ghost good: { sound count entries ≡ true },
    ghost law: { lawful count memory.words ≡ true },
}

impl Tape {
    ghost use Rattle.std.specs.Prelude.{[], ◌∷◌, OnOk};
    ghost use Rattle.tape.specs.Tables.{tabled, Gives};
    ghost use Rattle.tape.specs.Tapes.{New, states, table, state, marking, remarked};

    /// A tape with so many control states, 1 to 16: control 0, head 0 and zeros, every entry missing.
    pub fn new(count: u32) -> Result<Tape, Refusal>
        ensures { New count result }
    {
        if count < 1 || count > 16 {
            return Err(Refusal::OutOfLimits);
        }
        Ok(Tape {
            count,
            entries: [None; PLACES],
            memory: Memory::new(),
        })
    }

    /// Sets the entry for a control state and a symbol, in place of the one before; the state stays.
    pub fn set_entry(&mut self, entry: Entry) -> Result<(), Refusal>
        ensures value { result ≡ setting (states self.old) entry }
        ensures after { table self.new ≡ after result entry (table self.old) }
        ensures rule { OnOk result (Gives (entry ∷ []) (table self.old) (table self.new)) }
        ensures same { state self.new ≡ state self.old }
        ensures count { states self.new ≡ states self.old }
    {
        enter(&mut self.entries, self.count, entry)
    }

    /// Sets a whole table, in place of the one before; the state stays.
    pub fn set_table(&mut self, entries: &[Entry]) -> Result<(), BadEntry>
        ensures value { result ≡ tabling (states self.old) 0 entries.now }
        ensures after { table self.new ≡ tabled result entries.now (table self.old) }
        ensures rule { OnOk result (Gives entries.now empty (table self.new)) }
        ensures same { state self.new ≡ state self.old }
        ensures count { states self.new ≡ states self.old }
    {
        self.entries = build(self.count, entries)?;
        Ok(())
    }

    /// Sets a cell of the state; its control and head stay, and the table.
    pub fn set_cell(&mut self, cell: u32, symbol: u32) -> Result<(), Refusal>
        ensures value { result ≡ marking cell symbol }
        ensures after { state self.new ≡ remarked result cell symbol (state self.old) }
        ensures same { table self.new ≡ table self.old }
        ensures count { states self.new ≡ states self.old }
    {
        if cell >= CELLS {
            return Err(Refusal::NoCell);
        }
        if symbol > 3 {
            return Err(Refusal::BadSymbol);
        }
        self.memory.mark(cell, symbol);
        Ok(())
    }
}

// Where a table keeps the entry for a control state and a symbol.
fn place(control: u32, symbol: u32) -> usize
    requires control { control < 16 }
    requires symbol { symbol < 4 }
    ensures { result ≡ place control symbol }
{
    (4 * control + symbol) as usize
}

// Puts an entry at its place of a table, if it is taken among so many control states.
fn enter(places: &mut [Option<Entry>; PLACES], count: u32, entry: Entry) -> Result<(), Refusal>
    requires { count ≤ 16 }
    ensures value { result ≡ setting count entry }
    ensures after { places.new ≡ after result entry places.old }
{
    if entry.control >= count || (entry.next >= count && entry.next != REST) {
        return Err(Refusal::NoControl);
    }
    if entry.read > 3 || entry.write > 3 {
        return Err(Refusal::BadSymbol);
    }
    places[place(entry.control, entry.read)] = Some(entry);
    Ok(())
}

// The table of some entries, or the first of them that is bad.
fn build(count: u32, entries: &[Entry]) -> Result<[Option<Entry>; PLACES], BadEntry>
    requires { count ≤ 16 }
    ensures value { result ≡ built (tabling count 0 entries.now) (filled entries.now empty) }
    ensures good { IfOk result (λ t. sound count t ≡ true) }
{
    let mut places = [None; PLACES];
    for (index, entry) in entries.iter().enumerate() {
        enter(&mut places, count, *entry).map_err(|refusal| BadEntry { index, refusal })?;
    }
    Ok(places)
}
