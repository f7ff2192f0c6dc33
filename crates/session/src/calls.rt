// The seven calls of a session, each a total function of what the session stands for.
ghost use Rattle.session.specs.Sessions.{Answers, Calls, IsDue};
ghost use Rattle.viewer.specs.declared.Answer.TheVariants.{Found, Reached, Returned, Steps, Total, Turned, Word};
ghost use Rattle.viewer.specs.declared.Call.TheVariants.{Ahead, Back, Count, Look, Open, Seek, Turn};
ghost use Rattle.std.specs.Prelude.{◌≡◌};

use crate::Session;
use machine::{Machine, snapshot};
use source::Source;
use store::Store;
use terms::{Refusal, Scan};
use viewer::{Answer, Call, Condition, Watch};

impl<M: Machine, S: Source, T: Store> Session<M, S, T> {
    /// Opens the session with so many slots at scan 0, and answers the total.
    pub fn open(&mut self, slots: u32) -> Result<u32, Refusal>
        ensures answer { Answers M.Machine S.Source T.Store Total (Open slots) self.old result }
        ensures goes { Calls M.Machine S.Source T.Store (Open slots) self.old self.new }
    {
        if self.slots.is_some() {
            return Err(Refusal::AlreadyOpen);
        }
        if slots == 0 || slots > 32 || slots as usize > self.store.capacity() {
            return Err(Refusal::BadSlots);
        }
        if M::W != self.store.width() {
            return Err(Refusal::WidthsDiffer);
        }
        self.begin(slots);
        Ok(self.source.total())
    }

    /// One step, to the next scan.
    pub fn ahead(&mut self) -> Result<Scan, Refusal>
        ensures answer { Answers M.Machine S.Source T.Store Reached Ahead self.old result }
        ensures goes { Calls M.Machine S.Source T.Store Ahead self.old self.new }
    {
        self.require_open()?;
        if self.scan.0 >= self.source.total() {
            return Err(Refusal::AtEnd);
        }
        self.advance();
        Ok(self.scan)
    }

    /// To the scan before.
    pub fn back(&mut self) -> Result<Scan, Refusal>
        ensures answer { Answers M.Machine S.Source T.Store Returned Back self.old result }
        ensures goes { Calls M.Machine S.Source T.Store Back self.old self.new }
    {
        self.require_open()?;
        if self.scan <= self.table.floor() {
            return Err(Refusal::AtStart);
        }
        self.retreat();
        Ok(self.scan)
    }

    /// Back to the highest earlier scan at which the watch holds, or to the lowest where there is none.
    pub fn seek(&mut self, watch: Watch) -> Result<Option<Scan>, Refusal>
        ensures answer { Answers M.Machine S.Source T.Store Found (Seek watch) self.old result }
        ensures goes { Calls M.Machine S.Source T.Store (Seek watch) self.old self.new }
    {
        self.require_open()?;
        if !watch.fits(M::W) {
            return Err(Refusal::NoWord);
        }
        let floor = self.table.floor();
        if self.scan <= floor {
            return Err(Refusal::AtStart);
        }
        Ok(self.find(&watch, self.scan.0 - floor.0))
    }

    /// A word of the state.
    pub fn look(&self, word: u32) -> Result<u32, Refusal>
        ensures answer { Answers M.Machine S.Source T.Store Word (Look word) self.now result }
    {
        self.require_open()?;
        if word as usize >= M::W {
            return Err(Refusal::NoWord);
        }
        Ok(snapshot(&self.machine)[word as usize])
    }

    /// The steps since the open or the last turn.
    pub fn count(&self) -> Result<u64, Refusal>
        ensures answer { Answers M.Machine S.Source T.Store Steps Count self.now result }
    {
        self.require_open()?;
        Ok(self.machine.count())
    }

    /// Frees every held scan but the lowest, and sets the count to 0.
    pub fn turn(&mut self) -> Result<Scan, Refusal>
        ensures answer { Answers M.Machine S.Source T.Store Turned Turn self.old result }
        ensures goes { Calls M.Machine S.Source T.Store Turn self.old self.new }
    {
        self.require_open()?;
        let scan = self.scan;
        let spare = self.table.len().saturating_sub(1);
        self.shed(spare);
        self.machine.reset();
        Ok(scan)
    }

    /// The store, to be looked at.
    pub fn store(&self) -> &T
        ensures { result.now ≡ self.now.store }
    {
        &self.store
    }

    /// Any of the seven.
    pub fn call(&mut self, call: Call) -> Result<Answer, Refusal>
        ensures answer { IsDue M.Machine S.Source T.Store call self.old result }
        ensures goes { Calls M.Machine S.Source T.Store call self.old self.new }
    {
        match call {
            Call::Open(slots) => self.open(slots).map(Answer::Total),
            Call::Ahead => self.ahead().map(Answer::Reached),
            Call::Back => self.back().map(Answer::Returned),
            Call::Seek(watch) => self.seek(watch).map(Answer::Found),
            Call::Look(word) => self.look(word).map(Answer::Word),
            Call::Count => self.count().map(Answer::Steps),
            Call::Turn => self.turn().map(Answer::Turned),
        }
    }
}
