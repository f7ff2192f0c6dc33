// The tape as a machine.
ghost use Rattle.machine.specs.Machines.{saving, saved};
ghost use Rattle.tape.specs.Layout.{wide, lawful};
ghost use Rattle.tape.specs.Locality.{Local, Near, Resting, Located};
ghost use Rattle.tape.specs.Turing.{scan};
ghost use Rattle.tape.specs.Tapes.{states, table, state, held, next as following};
ghost use Rattle.tape.specs.Laws.{sized_by, goes_by, reads_by, broad_by};
ghost use Rattle.std.specs.Prelude.{◌≡◌, length};

use crate::tape::memory::{CELLS, WORDS};
use crate::tape::place;
use crate::{REST, Tape};
use machine::Machine;
use terms::Refusal;

impl Machine for Tape {
    const W: usize = WORDS;

    ghost W = { wide };

    ghost state = { state };

    ghost next = { λ t. following (table t) };

    ghost lawful = { λ t. lawful (states t) };

    #[tactic(auto, using(crate::proofs::Rules::of_step))]
    fn step(&mut self, input: u32)
        ensures moves { state self.new ≡ following (table self.old) (state self.old) input }
        ensures rule { following (table self.new) ≡ following (table self.old) }
        ensures law { lawful (states self.new) ≡ lawful (states self.old) }
        ensures textbook { held self.new ≡ scan (table self.old) input (held self.old) }
        ensures local { Local input (held self.old) (held self.new) }
        ensures near { Near (held self.old) (held self.new) }
        ensures resting { Resting input (held self.old) (held self.new) }
    {
        self.memory.feed(input);
        let control = self.memory.control();
        if control != REST {
            let seen = self.memory.scanned();
            let entry = self.entries[place(control, seen)];
            self.memory.act(entry);
        }
    }

    #[tactic(auto, using(crate::proofs::Steps::located))]
    fn save(&self, buffer: &mut [u32]) -> Result<(), Refusal>
        ensures value { result ≡ saving wide (length buffer.old) }
        ensures after { buffer.new ≡ saved wide (state self.now) buffer.old }
        ensures layout { Located (state self.now) }
    {
        if buffer.len() != WORDS {
            return Err(Refusal::WrongLength);
        }
        buffer.copy_from_slice(&self.memory.words);
        Ok(())
    }

    fn load(&mut self, words: &[u32]) -> Result<(), Refusal> {
        if words.len() != WORDS {
            return Err(Refusal::WrongLength);
        }
        let control = words[0];
        if (control >= self.count && control != REST) || words[1] >= CELLS {
            return Err(Refusal::Unlawful);
        }
        self.memory.load(words);
        Ok(())
    }

    ghost broad = { broad_by };

    ghost present = { λ t. t.law };

    ghost sized = { λ t. sized_by (states t) };

    ghost goes = { λ t. goes_by (states t) (table t) t.few t.good };

    ghost reads = { λ t. reads_by (table t) };
}
