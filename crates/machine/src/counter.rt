// A layer over any machine that tells the steps made.
ghost use Rattle.machine.specs.Counters.{told, under};
ghost use Rattle.machine.specs.Machines.{counted, loading, loaded};
ghost use Rattle.std.specs.Prelude.{◌≡◌};

use crate::Machine;
use terms::Refusal;

/// A machine with the count of its steps since it was made or last set to 0.
#[derive(Drop)]
pub struct Counter<M> {
    machine: M,
    steps: u64,
}

// The largest count: it stays there.
const CAP: u64 = 1_000_000_000_000_000_000;

impl<M> Counter<M> {
    /// The machine under a counter at 0.
    pub fn new(machine: M) -> Self
        ensures machine { under result ≡ machine }
        ensures count { told result ≡ 0 }
    {
        Counter { machine, steps: 0 }
    }

    /// The steps made since the counter was made or last set to 0, up to the cap.
    pub fn count(&self) -> u64
        ensures { result ≡ told self.now }
    {
        self.steps
    }

    /// Sets the count to 0; the machine stays.
    pub fn reset(&mut self)
        ensures count { told self.new ≡ 0 }
        ensures same { under self.new ≡ under self.old }
    {
        self.steps = 0;
    }

    /// The machine, out of the layer.
    pub fn into_machine(self) -> M
        ensures { result ≡ under self }
    {
        let Counter { machine, steps: _ } = self;
        machine
    }
}

impl<M: Machine> Machine for Counter<M> {
    const W: usize = M::W;

    ghost W = { M.W };

    ghost state = { λ c. M.state (under c) };

    ghost next = { λ c. M.next (under c) };

    ghost lawful = { λ c. M.lawful (under c) };

    fn step(&mut self, input: u32)
        ensures moves { M.state (under self.new) ≡ M.next (under self.old) (M.state (under self.old)) input }
        ensures rule { M.next (under self.new) ≡ M.next (under self.old) }
        ensures law { M.lawful (under self.new) ≡ M.lawful (under self.old) }
        ensures count { told self.new ≡ counted (told self.old) }
    {
        self.machine.step(input);
        self.steps = self.steps.saturating_add(1).min(CAP);
    }

    fn save(&self, buffer: &mut [u32]) -> Result<(), Refusal> {
        self.machine.save(buffer)
    }

    fn load(&mut self, words: &[u32]) -> Result<(), Refusal>
        ensures value { result ≡ loading M.W (M.lawful (under self.old)) words.now }
        ensures after { M.state (under self.new) ≡ loaded M.W (M.lawful (under self.old)) words.now (M.state (under self.old)) }
        ensures rule { M.next (under self.new) ≡ M.next (under self.old) }
        ensures law { M.lawful (under self.new) ≡ M.lawful (under self.old) }
        ensures count { told self.new ≡ told self.old }
    {
        self.machine.load(words)
    }

    ghost broad = { M.broad };

    ghost present = { λ c. M.present (under c) };

    ghost sized = { λ c. M.sized (under c) };

    ghost goes = { λ c. M.goes (under c) };

    ghost reads = { λ c. M.reads (under c) };
}
