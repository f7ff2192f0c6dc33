// Controllers: what every kind of machine stands for, and the layer that counts steps.
#![tactic(auto)]

mod counter;

ghost use Rattle.std.specs.Prelude.{◌≡◌, ℕ, ◌-◌, ◌≤◌, Bool, true, List, ◌++◌, length, replicate, take};
ghost use Rattle.machine.specs.Machines.{Words, address, read, value, saving, saved, loading, loaded};

pub use counter::Counter;
use terms::Refusal;

/// A machine stands for a state of W words, a set of lawful states among which that state always is,
/// and a rule `next` from a lawful state and an input to a lawful state.
pub trait Machine {
    /// The number of words of a state, a matter of the kind of machine.
    const W: usize;

    // the same number in clauses
    ghost W: { ℕ };

    ghost state: { Self → List ℕ };

    ghost next: { Self → List ℕ → ℕ → List ℕ };

    ghost lawful: { Self → List ℕ → Bool };

    /// The state becomes `next` of itself and the input.
    fn step(&mut self, input: u32)
        ensures moves { state self.new ≡ next self.old (state self.old) input }
        ensures rule { next self.new ≡ next self.old }
        ensures law { lawful self.new ≡ lawful self.old };

    /// The buffer takes the state; the machine stays.
    fn save(&self, buffer: &mut [u32]) -> Result<(), Refusal>
        ensures value { result ≡ saving W (length buffer.old) }
        ensures after { buffer.new ≡ saved W (state self.now) buffer.old };

    /// The words become the state.
    fn load(&mut self, words: &[u32]) -> Result<(), Refusal>
        ensures value { result ≡ loading W (lawful self.old) words.now }
        ensures after { state self.new ≡ loaded W (lawful self.old) words.now (state self.old) }
        ensures rule { next self.new ≡ next self.old }
        ensures law { lawful self.new ≡ lawful self.old };

    // a state has 1 to 32 words
    ghost broad: { (1 ≤ W) × (W ≤ 32) };

    // the present state is lawful
    ghost present: { (m : Self) → lawful m (state m) ≡ true };

    // lawful states are W words of 32 bits
    ghost sized: { (m : Self) (x : List ℕ) → lawful m x ≡ true → (length x ≡ W) × Words x };

    // the rule leads from lawful states to lawful states
    ghost goes: { (m : Self) (x : List ℕ) (i : ℕ) → lawful m x ≡ true → lawful m (next m x i) ≡ true };

    // the rule reads 28 bits of an input
    ghost reads: { (m : Self) (x : List ℕ) (i : ℕ) → next m x (read i) ≡ next m x i };
}

/// The machine's state at the front of a buffer for the widest one, with zeros behind it.
pub fn snapshot<M: Machine>(machine: &M) -> [u32; 32]
    ensures words { result ≡ M.state machine.now ++ replicate (32 - M.W) 0 }
    ensures front { take M.W result ≡ M.state machine.now }
    ensures length { length result ≡ 32 }
{
    let mut words = [0; 32];
    let _ = machine.save(&mut words[0..M::W]);
    words
}

/// The address in an input: its low 16 bits.
pub fn address(input: u32) -> u32
    ensures { result ≡ address input }
{
    input % 0x1_0000
}

/// The value in an input: the 12 bits above its address.
pub fn value(input: u32) -> u32
    ensures { result ≡ value input }
{
    (input >> 16) % 0x1000
}
