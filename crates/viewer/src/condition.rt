// Conditions on states, for a seek to look for, and the watches as such.
ghost use Rattle.std.specs.Prelude.{◌≡◌, ℕ, Bool, List, slice_index};

use crate::Watch;

/// What a seek may look for.
pub trait Condition {
    // whether states of so many words have the words that it looks at
    ghost fits: { Self → ℕ → Bool };

    // whether a state meets it
    ghost holds: { Self → List ℕ → Bool };

    /// Whether states of `width` words have the words that it looks at.
    fn fits(&self, width: usize) -> bool
        ensures { result ≡ fits self.now width };

    /// Whether a state meets it.
    fn holds(&self, state: &[u32]) -> bool
        ensures { result ≡ holds self.now state.now };
}

// A word that a state lacks counts as 0.
impl Condition for Watch {
    ghost use Rattle.viewer.specs.Answers.{fits, holds};

    ghost fits = { fits };

    ghost holds = { holds };

    fn fits(&self, width: usize) -> bool {
        match *self {
            Watch::Equal { word, .. } | Watch::Ones { word, .. } => (word as usize) < width,
        }
    }

    fn holds(&self, state: &[u32]) -> bool {
        match *self {
            Watch::Equal { word, mask, value } => word_at(state, word) & mask == value & mask,
            Watch::Ones { word, least } => word_at(state, word).count_ones() >= least,
        }
    }
}

// A word of a state, 0 where it has no such word.
fn word_at(state: &[u32], at: u32) -> u32
    ensures { result ≡ slice_index state.now at }
{
    state.get(at as usize).copied().unwrap_or(0)
}
