// The plain viewer as code: it keeps no snapshots, and looks every state up in a list of all of them. It shares nothing
// with the session that it is held against.
use machine::Machine;
use std::alloc::{AllocError, Global};
use terms::{Refusal, Scan};
use viewer::{Answer, Call, Watch};

// A state: its words, and zeros behind them.
pub type State = [u32; 32];

// The widths and slots that a session is opened with.
#[derive(Clone, Copy)]
pub struct Shape {
    pub machine: u32,
    pub store: u32,
    pub slots: u32,
}

// A viewer over the states of the scans from 0 to the total.
#[derive(Drop)]
pub struct Plain<'a> {
    shape: Shape,
    total: u32,
    states: &'a [State],
    // the slots of the accepted open
    open: Option<u32>,
    at: u32,
    // the steps so far, where they are known
    steps: Option<u64>,
    // the scan of the last turn, as long as nothing went ahead since
    turned: Option<u32>,
}

// The state of a machine as it saves itself: the snapshots that a session takes are not asked.
fn state_of<M: Machine>(machine: &M) -> State {
    let mut state = [0; 32];
    let _ = machine.save(&mut state[..M::W]);
    state
}

// The states of a machine from its present one on, by these inputs.
pub(crate) fn all_states<M: Machine + Drop>(
    mut machine: M,
    inputs: &[u32],
    heap: Global,
) -> Result<Vec<State>, AllocError> {
    let mut states = Vec::new(heap);
    states.push(state_of(&machine))?;
    for input in inputs {
        machine.step(*input);
        states.push(state_of(&machine))?;
    }
    Ok(states)
}

// A word of the state at a scan, 0 where there is none.
pub(crate) fn word_at(states: &[State], scan: u32, word: u32) -> u32 {
    let state = states.get(scan as usize);
    let word = state.and_then(|state| state.get(word as usize));
    word.copied().unwrap_or(0)
}

impl<'a> Plain<'a> {
    pub(crate) fn new(shape: Shape, total: u32, states: &'a [State]) -> Plain<'a> {
        Plain {
            shape,
            total,
            states,
            open: None,
            at: 0,
            steps: None,
            turned: None,
        }
    }

    fn holds(&self, scan: u32, watch: Watch) -> bool {
        match watch {
            Watch::Equal { word, mask, value } => {
                (word_at(self.states, scan, word) ^ value) & mask == 0
            }
            Watch::Ones { word, least } => {
                word_at(self.states, scan, word).count_ones() >= least
            }
        }
    }

    // The highest scan below this one at which the watch holds.
    fn latest(&self, watch: Watch) -> Option<u32> {
        (0..self.at).rev().find(|scan| self.holds(*scan, watch))
    }

    fn allows_open(&self, slots: u32) -> Result<(), Refusal> {
        if slots == 0 || slots > 32 || slots > self.shape.slots {
            return Err(Refusal::BadSlots);
        }
        if self.shape.machine != self.shape.store {
            return Err(Refusal::WidthsDiffer);
        }
        Ok(())
    }

    fn has_word(&self, word: u32) -> Result<(), Refusal> {
        if word < self.shape.machine {
            Ok(())
        } else {
            Err(Refusal::NoWord)
        }
    }

    fn is_off_start(&self) -> Result<(), Refusal> {
        if self.at > 0 {
            Ok(())
        } else {
            Err(Refusal::AtStart)
        }
    }

    // Whether a call is taken, or why it is refused.
    fn allows(&self, call: Call) -> Result<(), Refusal> {
        match (self.open, call) {
            (None, Call::Open(slots)) => self.allows_open(slots),
            (None, _) => Err(Refusal::NotOpen),
            (Some(_), Call::Open(_)) => Err(Refusal::AlreadyOpen),
            (_, Call::Ahead) if self.at >= self.total => Err(Refusal::AtEnd),
            (_, Call::Back) => self.is_off_start(),
            (_, Call::Seek(Watch::Equal { word, .. } | Watch::Ones { word, .. })) => {
                self.has_word(word)?;
                self.is_off_start()
            }
            (_, Call::Look(word)) => self.has_word(word),
            (_, Call::Ahead | Call::Count | Call::Turn) => Ok(()),
        }
    }

    // One scan up: a step, and the walk since the turn is over.
    fn ahead(&mut self) {
        self.at = self.at.wrapping_add(1);
        self.turned = None;
        self.steps = self.steps.map(|steps| steps.wrapping_add(1));
    }

    // Down to a lower scan: at the start the steps of a walk from a turn are known again.
    fn go_down(&mut self, scan: u32) {
        self.at = scan;
        self.steps = match (self.turned, self.open) {
            (Some(from), Some(slots)) if scan == 0 => schedule::count(from, slots),
            _ => None,
        };
    }

    fn seek(&mut self, watch: Watch) -> Option<Scan> {
        let found = self.latest(watch);
        self.go_down(found.unwrap_or(0));
        found.map(Scan)
    }

    // What a call that is taken answers, where that is known.
    fn accept(&mut self, call: Call) -> Option<Answer> {
        Some(match call {
            Call::Open(slots) => {
                self.open = Some(slots);
                self.steps = Some(0);
                Answer::Total(self.total)
            }
            Call::Ahead => {
                self.ahead();
                Answer::Reached(Scan(self.at))
            }
            Call::Back => {
                self.go_down(self.at.saturating_sub(1));
                Answer::Returned(Scan(self.at))
            }
            Call::Seek(watch) => Answer::Found(self.seek(watch)),
            Call::Look(word) => Answer::Word(word_at(self.states, self.at, word)),
            Call::Count => return self.steps.map(Answer::Steps),
            Call::Turn => {
                self.turned = Some(self.at);
                self.steps = Some(0);
                Answer::Turned(Scan(self.at))
            }
        })
    }

    // What any call answers; nothing for a number of steps that is not known. A refusal changes nothing.
    pub(crate) fn call(&mut self, call: Call) -> Result<Option<Answer>, Refusal> {
        self.allows(call)?;
        Ok(self.accept(call))
    }
}
