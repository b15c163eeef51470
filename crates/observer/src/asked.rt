// A question that was read.
ghost use Rattle.std.specs.Prelude.{◌≡◌};
ghost use Rattle.lts.specs.Decoding.{transitions_of};
ghost use Rattle.lts.specs.Question.{fits, within, valid};
ghost use Rattle.observer.specs.Read.{question};

use lts::{Transition, Transitions};

pub const MAX_STATES: u32 = 4096;

pub const MAX_TRANSITIONS: usize = 16384;

pub const LABELS: u32 = 64;

// A machine and two of its states, borrowing the words that it was read from: three for each transition.
#[derive(Clone, Copy)]
pub struct Asked<'a> {
    pub states: u32,
    pub transitions: &'a [u32],
    pub first: u32,
    pub second: u32,
}

// Whether a transition goes from a state to a state, by a label that there is.
fn is_within(t: Transition, states: u32) -> bool
    ensures { result ≡ fits states t }
{
    t.source < states && t.target < states && t.label < LABELS
}

// Whether all transitions go from states to states, by labels that there are.
fn all_within(states: u32, words: &[u32]) -> bool
    ensures { result ≡ within states (transitions_of words.now) }
{
    Transitions { words }.all(|t| is_within(t, states))
}

impl Asked<'_> {
    // Whether the question is within the limits.
    // Kept: a test at a time. As one chain of `&&` the proof stops at its limit of cases.
    pub fn is_valid(&self) -> bool
        ensures { result ≡ valid (question self.now) }
    {
        if self.states < 1 || self.states > MAX_STATES {
            return false;
        }
        if self.first >= self.states || self.second >= self.states {
            return false;
        }
        if self.transitions.len() / 3 > MAX_TRANSITIONS {
            return false;
        }
        all_within(self.states, self.transitions)
    }
}
