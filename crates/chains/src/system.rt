// Machines in words.
ghost use Rattle.std.specs.Prelude.{◌≡◌, ◌+◌, ◌*◌, ◌<◌, length, slice_index};
ghost use Rattle.chains.specs.System.{transition_at, Chained, Bounded};

use crate::walk::Walk;
use lts::Transition;

// A machine, three words for each transition, with each state's first transition and each transition's next from the same state.
// Kept: how many transitions there are stands for none, and a transition is three words, since lent words hold numbers.
#[derive(Clone, Copy)]
pub struct System<'a> {
    pub words: &'a [u32],
    pub first: &'a [u32],
    pub next: &'a [u32],
    ghost chained: { Chained words.now first.now next.now },
    ghost bounded: { Bounded (length first.now) words.now next.now },
}

// Transition `j` of those that stand in three words each.
pub(crate) fn transition_in(words: &[u32], j: usize) -> Transition
    requires { 3 * j + 2 < length words.now }
    ensures { result ≡ transition_at words.now j }
{
    Transition {
        source: words[3 * j],
        label: words[3 * j + 1],
        target: words[3 * j + 2],
    }
}

impl<'a> System<'a> {
    // Transition `j`.
    pub fn transition(self, j: usize) -> Transition
        requires { j < length self.next.now }
        ensures { result ≡ transition_at self.entry.words.now j }
    {
        transition_in(self.words, j)
    }

    // The transitions of a state, by their numbers.
    pub fn walk(self, s: State) -> Walk<'a>
        requires { s.0 < length self.first.now }
        ensures links { result.links.now ≡ self.entry.next.now }
        ensures at { result.at ≡ slice_index self.entry.first.now s.0 }
    {
        Walk::of(s, self.first, self.next)
    }
}

// A state of a machine, by its number.
#[derive(Clone, Copy)]
pub struct State(pub usize);
