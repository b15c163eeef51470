// Labelled transition systems: the definitions that every contract rests on stand in specs/.
#![tactic(auto)]

ghost use Rattle.std.specs.Prelude.{◌≡◌};
ghost use Rattle.std.specs.Iterator.{YieldsFirst, item_count};
ghost use Rattle.lts.specs.Decoding.{first_transition, transitions_of};

pub mod museum;

// From a state, by a label, to a state.
#[derive(Clone, Copy)]
pub struct Transition {
    pub source: u32,
    pub label: u32,
    pub target: u32,
}

impl Transition {
    // The transition whose words a slice starts with, or none where it has fewer than three.
    // Kept: no TryFrom, since a rule of the project has a function here that takes the slice which starts at a transition's words.
    pub fn starting(words: &[u32]) -> Option<Transition>
        ensures { result ≡ first_transition words.now }
    {
        let [source, label, target, ..] = words else {
            return None;
        };
        Some(Transition {
            source: *source,
            label: *label,
            target: *target,
        })
    }
}

// The transitions that words hold, one after another, less what is left over at the end.
#[derive(Drop)]
pub struct Transitions<'a> {
    pub words: &'a [u32],
}

impl Iterator for Transitions<'_> {
    type Item = Transition;

    ghost next_gives = { YieldsFirst (λ s. transitions_of s.words.now) };

    ghost remaining = { item_count (λ s. transitions_of s.words.now) };

    fn next(&mut self) -> Option<Transition> {
        let first = Transition::starting(self.words)?;
        self.words = &self.words[3..];
        Some(first)
    }
}
