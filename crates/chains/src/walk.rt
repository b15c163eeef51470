// Walks along chains.
ghost use Rattle.std.specs.Prelude.{◌≡◌, ℕ, ◌-◌, ◌<◌, ◌≤◌, length, slice_index, MatchOption};
ghost use Rattle.std.specs.Iterator.{at_most};

use crate::system::State;

// The transitions from one on, as links to later ones lead.
#[derive(Drop)]
pub struct Walk<'a> {
    pub links: &'a [u32],
    pub at: usize,
    ghost rises: { (j : ℕ) → j < length links.now → j < slice_index links.now j },
}

impl<'a> Walk<'a> {
    // The transitions of a state: its first, and on as the links lead.
    pub fn of(s: State, first: &[u32], links: &'a [u32]) -> Walk<'a>
        requires state { s.0 < length first.now }
        requires rises { (j : ℕ) → j < length links.now → j < slice_index links.now j }
        ensures links { result.links.now ≡ links.now }
        ensures at { result.at ≡ slice_index first.now s.0 }
    {
        Walk {
            links,
            at: first[s.0] as usize,
        }
    }
}

impl Iterator for Walk<'_> {
    type Item = usize;

    ghost next_gives = { λ w r v. MatchOption r (length w.links.now ≤ w.at) (λ j. (j ≡ w.at) × (w.at < length w.links.now) × (v.at ≡ slice_index w.links.now w.at) × (v.links.now ≡ w.links.now)) };

    ghost remaining = { λ w. at_most (length w.links.now - w.at) };

    fn next(&mut self) -> Option<usize> {
        let j = self.at;
        self.at = *self.links.get(j)? as usize;
        Some(j)
    }
}
