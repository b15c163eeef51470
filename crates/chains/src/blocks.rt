// Which transitions of a state another matches: those by the same label into the same block.
ghost use Rattle.std.specs.Prelude.{◌≡◌, ℕ, ◌+◌, ◌*◌, ◌<◌, ◌≤◌, Decides, length, slice_index};
ghost use Rattle.chains.specs.System.{label_at, Bounded};
ghost use Rattle.chains.specs.Matching.{block_at, Represented, Emptied, Added, FirstMissing, FirstUnmatched};

use crate::labels::{add_label, empty, has_label};
use crate::system::{State, System, transition_in};
use crate::walk::Walk;

// Transitions in words with a block for each state, and chains that may leave out transitions that are like one before them: by the same label into the same block.
// Kept: the length of the sets as a clause, since they are lent as `&mut` beside it.
#[derive(Clone, Copy)]
pub struct Representatives<'a> {
    pub words: &'a [u32],
    pub first: &'a [u32],
    pub links: &'a [u32],
    pub old: &'a [u32],
    ghost represented: { Represented words.now old.now first.now links.now },
    ghost bounded: { Bounded (length first.now) words.now links.now },
    ghost each: { length old.now ≡ length first.now },
    ghost within: { (s : ℕ) → s < length first.now → slice_index old.now s < length first.now },
}

impl<'a> Representatives<'a> {
    // The transitions of a state, but for those that are left out.
    fn walk(self, s: State) -> Walk<'a>
        requires { s.0 < length self.first.now }
        ensures links { result.links.now ≡ self.entry.links.now }
        ensures at { result.at ≡ slice_index self.entry.first.now s.0 }
    {
        Walk::of(s, self.first, self.links)
    }

    // Whether a state has no transition.
    fn is_stuck(self, x: State) -> bool
        requires { x.0 < length self.first.now }
        ensures { Decides result (length self.entry.links.now ≤ slice_index self.entry.first.now x.0) }
    {
        self.first[x.0] as usize >= self.links.len()
    }

    // The block that transition `j` leads into, and its label.
    pub(crate) fn kind(self, j: usize) -> (u32, u32)
        requires { j < length self.links.now }
        ensures block { result.0 ≡ block_at self.entry.words.now self.entry.old.now j }
        ensures label { result.1 ≡ label_at self.entry.words.now j }
        ensures within { result.0 < length self.entry.first.now }
        ensures few { result.1 < 64 }
    {
        let t = transition_in(self.words, j);
        (self.old[t.target as usize], t.label)
    }

    // Empties the sets of the blocks that the transitions of `x` lead into.
    pub(crate) fn empty_sets(self, x: State, sets: &mut [u32])
        requires room { length sets.old ≡ 2 * length self.first.now }
        requires state { x.0 < length self.first.now }
        ensures { Emptied self.entry.words.now self.entry.old.now (length self.entry.links.now) x.0 sets.new }
    {
        for j in self.walk(x) {
            let (block, _) = self.kind(j);
            empty(sets, block);
        }
    }

    // Puts the label of each transition of `y` into the set of the block that it leads into.
    // Kept: the shape of `empty_sets`, with another call. A closure that writes the sets is none that a proof sees through.
    fn add_labels(self, y: State, sets: &mut [u32])
        requires room { length sets.old ≡ 2 * length self.first.now }
        requires state { y.0 < length self.first.now }
        ensures { Added self.entry.words.now self.entry.old.now (length self.entry.links.now) y.0 sets.old sets.new }
    {
        for j in self.walk(y) {
            let (block, label) = self.kind(j);
            add_label(sets, block, label);
        }
    }

    // The first transition of `x` whose label is not in the set of the block that it leads into.
    fn first_missing(self, x: State, sets: &[u32]) -> Option<usize>
        requires { x.0 < length self.first.now }
        ensures { FirstMissing self.entry.words.now self.entry.old.now (length self.entry.links.now) x.0 sets.now result }
    {
        let mut walk = self.walk(x);
        // Kept: a labelled loop that yields by `break`, as a rule of the project has it here.
        'search: loop {
            let Some(j) = walk.next() else {
                break 'search None;
            };
            let (block, label) = self.kind(j);
            if !has_label(sets, block, label) {
                break 'search Some(j);
            }
        }
    }

    // The first transition of `x` that `y` does not match: it has none by the same label into the same block.
    pub fn unmatched(self, x: State, y: State, sets: &mut [u32]) -> Option<usize>
        requires room { length sets.old ≡ 2 * length self.first.now }
        requires one { x.0 < length self.first.now }
        requires other { y.0 < length self.first.now }
        ensures { FirstUnmatched self.entry.words.now self.entry.old.now (length self.entry.first.now) (length self.entry.links.now) x.0 y.0 result }
    {
        if self.is_stuck(x) {
            return None;
        }
        self.empty_sets(x, sets);
        self.add_labels(y, sets);
        self.first_missing(x, sets)
    }
}

// A machine with a block for each state, and such chains beside its own.
#[derive(Clone, Copy)]
pub struct Blocks<'a> {
    pub system: System<'a>,
    pub old: &'a [u32],
    pub links: &'a [u32],
    ghost represented: { Represented system.words.now old.now system.first.now links.now },
    ghost each: { length old.now ≡ length system.first.now },
    ghost within: { (s : ℕ) → s < length system.first.now → slice_index old.now s < length system.first.now },
}

impl<'a> Blocks<'a> {
    // The chains that may leave out transitions, without the machine's own.
    pub fn representatives(self) -> Representatives<'a>
        ensures machine { (result.words.now ≡ self.entry.system.words.now) × (result.first.now ≡ self.entry.system.first.now) }
        ensures blocks { result.old.now ≡ self.entry.old.now }
        ensures links { result.links.now ≡ self.entry.links.now }
    {
        Representatives {
            words: self.system.words,
            first: self.system.first,
            links: self.links,
            old: self.old,
        }
    }

    // The first transition of `x` that `y` does not match: it has none by the same label into the same block.
    pub fn unmatched(self, x: State, y: State, sets: &mut [u32]) -> Option<usize>
        requires room { length sets.old ≡ 2 * length self.system.first.now }
        requires one { x.0 < length self.system.first.now }
        requires other { y.0 < length self.system.first.now }
        ensures { FirstUnmatched self.entry.system.words.now self.entry.old.now (length self.entry.system.first.now) (length self.entry.links.now) x.0 y.0 result }
    {
        self.representatives().unmatched(x, y, sets)
    }
}

// The first transition of `x` that `y` does not match: it has none by the same label into the same block of `old`.
// Kept: one call of the method, for who has a machine and no Blocks.
pub fn unmatched(system: System, old: &[u32], x: usize, y: usize, sets: &mut [u32]) -> Option<usize>
    requires each { length old.now ≡ length system.first.now }
    requires within { (s : ℕ) → s < length system.first.now → slice_index old.now s < length system.first.now }
    requires room { length sets.old ≡ 2 * length system.first.now }
    requires one { x < length system.first.now }
    requires other { y < length system.first.now }
    ensures { FirstUnmatched system.entry.words.now old.now (length system.entry.first.now) (length system.entry.next.now) x y result }
{
    let blocks = Blocks {
        system,
        old,
        links: system.next,
    };
    blocks.unmatched(State(x), State(y), sets)
}
