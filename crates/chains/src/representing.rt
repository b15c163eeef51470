// Chains of representatives.
ghost use Rattle.std.specs.Prelude.{◌≡◌, ℕ, ◌+◌, ◌*◌, ◌<◌, ◌≤◌, ◌&&◌, length, if◌then◌else◌, ◌==◌, ◌≢◌, nat_eq, slice_index};
ghost use Rattle.chains.specs.System.{source_at, label_at};
ghost use Rattle.chains.specs.Labels.{in_set};
ghost use Rattle.chains.specs.Matching.{block_at, Represented, LeadsOn, Emptied};

use crate::blocks::Blocks;
use crate::labels::{add_label, has_label};
use crate::system::{State, System};

// Puts the label of transition `j` into the set of the block that it leads into. Gives `j` if it was not there, else `last`.
// Kept: lengths as clauses, since the words are lent as `&mut` beside the value.
fn add_label_of(blocks: Blocks, j: usize, last: usize, sets: &mut [u32]) -> usize
    requires room { length sets.old ≡ 2 * length blocks.system.first.now }
    requires transition { j < length blocks.links.now }
    ensures latest { result ≡ (if nat_eq (in_set sets.old (block_at blocks.entry.system.words.now blocks.entry.old.now j) (label_at blocks.entry.system.words.now j)) 1 then last else j) }
    ensures added { (b a : ℕ) → a < 64 → in_set sets.new b a ≡ (if nat_eq b (block_at blocks.entry.system.words.now blocks.entry.old.now j) && a == label_at blocks.entry.system.words.now j then 1 else in_set sets.old b a) }
{
    let (block, label) = blocks.representatives().kind(j);
    let listed = has_label(sets, block, label);
    add_label(sets, block, label);
    if listed { last } else { j }
}

// Links of the transitions of `s` the first by each label into each block. The sets of these blocks are empty.
// Kept: lengths as clauses, since the words are lent as `&mut` beside the value.
fn link_firsts(blocks: Blocks, s: State, sets: &mut [u32], links: &mut [u32])
    requires whole { blocks.links.now ≡ blocks.system.next.now }
    requires room { length sets.old ≡ 2 * length blocks.system.first.now }
    requires state { s.0 < length blocks.system.first.now }
    requires emptied { Emptied blocks.system.words.now blocks.old.now (length blocks.system.next.now) s.0 sets.old }
    requires each { length links.old ≡ length blocks.system.next.now }
    requires represented { Represented blocks.system.words.now blocks.old.now blocks.system.first.now links.old }
    ensures represented { Represented blocks.entry.system.words.now blocks.entry.old.now blocks.entry.system.first.now links.new }
    ensures firsts { (j : ℕ) → j < length blocks.entry.system.next.now → source_at blocks.entry.system.words.now j ≡ s.0 → LeadsOn blocks.entry.system.words.now blocks.entry.old.now (length blocks.entry.system.next.now) j (slice_index links.new j) }
    ensures others { (j : ℕ) → (source_at blocks.entry.system.words.now j ≢ s.0) → slice_index links.new j ≡ slice_index links.old j }
{
    let walk = blocks.system.walk(s);
    let mut last = walk.at;
    for j in walk {
        last = add_label_of(blocks, j, last, sets);
        links[last] = blocks.system.next[j];
    }
}

// Links of the transitions of each state the first by each label into each block of `old`.
// Kept: lengths as clauses, since the words are lent as `&mut` beside the value.
pub fn represent(system: System, old: &[u32], sets: &mut [u32], links: &mut [u32])
    requires each { length old.now ≡ length system.first.now }
    requires within { (s : ℕ) → s < length system.first.now → slice_index old.now s < length system.first.now }
    requires room { length sets.old ≡ 2 * length system.first.now }
    requires links { length links.old ≡ length system.next.now }
    ensures represented { Represented system.entry.words.now old.now system.entry.first.now links.new }
    ensures firsts { (j : ℕ) → j < length system.entry.next.now → LeadsOn system.entry.words.now old.now (length system.entry.next.now) j (slice_index links.new j) }
{
    let whole = Blocks {
        system,
        old,
        links: system.next,
    };
    let all = whole.representatives();
    links.copy_from_slice(system.next);
    // Kept: the index. It is the state that is gone through, and no slice is read by it here.
    for s in 0..system.first.len() {
        all.empty_sets(State(s), sets);
        link_firsts(whole, State(s), sets, links);
    }
}

impl<'a> Blocks<'a> {
    // A machine with a block for each state, and chains of representatives.
    // Kept: lengths as clauses, since the words are lent as `&mut` beside the value.
    pub fn represent(
        system: System<'a>,
        old: &'a [u32],
        sets: &mut [u32],
        links: &'a mut [u32],
    ) -> Blocks<'a>
        requires each { length old.now ≡ length system.first.now }
        requires within { (s : ℕ) → s < length system.first.now → slice_index old.now s < length system.first.now }
        requires room { length sets.old ≡ 2 * length system.first.now }
        requires links { length links.old ≡ length system.next.now }
        ensures machine { result.system ≡ system.entry }
        ensures blocks { result.old.now ≡ old.now }
        ensures firsts { (j : ℕ) → j < length system.entry.next.now → LeadsOn system.entry.words.now old.now (length system.entry.next.now) j (slice_index result.links.now j) }
    {
        represent(system, old, sets, links);
        Blocks { system, old, links }
    }
}
