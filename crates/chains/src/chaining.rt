// Links the transitions of each state.
ghost use Rattle.std.specs.Prelude.{◌≡◌, ℕ, ◌*◌, ◌^◌, ◌<◌, length, slice_index};
ghost use Rattle.chains.specs.System.{source_at, Chained};

// Links the transitions, the last first, where no state has one yet.
fn link(words: &[u32], first: &mut [u32], next: &mut [u32])
    requires whole { length words.now ≡ 3 * length next.old }
    requires few { length next.old < 2 ^ 32 }
    requires sources { (j : ℕ) → j < length next.old → source_at words.now j < length first.old }
    requires unlinked { (s : ℕ) → s < length first.old → slice_index first.old s ≡ length next.old }
    ensures { Chained words.now first.new next.new }
{
    // Kept: the index. It is what is written down, and under `iter_mut` from the back a proof knows nothing of the links.
    for j in (0..next.len()).rev() {
        let source = words[3 * j] as usize;
        next[j] = first[source];
        first[source] = j as u32;
    }
}

// Finds for each state its first transition, and for each transition the next with the same source.
pub fn chain(words: &[u32], first: &mut [u32], next: &mut [u32])
    requires whole { length words.now ≡ 3 * length next.old }
    requires few { length next.old < 2 ^ 32 }
    requires sources { (j : ℕ) → j < length next.old → source_at words.now j < length first.old }
    ensures { Chained words.now first.new next.new }
{
    lent::fill(first, next.len() as u32);
    link(words, first, next);
}
