// The states that satisfy a formula: those with a transition by its label into a state that is marked.
ghost use Rattle.std.specs.Prelude.{◌≡◌, ◌<◌, ◌&&◌, length, if◌then◌else◌, ◌==◌, nat_eq, slice_index, slice_set};
ghost use Rattle.formulas.specs.Marks.{Holding};

use chains::System;
use lts::{Transition, Transitions};

// Kept: marks are 1 and 0, since lent words hold numbers.
// Marks the source of a transition if that is by `label` into a state with `agree` 1.
fn mark_source(t: Transition, label: u32, agree: &[u32], holds: &mut [u32])
    requires source { t.source < length holds.old }
    requires target { t.target < length agree.now }
    ensures { holds.new ≡ (if nat_eq t.label label && slice_index agree.now t.target == 1 then slice_set holds.old t.source 1 else holds.old) }
{
    if t.label == label && agree[t.target as usize] == 1 {
        holds[t.source as usize] = 1;
    }
}

// Marks each state that has a transition by `label` into a state with `agree` 1, and no other.
pub fn mark_holding(system: System, label: u32, agree: &[u32], holds: &mut [u32])
    requires agree { length agree.now ≡ length system.first.now }
    requires holds { length holds.old ≡ length system.first.now }
    ensures { Holding system.entry.words.now agree.now label (length system.entry.next.now) holds.new }
{
    lent::fill(holds, 0);
    let transitions = Transitions {
        words: system.words,
    };
    for t in transitions {
        mark_source(t, label, agree, holds);
    }
}
