// Lent words, divided for refinement.
ghost use Rattle.std.specs.Prelude.{◌≡◌, ◌+◌, ◌*◌, ◌≤◌, min, length};
ghost use Rattle.refine.specs.Askable.{Askable, Suffices};

use crate::refined::Refined;
use crate::settling::run_rounds;
use chains::{System, chain};
use formulas::Answers;
use lent::fill;

// How many words hold a bit for each formula that there can be.
fn row_width(states: usize, transitions: usize) -> usize
    requires few { states ≤ 4096 }
    requires short { transitions ≤ 16384 }
    ensures wide { min states (transitions + 1) ≤ 32 * result }
    ensures narrow { 32 * result ≤ min states (transitions + 1) + 31 }
{
    (states.min(transitions + 1) + 31) / 32
}

// Parts the states of a machine, in lent words: three words for each transition are given.
pub fn refine<'a>(states: usize, words: &'a [u32], memory: &'a mut [u32]) -> Refined<'a>
    requires askable { Askable states words.now }
    requires enough { Suffices words.now memory.old }
    ensures states { length result.answers.system.first.now ≡ states }
    ensures words { result.answers.system.words.now ≡ words.now }
{
    let transitions = words.len() / 3;
    let width = row_width(states, transitions);
    let (next, rest) = memory.split_at_mut(transitions);
    let (links, rest) = rest.split_at_mut(transitions);
    let (first, rest) = rest.split_at_mut(states);
    let (old, rest) = rest.split_at_mut(states);
    let (leads, rest) = rest.split_at_mut(states);
    let (births, rest) = rest.split_at_mut(128 * width);
    let (scratch, rest) = rest.split_at_mut(width + 4 * states);
    let (rows, _) = rest.split_at_mut(states * width);
    chain(words, first, next);
    fill(leads, 0);
    fill(rows, 0);
    let system = System { words, first, next };
    let counts = run_rounds(system, width, old, links, rows, leads, births, scratch);
    let answers = Answers {
        system,
        rows,
        width,
    };
    Refined {
        answers,
        leads,
        births,
        counts,
    }
}
