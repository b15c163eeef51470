// Whether two states are bisimilar, and if not, the lines that tell them apart.
ghost use Rattle.std.specs.Prelude.{◌≡◌, ◌+◌, ◌*◌, ◌<◌, ◌≤◌, length, ◌≢◌};
ghost use Rattle.refine.specs.Refined.{machine_in};
ghost use Rattle.observer.specs.Compared.{ApartSays, ComparedSays, ComparedPost};
ghost use Rattle.observer.specs.declared.comparison.Compared.TheVariants.{Few};

use crate::comparison::Compared;
use crate::reading::read;
use crate::room::is_few;
use chains::State;
use lent::has_bit;
use lines::{Needs, tell};
use refine::{Refined, refine};

// The words of lent memory that lines are told with: three rows of bits, and a place for each formula.
const SCRATCH: usize = 8192;

// Tells two states of a refined machine apart, if they differ. The lines are written if they fit.
fn tell_apart(
    refined: Refined,
    s: State,
    t: State,
    scratch: &mut [u32],
    lines: &mut [u32],
) -> Compared
    requires one { s.0 < length refined.answers.system.first.now }
    requires other { t.0 < length refined.answers.system.first.now }
    requires scratch { 8192 ≤ length scratch.old }
    ensures { ApartSays (machine_in refined.entry) s.0 t.0 lines.old lines.new result }
{
    let Some(formula) = refined.first_telling(s, t) else {
        return Compared::Same;
    };
    let depth = refined.birth(formula).level as usize;
    let width = refined.answers.width;
    let (needed, rest) = scratch.split_at_mut(width);
    let (negated, rest) = rest.split_at_mut(width);
    let (mask, places) = rest.split_at_mut(width);
    let negate = !has_bit(refined.answers.row(s), formula);
    let needs = Needs::mark(refined, formula, negate, needed, negated, mask);
    if lines.len() < 3 * needs.lines {
        return Compared::OutFull(depth, needs.lines);
    }
    tell(needs, mask, places, lines);
    Compared::Differ(depth, needs.lines)
}

// Answers the question that the words encode, if there is one, where enough words are lent.
fn answer<'a>(words: &'a [u32], work: &'a mut [u32], lines: &mut [u32]) -> Compared
    requires { 65536 + 128 * length words.now ≤ length work.old }
    ensures says { ComparedSays words.now lines.old lines.new result }
    ensures enough { result ≢ Few }
{
    let Some(asked) = read(words) else {
        return Compared::NoMachine;
    };
    let (scratch, memory) = work.split_at_mut(SCRATCH);
    let refined = refine(asked.states as usize, asked.transitions, memory);
    let first = State(asked.first as usize);
    let second = State(asked.second as usize);
    tell_apart(refined, first, second, scratch, lines)
}

// Compares the two states of the question that the words encode: *same*, or lines whose last tells them apart, looking as few steps ahead as any formula can.
pub fn compare(words: &[u32], lines: &mut [u32], work: &mut [u32]) -> Compared
    ensures { ComparedPost words.now (length work.old) lines.old lines.new result }
{
    if is_few(words.len(), work.len()) {
        return Compared::Few;
    }
    answer(words, work, lines)
}
