// Tells what is needed, up the list of formulas.
ghost use Rattle.std.specs.Prelude.{◌≡◌, ◌+◌, ◌*◌, ◌^◌, ◌<◌, ◌≤◌, T, [], ◌∷◌, length, if◌then◌else◌, ◌==◌, nat_eq};
ghost use Rattle.lts.specs.Line.{neg_line};
ghost use Rattle.lent.specs.Bits.{bit_at};
ghost use Rattle.lines.specs.Joins.{Appends};
ghost use Rattle.lines.specs.Marked.{lines_up_to};
ghost use Rattle.lines.specs.Progress.{all_needed, Placed, ToldOn, told_by};
ghost use Rattle.lines.specs.Written.{Written};

use crate::joining::join_terms;
use crate::line::{Line, Says, write_line};
use crate::needs::Needs;
use crate::terms::find_terms;
use chains::State;
use lent::has_bit;

// Tells the negation of formula `j`, which stands at line `at`, if it is needed. Gives the number of the next line.
fn tell_negation(negated: &[u32], j: usize, at: usize, lines: &mut [u32]) -> usize
    requires fits { at + 2 < 2 ^ 32 }
    requires room { T (bit_at negated.now j == 1) → 3 * at + 6 ≤ length lines.old }
    ensures next { result ≡ at + 1 + (if nat_eq (bit_at negated.now j) 1 then 1 else 0) }
    ensures lines { Appends lines.old (at + 1) (if nat_eq (bit_at negated.now j) 1 then neg_line at ∷ [] else []) lines.new }
{
    if !has_bit(negated, j) {
        return at + 1;
    }
    write_line(lines, at + 1, Says::Not(Line(at as u32)));
    at + 2
}

// Tells formula `j` if it is needed, from line `next` on, and notes its place. Gives the number of the next line.
// Kept: the number of the next line beside the lines, here and in joining, since lent words can't grow as a Vec does.
fn tell_formula(
    needs: Needs,
    j: usize,
    next: usize,
    mask: &mut [u32],
    places: &mut [u32],
    lines: &mut [u32],
) -> usize
    requires formula { j < needs.refined.counts.formulas }
    requires next { next ≡ lines_up_to needs.refined (all_needed needs) j }
    requires mask { length mask.old ≡ needs.refined.answers.width }
    requires places { needs.refined.counts.formulas ≤ length places.old }
    requires placed { Placed needs.refined (all_needed needs) j places.old }
    requires room { 3 * needs.lines ≤ length lines.old }
    ensures { ToldOn needs.entry.refined (all_needed needs.entry) j lines.old result places.new lines.new }
{
    if !has_bit(needs.needed, j) {
        return next;
    }
    let refined = needs.refined;
    find_terms(refined, j, mask);
    let birth = refined.birth(j);
    let reach = refined.answers.row(State(birth.reach as usize));
    let body = join_terms(mask, reach, places, j, next, lines);
    places[j] = body.next as u32;
    write_line(lines, body.next, Says::Can(birth.label, body.at));
    tell_negation(needs.negated, j, body.next, lines)
}

// Writes the lines that tell the formula of `needs`.
pub fn tell(needs: Needs, mask: &mut [u32], places: &mut [u32], lines: &mut [u32])
    requires mask { length mask.old ≡ needs.refined.answers.width }
    requires places { needs.refined.counts.formulas ≤ length places.old }
    requires room { 3 * needs.lines ≤ length lines.old }
    ensures { Written lines.old (told_by needs.entry) lines.new }
{
    write_line(lines, 0, Says::Top);
    let mut next = 1;
    // Kept: the index. Formulas go by number, and no slice is read by it here.
    for j in 0..needs.refined.counts.formulas {
        next = tell_formula(needs, j, next, mask, places, lines);
    }
}
