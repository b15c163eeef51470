// Marks which formulas are needed, down the list, and counts their lines.
ghost use Rattle.std.specs.Prelude.{◌≡◌, ℕ, ◌*◌, ◌^◌, ◌<◌, Bool, length};
ghost use Rattle.theory.specs.Told.{demand_one, lines_for};
ghost use Rattle.lines.specs.Marked.{Demanded, Marked, Passes, wanted_in};

use crate::needs::Needs;
use crate::terms::find_terms;
use chains::State;
use lent::{clear, count_bits, has_bit, set_bit, unite, unite_lacking};
use refine::Refined;

// How many lines a formula with so many terms takes, with its negation or without.
fn lines_for(terms: usize, negated: bool) -> usize
    requires { terms < 2 ^ 32 }
    ensures { result ≡ lines_for terms negated }
{
    terms.max(1) + usize::from(negated)
}

// If formula `j` is needed, so are its terms, negated where its reached state lacks them. Gives how many lines it takes.
// Kept: lengths as clauses, since the words are lent as `&mut` beside the value.
fn pass_on(
    refined: Refined,
    j: usize,
    needed: &mut [u32],
    negated: &mut [u32],
    mask: &mut [u32],
) -> usize
    requires formula { j < refined.counts.formulas }
    requires needed { length needed.old ≡ refined.answers.width }
    requires negated { length negated.old ≡ refined.answers.width }
    requires mask { length mask.old ≡ refined.answers.width }
    ensures { Passes refined.entry j needed.old negated.old needed.new negated.new result }
{
    if !has_bit(needed, j) {
        return 0;
    }
    find_terms(refined, j, mask);
    let reach = State(refined.birth(j).reach as usize);
    unite(needed, mask);
    unite_lacking(negated, mask, refined.answers.row(reach));
    lines_for(count_bits(mask), has_bit(negated, j))
}

// At first only formula `j` is needed, negated or not.
fn mark_one(needed: &mut [u32], negated: &mut [u32], j: usize, negate: bool)
    requires needed { j < 32 * length needed.old }
    requires negated { length negated.old ≡ length needed.old }
    ensures { Demanded (demand_one j negate) (length needed.old) needed.new negated.new }
{
    clear(needed);
    clear(negated);
    set_bit(needed, j);
    if negate {
        set_bit(negated, j);
    }
}

// Marks all that is needed to tell formula `j`, or its negation. Gives how many lines tell it.
pub fn mark(
    refined: Refined,
    j: usize,
    negate: bool,
    needed: &mut [u32],
    negated: &mut [u32],
    mask: &mut [u32],
) -> usize
    requires formula { j < refined.counts.formulas }
    requires needed { length needed.old ≡ refined.answers.width }
    requires negated { length negated.old ≡ refined.answers.width }
    requires mask { length mask.old ≡ refined.answers.width }
    ensures { Marked refined.entry (wanted_in refined.entry j negate) needed.new negated.new result }
{
    mark_one(needed, negated, j, negate);
    let mut lines = 1;
    // Kept: the index. Formulas go by number, and no slice is read by it here.
    for i in (0..refined.counts.formulas).rev() {
        lines += pass_on(refined, i, needed, negated, mask);
    }
    lines
}

impl<'r, 'n> Needs<'r, 'n> {
    // What is needed to tell formula `j`, or its negation, marked in lent words.
    pub fn mark(
        refined: Refined<'r>,
        j: usize,
        negate: bool,
        needed: &'n mut [u32],
        negated: &'n mut [u32],
        mask: &mut [u32],
    ) -> Needs<'r, 'n>
        requires formula { j < refined.counts.formulas }
        requires needed { length needed.old ≡ refined.answers.width }
        requires negated { length negated.old ≡ refined.answers.width }
        requires mask { length mask.old ≡ refined.answers.width }
        ensures refined { result.refined ≡ refined.entry }
        ensures formula { (result.formula ≡ j) × (result.negate ≡ negate) }
    {
        let lines = mark(refined, j, negate, needed, negated, mask);
        Needs {
            refined,
            formula: j,
            negate,
            needed,
            negated,
            lines,
        }
    }
}
