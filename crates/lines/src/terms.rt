// The terms of formulas.
ghost use Rattle.std.specs.Prelude.{◌≡◌, ◌<◌, length};
ghost use Rattle.lines.specs.Terms.{TermsAre};

use refine::Refined;

// The terms of formula `j` as a mask.
// Kept: lengths as clauses, since the words are lent as `&mut` beside the value.
pub fn find_terms(refined: Refined, j: usize, mask: &mut [u32])
    requires formula { j < refined.counts.formulas }
    requires mask { length mask.old ≡ refined.answers.width }
    ensures { TermsAre refined.entry j mask.new }
{
    let birth = refined.birth(j);
    refined.answers.mark_terms(birth, mask);
}
