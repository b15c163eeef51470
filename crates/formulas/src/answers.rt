// What the states of a machine answer to formulas, and what a formula is made of by that.
ghost use Rattle.std.specs.Prelude.{◌≡◌, ℕ, ◌+◌, ◌*◌, ◌^◌, ◌<◌, ◌≤◌, length};
ghost use Rattle.lent.specs.Bits.{Agree};
ghost use Rattle.chains.specs.System.{source_at, label_at, target_at};
ghost use Rattle.formulas.specs.Link.{row_of};
ghost use Rattle.formulas.specs.Marks.{Tells, Terms, TermMarked, Agreeing, Differing, Evaluated};

use crate::birth::Birth;
use crate::hold::mark_holding;
use chains::{State, System};
use lent::Mask;
use lts::Transition;

// The row of state `s`, where each has `w` words.
pub fn row(rows: &[u32], w: usize, s: usize) -> &[u32]
    requires { s * w + w ≤ length rows.now }
    ensures { result.now ≡ row_of rows.now w s }
{
    &rows[s * w..s * w + w]
}

// A machine, and for each of its states a row of answers, `width` words wide.
#[derive(Clone, Copy)]
pub struct Answers<'a> {
    pub system: System<'a>,
    pub rows: &'a [u32],
    pub width: usize,
    ghost long: { length rows.now ≡ length system.first.now * width },
    ghost fits: { 32 * width < 2 ^ 64 },
}

impl<'a> Answers<'a> {
    // The answers of a state.
    pub fn row(self, s: State) -> &'a [u32]
        requires { s.0 < length self.system.first.now }
        ensures row { result.now ≡ row_of self.entry.rows.now self.entry.width s.0 }
        ensures long { length result.now ≡ self.entry.width }
    {
        row(self.rows, self.width, s.0)
    }

    // 1 if the answers of two states agree on the mask, else 0.
    fn agreement(self, reach: State, v: State, mask: Mask) -> u32
        requires reach { reach.0 < length self.system.first.now }
        requires state { v.0 < length self.system.first.now }
        requires mask { length mask.words.now ≡ self.width }
        ensures { Tells result (Agree (row_of self.entry.rows.now self.entry.width reach.0) (row_of self.entry.rows.now self.entry.width v.0) mask.entry.words.now) }
    {
        u32::from(lent::agree_within(self.row(reach), self.row(v), mask))
    }

    // Marks each state whose answers agree with `reach`'s on the mask.
    // Kept: lengths as clauses, since the words are lent as `&mut` beside the value.
    fn mark_agreeing(self, reach: State, mask: &[u32], agree: &mut [u32])
        requires reach { reach.0 < length self.system.first.now }
        requires mask { length mask.now ≡ self.width }
        requires agree { length agree.old ≡ length self.system.first.now }
        ensures { Agreeing self.entry.rows.now self.entry.width reach.0 mask.now (length self.entry.system.first.now) agree.new }
    {
        let mask = Mask::of(mask);
        for (v, mark) in agree.iter_mut().enumerate() {
            *mark = self.agreement(reach, State(v), mask);
        }
    }

    // Sets the bit in which the row of a transition's target first differs from `reach`'s, if the transition is by the birth's label.
    // Kept: lengths as clauses, since the words are lent as `&mut` beside the value.
    fn mark_term(self, j: usize, birth: Birth, mask: &mut [u32])
        requires transition { j < length self.system.next.now }
        requires reach { birth.reach < length self.system.first.now }
        requires mask { length mask.old ≡ self.width }
        requires differing { label_at self.system.words.now j ≡ birth.label → Differing self.rows.now self.width birth.reach (target_at self.system.words.now j) }
        ensures { TermMarked self.entry.system.words.now self.entry.rows.now self.entry.width birth.label birth.reach j mask.old mask.new }
    {
        let t = self.system.transition(j);
        if t.label == birth.label {
            let reach = self.row(State(birth.reach as usize));
            let target = self.row(State(t.target as usize));
            if let Some(term) = lent::first_difference(reach, target) {
                lent::set_bit(mask, term);
            }
        }
    }

    // The terms of a formula as a mask: the bits in which rows of what `lack` reaches by the label first differ from `reach`'s.
    pub fn mark_terms(self, birth: Birth, mask: &mut [u32])
        requires reach { birth.reach < length self.system.first.now }
        requires lack { birth.lack < length self.system.first.now }
        requires mask { length mask.old ≡ self.width }
        requires differing { (j : ℕ) → j < length self.system.next.now → source_at self.system.words.now j ≡ birth.lack → label_at self.system.words.now j ≡ birth.label → Differing self.rows.now self.width birth.reach (target_at self.system.words.now j) }
        ensures { Terms self.entry.system.words.now self.entry.rows.now self.entry.width birth.label birth.reach birth.lack (length self.entry.system.next.now) mask.new }
    {
        lent::clear(mask);
        for j in self.system.walk(State(birth.lack as usize)) {
            self.mark_term(j, birth, mask);
        }
    }

    // Who satisfies the formula of a birth: the states that have a transition by its label into a state that agrees with `reach` on the terms.
    pub(crate) fn evaluate(
        self,
        birth: Birth,
        mask: &mut [u32],
        agree: &mut [u32],
        holds: &mut [u32],
    )
        requires reach { birth.reach < length self.system.first.now }
        requires lack { birth.lack < length self.system.first.now }
        requires mask { length mask.old ≡ self.width }
        requires agree { length agree.old ≡ length self.system.first.now }
        requires holds { length holds.old ≡ length self.system.first.now }
        requires differing { (j : ℕ) → j < length self.system.next.now → source_at self.system.words.now j ≡ birth.lack → label_at self.system.words.now j ≡ birth.label → Differing self.rows.now self.width birth.reach (target_at self.system.words.now j) }
        ensures { Evaluated self.entry.system.words.now self.entry.rows.now self.entry.width birth.label birth.reach birth.lack (length self.entry.system.next.now) (length self.entry.system.first.now) holds.new }
    {
        self.mark_terms(birth, mask);
        self.mark_agreeing(State(birth.reach as usize), mask, agree);
        mark_holding(self.system, birth.label, agree, holds);
    }
}
