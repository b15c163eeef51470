// Machines that were refined.
ghost use Rattle.std.specs.Prelude.{◌≡◌, ℕ, ◌*◌, ◌≤◌, length};
ghost use Rattle.chains.specs.System.{machine_of};
ghost use Rattle.refine.specs.Askable.{Askable};
ghost use Rattle.refine.specs.Rounds.{Done};

use crate::parted::Parted;
use formulas::Answers;

// How many formulas there are, and how many rounds added them.
#[derive(Clone, Copy)]
pub struct Counts {
    pub formulas: usize,
    pub rounds: u32,
}

// A machine that was refined: for each state its answers to the formulas and its leader; and the births of the formulas, four words each.
// Kept: leaders by state and births by formula in words of their own, since lent words hold numbers.
#[derive(Clone, Copy)]
pub struct Refined<'a> {
    pub answers: Answers<'a>,
    pub leads: &'a [u32],
    pub births: &'a [u32],
    pub counts: Counts,
    ghost askable: { Askable (length answers.system.first.now) answers.system.words.now },
    ghost done: { Done (machine_of (length answers.system.first.now) answers.system.words.now) counts.rounds answers.width births.now counts.formulas answers.rows.now leads.now },
    ghost narrow: { answers.width ≤ 128 },
    ghost room: { 4 * counts.formulas ≤ length births.now },
}

impl<'a> Refined<'a> {
    // What is left without the chains.
    pub fn parted(self) -> Parted<'a>
        ensures states { result.states ≡ length self.entry.answers.system.first.now }
        ensures words { result.words.now ≡ self.entry.answers.system.words.now }
        ensures rows { (result.width ≡ self.entry.answers.width) × (result.rows.now ≡ self.entry.answers.rows.now) }
        ensures rest { (result.leads.now ≡ self.entry.leads.now) × (result.births.now ≡ self.entry.births.now) × (result.counts ≡ self.entry.counts) }
    {
        Parted {
            states: self.answers.system.first.len(),
            words: self.answers.system.words,
            width: self.answers.width,
            rows: self.answers.rows,
            leads: self.leads,
            births: self.births,
            counts: self.counts,
        }
    }
}
