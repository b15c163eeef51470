// Machines whose states were parted.
ghost use Rattle.std.specs.Prelude.{ℕ, ◌*◌, ◌≤◌, length};
ghost use Rattle.chains.specs.System.{machine_of};
ghost use Rattle.refine.specs.Askable.{Askable};
ghost use Rattle.refine.specs.Rounds.{Done};

use crate::refined::Counts;

// What refinement leaves of a machine, without its chains: for each state a row of answers, `width` words wide, and its leader; and the births of the formulas, four words each.
// Kept: rows, leaders by state and births by formula in words of their own, since lent words hold numbers.
#[derive(Clone, Copy)]
pub struct Parted<'a> {
    pub states: usize,
    pub words: &'a [u32],
    pub width: usize,
    pub rows: &'a [u32],
    pub leads: &'a [u32],
    pub births: &'a [u32],
    pub counts: Counts,
    ghost askable: { Askable states words.now },
    ghost done: { Done (machine_of states words.now) counts.rounds width births.now counts.formulas rows.now leads.now },
    ghost narrow: { width ≤ 128 },
    ghost room: { 4 * counts.formulas ≤ length births.now },
}
