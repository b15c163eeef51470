// One formula is added.
ghost use Rattle.std.specs.Prelude.{◌≡◌, ℕ, ◌+◌, ◌*◌, ◌^◌, ◌<◌, ◌≤◌, not, T, ◌∷◌, length};
ghost use Rattle.lts.specs.Machine.{Step};
ghost use Rattle.theory.specs.Births.{alike};
ghost use Rattle.chains.specs.System.{machine_of};
ghost use Rattle.formulas.specs.Link.{Link, births_of};
ghost use Rattle.formulas.specs.Adding.{birth_of};

use crate::answers::Answers;
use crate::birth::Birth;
use crate::extend::extend_rows;
use crate::split::split;
use chains::System;

// Adds the formula of a birth: each row gets its answer, blocks that it parts are split, and the birth is kept.
// Kept: rows, leaders and births as parameters. In a struct of `&mut` a proof loses what the words were once they are lent as shared out of it.
pub fn add_formula(
    system: System,
    birth: Birth,
    count: usize,
    w: usize,
    rows: &mut [u32],
    leads: &mut [u32],
    births: &mut [u32],
    scratch: &mut [u32],
)
    requires few { length system.first.now < 2 ^ 32 }
    requires fits { 32 * w < 2 ^ 64 }
    requires link { Link (machine_of (length system.first.now) system.words.now) (births_of births.old count) rows.old w leads.old }
    requires room { count < 32 * w }
    requires births { 4 * count + 4 ≤ length births.old }
    requires scratch { w + 2 * length system.first.now ≤ length scratch.old }
    requires reach { birth.reach < length system.first.now }
    requires lack { birth.lack < length system.first.now }
    requires lacks { (v : ℕ) → Step (machine_of (length system.first.now) system.words.now) birth.lack birth.label v → T (not (alike (machine_of (length system.first.now) system.words.now) (births_of births.old count) birth.reach v)) }
    ensures births { births_of births.new (count + 1) ≡ birth_of birth ∷ births_of births.old count }
    ensures link { Link (machine_of (length system.entry.first.now) system.entry.words.now) (birth_of birth ∷ births_of births.old count) rows.new w leads.new }
{
    let states = system.first.len();
    let (mask, rest) = scratch.split_at_mut(w);
    let (agree, rest) = rest.split_at_mut(states);
    let (holds, _) = rest.split_at_mut(states);
    let answers = Answers {
        system,
        rows,
        width: w,
    };
    answers.evaluate(birth, mask, agree, holds);
    extend_rows(rows, w, holds, count);
    split(leads, holds, agree);
    birth.write(births, count);
}
