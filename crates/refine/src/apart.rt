// What tells two states of a machine that was refined apart.
ghost use Rattle.std.specs.Prelude.{◌≡◌, ◌<◌, length};
ghost use Rattle.chains.specs.System.{machine_of};
ghost use Rattle.formulas.specs.Adding.{birth_of};
ghost use Rattle.formulas.specs.Link.{birth_at};
ghost use Rattle.refine.specs.Refined.{machine_in, FirstTelling, Ahead};

use crate::parted::Parted;
use crate::refined::Refined;
use chains::State;
use formulas::{Birth, row};
use lent::first_difference;

impl Parted<'_> {
    // The birth of formula `j`.
    pub fn birth(self, j: usize) -> Birth
        requires { j < self.counts.formulas }
        ensures { birth_of result ≡ birth_at self.entry.births.now j }
    {
        Birth::read(self.births, j)
    }

    // The first formula that tells two states apart, by its number; none exactly if the two are bisimilar.
    pub fn first_telling(self, s: State, t: State) -> Option<usize>
        requires one { s.0 < self.states }
        requires other { t.0 < self.states }
        ensures { FirstTelling (machine_of self.entry.states self.entry.words.now) self.entry.counts.formulas s.0 t.0 result }
    {
        let first = first_difference(
            row(self.rows, self.width, s.0),
            row(self.rows, self.width, t.0),
        )?;
        if first < self.counts.formulas {
            return Some(first);
        }
        None
    }

    // How many steps ahead one has to look to tell two states apart; none exactly if they are bisimilar.
    pub fn ahead(self, s: State, t: State) -> Option<u32>
        requires one { s.0 < self.states }
        requires other { t.0 < self.states }
        ensures { Ahead (machine_of self.entry.states self.entry.words.now) s.0 t.0 result }
    {
        let first = self.first_telling(s, t)?;
        Some(self.birth(first).level)
    }
}

impl Refined<'_> {
    // The birth of formula `j`.
    pub fn birth(self, j: usize) -> Birth
        requires { j < self.counts.formulas }
        ensures { birth_of result ≡ birth_at self.entry.births.now j }
    {
        self.parted().birth(j)
    }

    // The first formula that tells two states apart, by its number; none exactly if the two are bisimilar.
    pub fn first_telling(self, s: State, t: State) -> Option<usize>
        requires one { s.0 < length self.answers.system.first.now }
        requires other { t.0 < length self.answers.system.first.now }
        ensures { FirstTelling (machine_in self.entry) self.entry.counts.formulas s.0 t.0 result }
    {
        self.parted().first_telling(s, t)
    }

    // How many steps ahead one has to look to tell two states apart; none exactly if they are bisimilar.
    pub fn ahead(self, s: State, t: State) -> Option<u32>
        requires one { s.0 < length self.answers.system.first.now }
        requires other { t.0 < length self.answers.system.first.now }
        ensures { Ahead (machine_in self.entry) s.0 t.0 result }
    {
        self.parted().ahead(s, t)
    }
}
