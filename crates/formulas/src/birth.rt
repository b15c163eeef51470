// Of what formulas are made.
ghost use Rattle.std.specs.Prelude.{◌≡◌, ◌+◌, ◌*◌, ◌≤◌, ◌∷◌, length};
ghost use Rattle.formulas.specs.Link.{birth_at, births_of};
ghost use Rattle.formulas.specs.Adding.{birth_of};

// Kept: births stand in four words each, since lent words hold numbers.
// Of what a formula is made: in a round, for a transition by `label` to the state `reach` that the state `lack` does not match.
#[derive(Clone, Copy)]
pub struct Birth {
    pub level: u32,
    pub label: u32,
    pub reach: u32,
    pub lack: u32,
}

impl Birth {
    // The birth with the number `j`, of those that stand in four words each.
    pub fn read(births: &[u32], j: usize) -> Birth
        requires { 4 * j + 4 ≤ length births.now }
        ensures { birth_of result ≡ birth_at births.now j }
    {
        let at = 4 * j;
        Birth {
            level: births[at],
            label: births[at + 1],
            reach: births[at + 2],
            lack: births[at + 3],
        }
    }

    // Writes the birth as the one with the number `count`.
    pub(crate) fn write(self, births: &mut [u32], count: usize)
        requires { 4 * count + 4 ≤ length births.old }
        ensures { births_of births.new (count + 1) ≡ birth_of self ∷ births_of births.old count }
    {
        births[4 * count] = self.level;
        births[4 * count + 1] = self.label;
        births[4 * count + 2] = self.reach;
        births[4 * count + 3] = self.lack;
    }
}
