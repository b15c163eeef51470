// What comparing two states tells.

// Kept: no Result of an Option, since the signature of `compare` and these variants are a rule of the project.
// The two are bisimilar; or they differ, so many steps ahead, by so many lines; or the lines don't fit; or why nothing is told.
#[derive(Clone, Copy, PartialEq, Debug)]
pub enum Compared {
    Same,
    Differ(usize, usize),
    OutFull(usize, usize),
    NoMachine,
    Few,
}
