// What is needed to tell a formula.
ghost use Rattle.lines.specs.Marked.{Marked, wanted_in};

use refine::Refined;

// What is needed to tell a formula, or its negation: a bit for each formula that is needed, one for each that is needed negated, and how many lines tell it.
#[derive(Clone, Copy)]
pub struct Needs<'r, 'n> {
    pub refined: Refined<'r>,
    pub formula: usize,
    pub negate: bool,
    pub needed: &'n [u32],
    pub negated: &'n [u32],
    pub lines: usize,
    ghost marked: { Marked refined (wanted_in refined formula negate) needed.now negated.now lines },
}
