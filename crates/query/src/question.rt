// One question, asked with lent words.
ghost use Rattle.std.specs.Prelude.{length};
ghost use Rattle.query.specs.Asking.{AtMostWords, Asks, AsksByRule};

use crate::plan::Lending;
use observer::{Compared, compare, to_lend};

// A question has at most so many words: two, three for each of 16,384 transitions, and two.
pub const MOST_WORDS: usize = 49_156;

// So many words are lent for the largest question: 65,536, and 128 for each of its words.
pub const MOST_LENT: usize = 6_357_504;

// The answer to the words of a question, with as much of `work` as the rule asks for. More words than any question has are no machine.
fn ask_by_rule(words: &[u32], lines: &mut [u32], work: &mut [u32]) -> Compared
    ensures { AsksByRule words.now (length work.old) lines.old lines.new result }
{
    if words.len() > MOST_WORDS {
        return Compared::NoMachine;
    }
    let end = work.len().min(to_lend(words.len()));
    compare(words, lines, &mut work[0..end])
}

// The answer to the words of a question, with all of `work` or as much of it as the rule asks for.
// Kept: the two ways are known once the arguments are read; a closure for them would want its own clauses in each caller.
#[tactic(auto, using(crate::proofs::Sizes::at_most_words))]
pub fn ask(words: &[u32], lines: &mut [u32], work: &mut [u32], lending: Lending) -> Compared
    ensures says { Asks lending words.now (length work.old) lines.old lines.new result }
    ensures most { AtMostWords }
{
    match lending {
        Lending::Whole => compare(words, lines, work),
        Lending::ByRule => ask_by_rule(words, lines, work),
    }
}
