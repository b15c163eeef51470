// Words to a question.
ghost use Rattle.lts.specs.Question.{OneQuestion};
ghost use Rattle.observer.specs.Read.{ReadSays};

use crate::asked::Asked;

// The question that the words encode, borrowing them; none exactly if they encode none.
// Kept: no `TryFrom`, since its error would say no more than `None` does.
#[tactic(auto, using(lts::proofs::Encoding::one_question))]
pub fn read(words: &[u32]) -> Option<Asked<'_>>
    ensures says { ReadSays words.now result }
    ensures one { OneQuestion }
{
    let [states, count, transitions @ .., first, second] = words else {
        return None;
    };
    if transitions.len() != 3 * *count as usize {
        return None;
    }
    let asked = Asked {
        states: *states,
        transitions,
        first: *first,
        second: *second,
    };
    asked.is_valid().then_some(asked)
}
