// How far ahead one has to look.
ghost use Rattle.std.specs.Prelude.{ℕ, length};
ghost use Rattle.observer.specs.Distance.{DistancePost};

use crate::reading::read;
use crate::room::is_few;
use crate::unanswered::Unanswered;
use chains::State;
use refine::refine;

// How many steps ahead the two states of a question differ; none if they are bisimilar. `Few` exactly if too few words are lent.
pub fn measure<'a>(words: &'a [u32], work: &'a mut [u32]) -> Result<Option<u32>, Unanswered>
    ensures { DistancePost words.now (length work.old) result }
{
    if is_few(words.len(), work.len()) {
        return Err(Unanswered::Few);
    }
    let asked = read(words).ok_or(Unanswered::NoMachine)?;
    let refined = refine(asked.states as usize, asked.transitions, work);
    let first = State(asked.first as usize);
    let second = State(asked.second as usize);
    Ok(refined.ahead(first, second))
}
