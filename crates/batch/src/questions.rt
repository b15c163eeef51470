// Questions that the tests of measure and of compare ask.
use observer::{Compared, Unanswered};
use std::alloc::Global;
use std::test::Fail;

// Small questions, and what measure and compare answer: a state with itself; two without transitions; a loop of one beside a loop of two; one way
// to two dead states beside one to a single one; the museum's two; rows of two transitions and of one; words that encode nothing.
pub const QUESTIONS: [(&[u32], Result<Option<u32>, Unanswered>, Compared); 7] = [
    (&[1, 1, 0, 5, 0, 0, 0], Ok(None), Compared::Same),
    (&[2, 0, 0, 1], Ok(None), Compared::Same),
    (
        &[3, 3, 0, 1, 0, 1, 1, 2, 2, 1, 1, 0, 1],
        Ok(None),
        Compared::Same,
    ),
    (
        &[4, 3, 0, 1, 1, 0, 1, 2, 3, 1, 1, 0, 3],
        Ok(None),
        Compared::Same,
    ),
    (
        &[
            8, 7, 0, 1, 1, 1, 2, 7, 1, 3, 7, 4, 1, 5, 4, 1, 6, 5, 2, 7, 6, 3, 7, 0, 4,
        ],
        Ok(Some(2)),
        Compared::Differ(2, 5),
    ),
    (
        &[5, 3, 0, 1, 1, 1, 1, 2, 3, 1, 4, 0, 3],
        Ok(Some(2)),
        Compared::Differ(2, 3),
    ),
    (
        &[1, 0, 0, 1],
        Err(Unanswered::NoMachine),
        Compared::NoMachine,
    ),
];

// 4,096 states in a ring by 1, with a 2 from every even one to itself; the two that are asked about.
pub fn ring(heap: Global, first: u32, second: u32) -> Result<Vec<u32>, Fail> {
    let mut words = vec![in heap; 4096, 6144]?;
    // Kept: the range. Its numbers are what is written.
    for s in 0..4096u32 {
        words.extend_from_slice(&[s, 1, (s + 1) % 4096])?;
        if s % 2 == 0 {
            words.extend_from_slice(&[s, 2, s])?;
        }
    }
    words.extend_from_slice(&[first, second])?;
    Ok(words)
}

// As many words as a question of these is to be lent.
pub fn lent_for(heap: Global, words: &[u32]) -> Result<Vec<u32>, Fail> {
    let count = words.len().saturating_mul(128).saturating_add(65536);
    Ok(vec![in heap; 0u32; count]?)
}
