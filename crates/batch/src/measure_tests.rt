// What measure answers to small questions and to a ring.
use crate::questions::{QUESTIONS, lent_for, ring};
use observer::{Unanswered, measure};
use std::alloc::Global;
use std::test::Fail;

// How far ahead the two of a question differ.
fn distance(heap: Global, words: &[u32]) -> Result<Result<Option<u32>, Unanswered>, Fail> {
    let mut work = lent_for(heap, words)?;
    Ok(measure(words, work.as_mut_slice()))
}

// Kept: the loop of the other call's test, over the same table.
#[test]
fn small_questions(rt: HostRuntime) -> Result<(), Fail> {
    for (words, answer, _) in QUESTIONS {
        assert_eq!(rt; distance(rt.alloc(), words)?, answer);
    }
    assert_eq!(rt; measure(&[2, 0, 0, 1], &mut [0; 64]), Err(Unanswered::Few));
    Ok(())
}

#[test]
fn the_ring(rt: HostRuntime) -> Result<(), Fail> {
    let heap = rt.alloc();
    assert_eq!(rt; distance(heap, ring(heap, 0, 1)?.as_slice())?, Ok(Some(1)));
    assert_eq!(rt; distance(heap, ring(heap, 0, 2)?.as_slice())?, Ok(None));
    Ok(())
}
