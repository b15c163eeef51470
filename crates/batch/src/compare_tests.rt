// What compare answers to small questions and to a ring.
use crate::questions::{QUESTIONS, lent_for, ring};
use observer::{Compared, compare};
use std::alloc::Global;
use std::test::Fail;

// What is told of a question, where there is room for so many words of lines.
fn answer(heap: Global, words: &[u32], room: usize) -> Result<Compared, Fail> {
    let mut work = lent_for(heap, words)?;
    let mut lines = vec![in heap; 0u32; room]?;
    Ok(compare(words, lines.as_mut_slice(), work.as_mut_slice()))
}

#[test]
fn small_questions(rt: HostRuntime) -> Result<(), Fail> {
    for (words, _, told) in QUESTIONS {
        assert_eq!(rt; answer(rt.alloc(), words, 64)?, told);
    }
    assert_eq!(rt;
        compare(&[2, 0, 0, 1], &mut [0; 64], &mut [0; 64]),
        Compared::Few
    );
    Ok(())
}

#[test]
fn the_ring(rt: HostRuntime) -> Result<(), Fail> {
    let heap = rt.alloc();
    assert_eq!(rt;
        answer(heap, ring(heap, 0, 1)?.as_slice(), 5)?,
        Compared::OutFull(1, 2)
    );
    assert_eq!(rt;
        answer(heap, ring(heap, 0, 1)?.as_slice(), 6)?,
        Compared::Differ(1, 2)
    );
    assert_eq!(rt;
        answer(heap, ring(heap, 0, 2)?.as_slice(), 0)?,
        Compared::Same
    );
    Ok(())
}
