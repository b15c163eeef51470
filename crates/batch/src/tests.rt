// What lines are read as, what answers look like, and what arguments ask for.
use observer::Compared;
use query::{Answer, Command, Options, parse_options, read_words};
use std::alloc::Global;
use std::process::Abort;
use std::test::Fail;

// Lines that hold no words, and what is said of them.
const REFUSALS: [(&str, &str); 5] = [
    (
        "2 1 x7 1 1",
        "no words: found 'x7', expected a number below 4294967296, at word 3",
    ),
    (
        "4294967296",
        "no words: found '4294967296', expected a number below 4294967296, at word 1",
    ),
    (
        "\t 1 -1",
        "no words: found '-1', expected a number below 4294967296, at word 2",
    ),
    (
        "1 +1",
        "no words: found '+1', expected a number below 4294967296, at word 2",
    ),
    (
        "1,2",
        "no words: found '1,2', expected a number below 4294967296, at word 1",
    ),
];

#[test]
fn refuses_lines(rt: HostRuntime) -> Result<(), Fail> {
    let mut words = Vec::new(rt.alloc());
    for (line, said) in REFUSALS {
        let Err(none) = read_words(line, &mut words)? else {
            return Err(Fail::new("a line that holds no words was read"));
        };
        let text = format!(in rt.alloc(); "{none}")?;
        assert_eq!(rt; text.as_str(), said);
    }
    Ok(())
}

#[test]
fn reads_lines(rt: HostRuntime) -> Result<(), Fail> {
    let mut words = Vec::new(rt.alloc());
    for line in ["007 0 4294967295", "\t7\t 0  4294967295 "] {
        assert!(rt; read_words(line, &mut words)?.is_ok());
        assert_eq!(rt; words.as_slice(), [7, 0, 4294967295].as_slice());
    }
    assert!(rt; read_words(" \t", &mut words)?.is_ok());
    assert!(rt; words.is_empty());
    Ok(())
}

// What is written of an answer.
fn check_answer(rt: &impl Abort, heap: Global, compared: Compared, said: &str) -> Result<(), Fail> {
    let lines = [0, 0, 0, 3, 1, 0, 9, 9, 9];
    let answer = Answer {
        compared,
        lines: &lines,
    };
    let text = format!(in heap; "{answer}")?;
    assert_eq!(rt; text.as_str(), said);
    Ok(())
}

#[test]
fn writes_answers(rt: HostRuntime) -> Result<(), Fail> {
    check_answer(&rt, rt.alloc(), Compared::Same, "same")?;
    check_answer(
        &rt,
        rt.alloc(),
        Compared::Differ(1, 2),
        "differ 1 2 0 0 0 3 1 0",
    )?;
    check_answer(
        &rt,
        rt.alloc(),
        Compared::OutFull(12, 345),
        "lines full 12 345",
    )?;
    check_answer(&rt, rt.alloc(), Compared::NoMachine, "no machine")?;
    check_answer(&rt, rt.alloc(), Compared::Few, "few")
}

// What arguments, with a blank between, are refused with.
fn check_fault(rt: &impl Abort, heap: Global, args: &str, said: &str) -> Result<(), Fail> {
    let mut list = Vec::new(heap);
    for arg in args.split(' ') {
        list.push(String::from_str(heap, arg)?)?;
    }
    let Err(fault) = parse_options(list.as_slice()) else {
        return Err(Fail::new("wrong arguments were taken"));
    };
    let text = format!(in heap; "{fault}")?;
    assert_eq!(rt; text.as_str(), said);
    Ok(())
}

#[test]
fn refuses_arguments(rt: HostRuntime) -> Result<(), Fail> {
    check_fault(
        &rt,
        rt.alloc(),
        "--lines many",
        "found 'many' after --lines, expected a number below 4294967296",
    )?;
    check_fault(
        &rt,
        rt.alloc(),
        "--lines 7 --work",
        "found nothing after --work, expected a number below 4294967296",
    )?;
    check_fault(
        &rt,
        rt.alloc(),
        "7",
        "found '7', expected --lines WORDS, --work WORDS or --help",
    )
}

#[test]
fn takes_arguments(rt: HostRuntime) -> Result<(), Fail> {
    let heap = rt.alloc();
    let mut list = Vec::new(heap);
    for arg in ["--work", "70000", "--lines", "9"] {
        list.push(String::from_str(heap, arg)?)?;
    }
    let Ok(Command::Answer(options)) = parse_options(list.as_slice()) else {
        return Err(Fail::new("arguments were refused"));
    };
    let asked = Options {
        lines: 9,
        work: Some(70000),
    };
    assert_eq!(rt; options, asked);
    Ok(())
}
