// What drawings are refused for, and what each form of line gives.
use beside::{Trouble as Apart, question};
use drawing::{Drawing, NoText, decode, parse, print};
use std::alloc::Global;
use std::process::Abort;
use std::test::Fail;

// The drawing that a text draws.
fn drawn(heap: Global, text: &str) -> Result<Drawing, Fail> {
    match parse(heap, text) {
        Ok(drawing) => Ok(drawing),
        Err(_) => Err(Fail::new("a drawing was refused")),
    }
}

fn check_refusal(rt: &impl Abort, heap: Global, text: &str, words: &str) -> Result<(), Fail> {
    let Err(trouble) = parse(heap, text) else {
        return Err(Fail::new("what is no drawing was read"));
    };
    let said = format!(in heap; "{trouble}")?;
    assert_eq!(rt; said.as_str(), words);
    Ok(())
}

// Texts, and what they are refused with.
const REFUSALS: [(&str, &str); 12] = [
    (
        "start a\na coin -> b\n",
        "line 2: found 'coin', expected ':' after a state, or machine, start or state in front of a name",
    ),
    (
        "start a\n\na: coin b",
        "line 3: found 'b', expected '->' after a button",
    ),
    (
        "a: coin -> b !",
        "line 1: found '!', expected the end of the line or a comment",
    ),
    (
        "a: \"\" -> b",
        "line 1: found '\"\"', expected a name with letters in it",
    ),
    (
        "\"\": coin -> b",
        "line 1: found '\"\":', expected a name with letters in it",
    ),
    (
        "a: \"coin -> b",
        "line 1: found '\"coin', expected a closing quote",
    ),
    (
        "start",
        "line 1: found the end of the line, expected a name",
    ),
    ("a: -> b", "line 1: found '->', expected a name"),
    (
        "a: coin -> b",
        "line 1: no start line; write start in front of the state where the machine starts",
    ),
    (
        "\nstart c\na: coin -> b",
        "line 2: it starts in 'c', which is no state of the drawing",
    ),
    (
        "start a\nstart a\nstate a",
        "line 2: a second start line; a machine starts in one state",
    ),
    (
        "machine m\nmachine m\nstart a",
        "line 2: a second machine line; a drawing has one title",
    ),
];

#[test]
fn texts_are_refused(rt: HostRuntime) -> Result<(), Fail> {
    for (text, words) in REFUSALS {
        check_refusal(&rt, rt.alloc(), text, words)?;
    }
    Ok(())
}

// A machine with n states in a row, and n - 1 different buttons.
fn row(heap: Global, n: u32) -> Result<String, Fail> {
    let mut text = String::from_str(heap, "start s0\nstate s0\n")?;
    // Kept: the range. Its numbers are what is written.
    for i in 1..n {
        let before = i - 1;
        text.push_str(format!(in heap; "s{before}: b{i} -> s{i}\n")?.as_str())?;
    }
    Ok(text)
}

#[test]
fn too_many_are_counted(rt: HostRuntime) -> Result<(), Fail> {
    let heap = rt.alloc();
    let few = drawn(heap, row(heap, 65)?.as_str())?;
    assert_eq!(rt; few.buttons().len(), 64);
    check_refusal(
        &rt,
        heap,
        row(heap, 66)?.as_str(),
        "line 68: 65 buttons; at most 64 can be compared",
    )?;
    check_refusal(
        &rt,
        heap,
        row(heap, 4100)?.as_str(),
        "line 4102: 4,100 states; at most 4,096 can be compared",
    )?;
    let other = drawn(heap, "start a\na: b65 -> a")?;
    match question(heap, &few, &other) {
        Err(Apart::TooManyButtons(n)) => {
            assert_eq!(rt; n, 65);
            Ok(())
        },
        _ => Err(Fail::new("65 different buttons were taken")),
    }
}

// One of each form of line, with white space, a comment, quotes, and letters beyond ASCII.
const FORMS: &str =
    "machine \"Grüße: 1\"\r\n\tstart:coin->start # a comment\nstart start\n\nstate \"a state\"\n\"a state\": \"b -> #\" -> start";

#[test]
fn each_form_is_read(rt: HostRuntime) -> Result<(), Fail> {
    let drawing = drawn(rt.alloc(), FORMS)?;
    assert_eq!(rt; drawing.start(), 0);
    assert!(rt; drawing.can_press(1, 1) && !drawing.can_press(1, 0));
    let again = print(rt.alloc(), &drawing)?;
    assert_eq!(rt;
        again.as_str(),
        "machine \"Grüße: 1\"\nstart start\nstate start\nstate \"a state\"\nstart: coin -> start\n\"a state\": \"b -> #\" -> start\n"
    );
    Ok(())
}

#[test]
fn bytes_are_text_or_not(rt: HostRuntime) {
    assert_eq!(rt; decode(b"start a"), Ok("start a"));
    assert_eq!(rt;
        decode(b"start a\na: \xffcoin -> b"),
        Err(NoText { line: 2 })
    );
}

#[test]
fn two_are_one_question(rt: HostRuntime) -> Result<(), Fail> {
    let heap = rt.alloc();
    let old = drawn(heap, "start a\na: x -> b\nb: y -> a")?;
    let new = drawn(heap, "start d\nc: z -> d\nd: x -> c")?;
    match question(heap, &old, &new) {
        Ok(words) => {
            assert_eq!(rt;
                words.as_slice(),
                [4, 4, 0, 0, 1, 1, 1, 0, 2, 2, 3, 3, 0, 2, 0, 3].as_slice()
            );
            Ok(())
        },
        Err(_) => Err(Fail::new("two drawings were refused")),
    }
}
