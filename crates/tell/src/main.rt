// Tells what two drawings show: tell OLD NEW.
#![tactic(auto)]

use beside::{Trouble as Apart, question};
use drawing::{Drawing, decode, parse};
use ending::{Stop, ended, said};
use observer::{measure, to_lend};
use script::push_name;
use std::alloc::{AllocError, Global};
use std::process::ExitCode;
use std::{env, fs};

#[cfg(test)]
mod tests;

const HELP: &str = "tell OLD NEW

Reads two drawings of machines, and says of each what was read: its title, how
many states, buttons and transitions it has, where it starts, and what can be
pressed there. Then whether the two do the same from their starts, and if not, how
many presses ahead one has to look to tell them apart.

A drawing is a text with one statement a line:

  machine \"Chocolate machine\"   its title
  start waiting                 where it starts
  waiting: coin -> paid         STATE: BUTTON -> STATE
  state broken                  a state that no other line has
  # ...                         a comment

A name with a space, a colon, a # or an arrow in it stands in quotes. A state may
have several lines with one button.

A drawing that is none is refused on standard error, with the file, the line, what
was found and what was expected; the status is then 1.
";

// The drawing in a file; what is wrong with it is said.
fn load(rt: &HostRuntime, path: &str) -> Result<Drawing, Stop> {
    let bytes = fs::read(rt, path).map_err(|e| said(
        rt,
        "tell",
        format_args!("{path} can't be read: {e}"),
    ))?;
    let text = decode(bytes.as_slice()).map_err(|e| said(rt, "tell", format_args!("{path}, {e}")))?;
    parse(rt.alloc(), text.strip_prefix('\u{feff}').unwrap_or(text)).map_err(|e| said(
        rt,
        "tell",
        format_args!("{path}, {e}"),
    ))
}

// What can be pressed in the start, as a list of names.
fn choices(heap: Global, drawing: &Drawing) -> Result<String, AllocError> {
    let mut out = String::new(heap);
    for (i, button) in drawing.buttons().list().iter().enumerate() {
        if drawing.can_press(drawing.start(), i) {
            if !out.is_empty() {
                out.push_str(", ")?;
            }
            push_name(&mut out, button.as_str())?;
        }
    }
    Ok(out)
}

// Says what was read.
fn describe(rt: &HostRuntime, which: &str, path: &str, drawing: &Drawing) -> Result<(), Stop> {
    let title = drawing.title().unwrap_or(path);
    println!(rt; "{which}: {title}")?;
    let states = drawing.states().len();
    let buttons = drawing.buttons().len();
    let arrows = drawing.arrows().len();
    println!(rt; "  states {states}, buttons {buttons}, transitions {arrows}")?;
    let mut start = String::new(rt.alloc());
    push_name(&mut start, drawing.states().name(drawing.start()).unwrap())?;
    let pressed = choices(rt.alloc(), drawing)?;
    if pressed.is_empty() {
        println!(rt; "  it starts in {start}, where nothing can be pressed")?;
    } else {
        println!(rt; "  it starts in {start}, where one can press: {pressed}")?;
    }
    Ok(())
}

// The question of both, or what there is too much of.
fn ask(rt: &HostRuntime, old: &Drawing, new: &Drawing) -> Result<Vec<u32>, Stop> {
    question(rt.alloc(), old, new).map_err(|trouble| match trouble {
        Apart::Memory => Stop::Memory,
        wrong => said(rt, "tell", wrong),
    })
}

// Says whether the two of a question do the same, in words that are lent as the call asks.
fn answer(rt: &HostRuntime, words: &[u32]) -> Result<(), Stop> {
    let mut work = vec![in rt.alloc(); 0u32; to_lend(words.len())]?;
    match measure(words, work.as_mut_slice()) {
        Ok(None) => println!(rt;
            "same: nobody who presses, looks, goes back and tries otherwise can tell them apart"
        )?,
        Ok(Some(1)) => println!(rt; "differ: one who looks 1 press ahead can tell them apart")?,
        Ok(Some(d)) => println!(rt;
            "differ: one who looks {d} presses ahead can tell them apart, and nobody who looks less far"
        )?,
        Err(why) => println!(rt; "{why}")?,
    }
    Ok(())
}

// Reads both drawings before anything is told.
fn tell(rt: &HostRuntime, old_path: &str, new_path: &str) -> Result<(), Stop> {
    let old = load(rt, old_path)?;
    let new = load(rt, new_path)?;
    describe(rt, "old", old_path, &old)?;
    describe(rt, "new", new_path, &new)?;
    let words = ask(rt, &old, &new)?;
    answer(rt, words.as_slice())
}

// Tells what the arguments ask for.
fn run(rt: &HostRuntime) -> Result<(), Stop> {
    let mut args = env::args(rt)?.skip(1);
    let old = args.next();
    if old.as_deref() == Some("--help") {
        return Ok(rt.print(HELP)?);
    }
    match (old, args.next(), args.next()) {
        (Some(old), Some(new), None) => tell(rt, old.as_str(), new.as_str()),
        _ => Err(said(
            rt,
            "tell",
            "expected two drawings: tell OLD NEW (tell --help says more)",
        )),
    }
}

fn main(rt: HostRuntime) -> Result<ExitCode, Stop> {
    ended(run(&rt))
}
