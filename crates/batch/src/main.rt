// Answers questions by words, one question a line: batch [--lines WORDS] [--work WORDS].
#![tactic(auto)]

use ending::{Stop, ended};
use query::{
    Answer, Command, Lending, MOST_LENT, MOST_WORDS, Options, ask, parse_options, read_words,
};
use std::alloc::{AllocError, Global};
use std::env;
use std::fmt::Display;
use std::io::{BufRead, BufReader, BufWriter, ErrorKind, Write};
use std::process::ExitCode;

#[cfg(test)]
mod compare_tests;
#[cfg(test)]
mod measure_tests;
#[cfg(test)]
mod questions;
#[cfg(test)]
mod tests;

const HELP: &str = "batch [--lines WORDS] [--work WORDS]

Answers questions about machines: one question a line on standard input, one
answer a line on standard output.

A question is a list of numbers below 4294967296 in decimal, with spaces or tabs
between: how many states (1 to 4096) and how many transitions (at most 16384)
there are; of each transition the state where it starts, its label (0 to 63) and
the state to which it leads; and the two states to compare. States are numbered
from 0.

  same               nobody who goes by labels, looks and goes back tells them apart
  differ D N W W ..  D steps ahead, at the least, they differ; and N lines that say
                     how, three words each. The last line holds of the first state
                     and not of the second. Lines are numbered from 0:
                       0 0 0  always      1 I 0  not line I
                       2 I J  line I and line J
                       3 A I  by label A one can go to where line I holds
  lines full D N     the same, but there is no room for the 3 * N words
  no machine         the numbers are no question, or one beyond the limits
  few                fewer words are lent than 65536 and 128 for each number
  no words: ..       the line is no list of such numbers

  --lines WORDS      room for the words of the lines; 1048576 if it is not given
  --work WORDS       words that are lent; what each question asks for if it is
                     not given
";

// The words of a question, and those that are lent to answer it.
#[derive(Drop)]
struct Lent {
    words: Vec<u32>,
    lines: Vec<u32>,
    work: Vec<u32>,
    lending: Lending,
}

impl Lent {
    // As many as the options say.
    fn new(heap: Global, options: Options) -> Result<Lent, AllocError> {
        Ok(Lent {
            words: Vec::with_capacity(heap, MOST_WORDS)?,
            lines: vec![in heap; 0u32; options.lines]?,
            work: vec![in heap; 0u32; options.work.unwrap_or(MOST_LENT)]?,
            lending: options.lending(),
        })
    }

    // Writes the answer to a line.
    fn answer<W: Write>(&mut self, out: &mut W, line: &str) -> Result<(), Stop> {
        if let Err(none) = read_words(line, &mut self.words)? {
            return Ok(writeln!(out, "{none}")?);
        }
        let compared = ask(
            self.words.as_slice(),
            self.lines.as_mut_slice(),
            self.work.as_mut_slice(),
            self.lending,
        );
        let answer = Answer {
            compared,
            lines: self.lines.as_slice(),
        };
        Ok(writeln!(out, "{answer}")?)
    }
}

// Answers each line.
fn answer_all(rt: &HostRuntime, options: Options) -> Result<(), Stop> {
    let heap = rt.alloc();
    let mut lent = Lent::new(heap, options)?;
    let mut out = BufWriter::new(heap, rt.stdout())?;
    for line in BufReader::new(heap, rt.stdin())?.lines(heap) {
        match line {
            Ok(line) => lent.answer(&mut out, line.as_str())?,
            Err(e) if e.kind() == ErrorKind::InvalidData => writeln!(
                out,
                "no words: found a byte that is no UTF-8, expected numbers"
            )?,
            Err(e) => return Err(Stop::from(e)),
        }
    }
    Ok(out.flush()?)
}

// Says what is wrong, and gives why the run stops: that it has been said, or that a stream failed.
fn said(rt: &HostRuntime, wrong: impl Display + Drop) -> Stop {
    match ending::said(rt, "batch", wrong) {
        Stop::Output(e) => Stop::Stream(e),
        stop => stop,
    }
}

// Says why no more is answered.
fn report(rt: &HostRuntime, stop: Stop) -> Stop {
    match stop {
        Stop::Said => Stop::Said,
        Stop::Output(e) | Stop::Stream(e) => said(rt, e),
        Stop::Memory => said(rt, "there is not enough memory"),
    }
}

// Does what the arguments ask for.
fn run(rt: &HostRuntime) -> Result<(), Stop> {
    let args = env::args(rt).map_err(Stop::Stream)?;
    let args: Vec<String> = args.skip(1).collect(rt.alloc())?;
    match parse_options(args.as_slice()) {
        Ok(Command::Help) => rt.print(HELP).map_err(Stop::Stream),
        Ok(Command::Answer(options)) => answer_all(rt, options).map_err(|stop| report(rt, stop)),
        Err(fault) => Err(said(rt, fault)),
    }
}

fn main(rt: HostRuntime) -> Result<ExitCode, Stop> {
    ended(run(&rt))
}
