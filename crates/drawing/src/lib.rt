// Drawings: machines that are written down as text.
#![tactic(auto)]

ghost use Rattle.std.specs.Prelude.{◌≡◌, IfOk, string_bytes};
ghost use Rattle.drawing.specs.Model.{drawn};
ghost use Rattle.std.specs.Option.{option_map};
ghost use Rattle.drawing.specs.Arrows.{presses};
ghost use Rattle.drawing.specs.Code.{planned, Agrees};
ghost use Rattle.drawing.specs.Facts.{Reliable};
ghost use Rattle.drawing.specs.Written.{text_of, RoundTrip};
ghost use Rattle.drawing.specs.declared.Trouble.TheVariants.{Memory};

use names::Names;
use script::Expected;
use sketch::Sketch;
use std::alloc::{AllocError, AllocFailed as Unplaced, Global};
use written::{name_at, push_arrows, push_line, push_states, push_title};

mod decoded;
mod plan;
mod shown;
mod sketch;
mod written;

pub use decoded::{NoText, decode};
pub use plan::{Arrow, Drawing, MOST_ARROWS, MOST_BUTTONS, MOST_STATES};

// Why a text is refused.
#[derive(Clone, Copy)]
pub enum Reason<'a> {
    Unexpected(Expected, &'a str),
    SecondMachine,
    SecondStart,
    NoStart,
    UnknownStart(&'a str),
    TooManyStates(usize),
    TooManyArrows(usize),
    TooManyButtons(usize),
}

// Why a text is refused, and at which line, counted from 1.
#[derive(Clone, Copy)]
pub struct Refusal<'a> {
    pub line: usize,
    pub reason: Reason<'a>,
}

// What can keep a text from being read.
#[derive(Clone, Copy)]
pub enum Trouble<'a> {
    Refused(Refusal<'a>),
    Memory,
}

// Kept: by hand, since clauses name the error, and a derived From has no contract.
impl<'a> From<AllocError> for Trouble<'a> {
    ghost from_gives = { λ _ r. r ≡ Memory };

    fn from(_e: AllocError) -> Trouble<'a> {
        Trouble::Memory
    }
}

// Kept: by hand, as the one above.
impl<'a, T: Drop> From<Unplaced<T>> for Trouble<'a> {
    ghost from_gives = { λ _ r. r ≡ Memory };

    fn from(_e: Unplaced<T>) -> Trouble<'a> {
        Trouble::Memory
    }
}

impl Drawing {
    // The title, if it has one.
    pub fn title(&self) -> Option<&str>
        ensures { option_map (λ x. x.now) result ≡ (planned self.now).title }
    {
        self.title.as_deref()
    }

    // The states by number.
    pub fn states(&self) -> &Names
        ensures { result.now ≡ self.now.states }
    {
        &self.states
    }

    // The buttons by number.
    pub fn buttons(&self) -> &Names
        ensures { result.now ≡ self.now.buttons }
    {
        &self.buttons
    }

    // The transitions in the order of the text.
    pub fn arrows(&self) -> &[Arrow]
        ensures { result.now ≡ (planned self.now).arrows }
    {
        self.arrows.as_slice()
    }

    // Whether the button can be pressed in the state.
    pub fn can_press(&self, state: usize, button: usize) -> bool
        ensures { result ≡ presses state button (planned self.now).arrows }
    {
        self.arrows
            .iter()
            .any(|a| a.source == state && a.button == button)
    }

    // The number of the state at which it starts.
    pub fn start(&self) -> usize
        ensures { result ≡ self.now.start }
    {
        self.start
    }
}

// The machine that a text draws, or where and why the text is refused.
pub fn parse<'a>(heap: Global, text: &'a str) -> Result<Drawing, Trouble<'a>>
    ensures exact { Agrees result (drawn text.now) }
    ensures facts { Reliable result text.now }
{
    let mut sketch = Sketch::new(heap);
    // Kept: the number of the last line, since it costs a pass over the text to count them again.
    let mut last = 0;
    for (i, line) in text.split('\n').enumerate() {
        last = i + 1;
        sketch.add(heap, last, line)?;
    }
    sketch.finish(heap, last)
}

// The text of a drawing, which draws it again.
// Kept: no Display. A name is written by `push_name`, which appends to a String and may find no memory.
#[tactic(auto, using(crate::proofs::Again::again))]
pub fn print(heap: Global, drawing: &Drawing) -> Result<String, AllocError>
    ensures bytes { IfOk result (λ s. string_bytes s ≡ text_of (planned drawing.now)) }
    ensures again { RoundTrip }
{
    let mut out = String::new(heap);
    push_title(&mut out, drawing.title())?;
    push_line(&mut out, "start ", name_at(&drawing.states, drawing.start))?;
    push_states(&mut out, &drawing.states)?;
    push_arrows(&mut out, drawing)?;
    Ok(out)
}
