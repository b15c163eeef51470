// What is drawn while a text is read.
ghost use Rattle.std.specs.Prelude.{◌≡◌, OnOk};
ghost use Rattle.script.specs.Grammar.{reading};
ghost use Rattle.std.specs.Option.{option_map};
ghost use Rattle.drawing.specs.Code.{drafted, why, Numbered, Follows, Begins, Agrees};
ghost use Rattle.drawing.specs.declared.Trouble.TheVariants.{Refused};
ghost use Rattle.drawing.specs.Model.{clear, titled, started, with_state, with_arrow, add, excess, finish};

use crate::plan::{MOST_ARROWS, MOST_BUTTONS, MOST_STATES};
use crate::{Arrow, Drawing, Reason, Refusal, Trouble};
use names::Names;
use script::{Statement, parse_line};
use std::alloc::{AllocError, Global};

impl<'a> Reason<'a> {
    // That a text is refused for this at the line.
    fn at(self, line: usize) -> Trouble<'a>
        ensures { result ≡ Refused (record { line = line; reason = self.entry }) }
    {
        Trouble::Refused(Refusal { line, reason: self })
    }
}

// What the lines so far draw.
// Kept: no impl Model. Contracts speak of `drafted` of a sketch, which the definitions of a drawing are over.
#[derive(Drop)]
pub struct Sketch<'a> {
    pub title: Option<&'a str>,
    pub start: Option<(usize, &'a str)>,
    pub states: Names,
    pub buttons: Names,
    pub arrows: Vec<Arrow>,
}

impl<'a> Sketch<'a> {
    // Nothing is drawn yet.
    pub fn new(heap: Global) -> Sketch<'a>
        ensures { drafted result ≡ clear }
    {
        Sketch {
            title: None,
            start: None,
            states: Names::new(heap),
            buttons: Names::new(heap),
            arrows: Vec::new(heap),
        }
    }

    // The title, of which there is one at most.
    fn entitle(&mut self, line: usize, name: &'a str) -> Result<(), Trouble<'a>>
        ensures { Follows result self.new (titled line (drafted self.old) name.now (drafted self.old).title) }
    {
        if self.title.is_some() {
            return Err(Reason::SecondMachine.at(line));
        }
        self.title = Some(name);
        Ok(())
    }

    // Where the machine starts, which is said once at most.
    // Kept: the shape of `entitle`. A generic function for both and a call in each would be longer than the two.
    fn begin(&mut self, line: usize, name: &'a str) -> Result<(), Trouble<'a>>
        ensures { Follows result self.new (started line (drafted self.old) name.now (drafted self.old).start) }
    {
        if self.start.is_some() {
            return Err(Reason::SecondStart.at(line));
        }
        self.start = Some((line, name));
        Ok(())
    }

    // A state.
    fn mark(&mut self, heap: Global, name: &str) -> Result<(), AllocError>
        ensures { OnOk result (drafted self.new ≡ with_state (drafted self.old) name.now) }
    {
        self.states.note(heap, name)?;
        Ok(())
    }

    // A transition, whose states and button are noted first.
    fn link(
        &mut self,
        heap: Global,
        source: &str,
        button: &str,
        target: &str,
    ) -> Result<(), AllocError>
        ensures { OnOk result (drafted self.new ≡ with_arrow (drafted self.old) source.now button.now target.now) }
    {
        let from = self.states.note(heap, source)?;
        let to = self.states.note(heap, target)?;
        let by = self.buttons.note(heap, button)?;
        self.arrows.push(Arrow {
            source: from,
            button: by,
            target: to,
        })?;
        Ok(())
    }

    // What a line adds.
    pub fn add(&mut self, heap: Global, line: usize, text: &'a str) -> Result<(), Trouble<'a>>
        ensures { Follows result self.new (add line (drafted self.old) (reading text.now)) }
    {
        match parse_line(text) {
            Err(fault) => Err(Reason::Unexpected(fault.expected, fault.found).at(line)),
            Ok(Statement::Blank) => Ok(()),
            Ok(Statement::Machine(name)) => self.entitle(line, name),
            Ok(Statement::Start(name)) => self.begin(line, name),
            Ok(Statement::State(name)) => Ok(self.mark(heap, name)?),
            Ok(Statement::Arrow(source, button, target)) => Ok(self.link(
                heap, source, button, target,
            )?),
        }
    }

    // What there is too much of.
    fn excess(&self) -> Option<Reason<'static>>
        ensures { option_map why result ≡ excess (drafted self.now) }
    {
        if self.states.len() > MOST_STATES {
            return Some(Reason::TooManyStates(self.states.len()));
        }
        if self.arrows.len() > MOST_ARROWS {
            return Some(Reason::TooManyArrows(self.arrows.len()));
        }
        if self.buttons.len() > MOST_BUTTONS {
            return Some(Reason::TooManyButtons(self.buttons.len()));
        }
        None
    }

    // The number of the state at which the machine starts.
    fn start_number(&self, line: usize) -> Result<usize, Trouble<'a>>
        ensures { Begins result line (drafted self.now) }
    {
        let Some((at, name)) = self.start else {
            return Err(Reason::NoStart.at(line));
        };
        self.states
            .number_of(name)
            .ok_or(Reason::UnknownStart(name).at(at))
    }

    // The drawing, after the text's last line.
    pub fn finish(self, heap: Global, line: usize) -> Result<Drawing, Trouble<'a>>
        requires { Numbered (drafted self) }
        ensures { Agrees result (finish line (drafted self.entry)) }
    {
        let start = self.start_number(line)?;
        if let Some(reason) = self.excess() {
            return Err(reason.at(line));
        }
        let title = self
            .title
            .map(|name| String::from_str(heap, name))
            .transpose()?;
        Ok(Drawing {
            title,
            states: self.states,
            buttons: self.buttons,
            arrows: self.arrows,
            start,
        })
    }
}
