// Two drawings side by side, as one question.
#![tactic(auto)]

ghost use Rattle.std.specs.Prelude.{◌≡◌, ℕ, ◌<◌, [], ◌∷◌, ◌++◌, map, length, IfOk, OnOk, Some, slice_index_or};
ghost use Rattle.lts.specs.Question.{transition_words};
ghost use Rattle.drawing.specs.Code.{planned};
ghost use Rattle.names.specs.Numbered.{names};
ghost use Rattle.beside.specs.declared.Trouble.TheVariants.{Memory};
ghost use Rattle.beside.specs.Asks.{Asks, Noting, Movable, Ready, relabelled, no_arrow, both_words};
ghost use Rattle.beside.specs.Shown.{trouble_words};

use drawing::{Arrow, Drawing, MOST_ARROWS, MOST_BUTTONS, MOST_STATES};
use names::Names;
use std::alloc::{AllocError, Global};
use std::fmt;

// Why two drawings are no question: more of something in both than can be compared, or no memory.
// Kept: not drawing's Reason, since it counts both drawings and has other words.
#[derive(Clone, Copy)]
pub enum Trouble {
    TooManyStates(usize),
    TooManyArrows(usize),
    TooManyButtons(usize),
    Memory,
}

// Kept: by hand, since clauses name the error, and a derived From has no contract.
impl From<AllocError> for Trouble {
    ghost from_gives = { λ _ r. r ≡ Memory };

    fn from(_e: AllocError) -> Trouble {
        Trouble::Memory
    }
}

impl fmt::Display for Trouble {
    ghost output = { λ t. Some (trouble_words t) };

    fn fmt<W: fmt::Write>(&self, f: &mut fmt::Formatter<W>) -> fmt::Result {
        match *self {
            Trouble::TooManyStates(n) => write!(
                f,
                "the two drawings together have {n} states; at most 4,096 can be compared"
            ),
            Trouble::TooManyArrows(n) => write!(
                f,
                "the two drawings together have {n} transitions; at most 16,384 can be compared"
            ),
            Trouble::TooManyButtons(n) => write!(
                f,
                "the two drawings together have {n} different buttons; at most 64 can be compared"
            ),
            Trouble::Memory => write!(f, "not enough memory for the two drawings"),
        }
    }
}

// A drawing, and the label of each of its buttons.
#[derive(Drop)]
struct Labelled<'a> {
    drawing: &'a Drawing,
    labels: Vec<usize>,
}

impl<'a> Labelled<'a> {
    // Notes the buttons of a drawing, which gives them their labels.
    fn note(heap: Global, all: &mut Names, drawing: &'a Drawing) -> Result<Labelled<'a>, AllocError>
        ensures of { IfOk result (λ l. l.drawing.now ≡ drawing.now) }
        ensures labels { IfOk result (λ l. Noting (names all.old) (names drawing.now.buttons) (names all.new) l.labels.items) }
    {
        let mut labels = Vec::new(heap);
        for button in drawing.buttons().list() {
            labels.push(all.note(heap, button.as_str())?)?;
        }
        Ok(Labelled { drawing, labels })
    }

    // The words of a transition whose states are numbered on from `shift`.
    fn words(&self, a: Arrow, shift: usize) -> [u32; 3]
        requires { Movable shift self.now.labels.items a }
        ensures { result ≡ transition_words (relabelled shift self.now.labels.items a ∷ []) }
    {
        let source = (shift + a.source) as u32;
        let label = self.labels[a.button] as u32;
        let target = (shift + a.target) as u32;
        [source, label, target]
    }

    // Adds the transitions, in their order.
    #[tactic(auto, using(crate::proofs::Moves::words_more))]
    fn push_arrows(&self, words: &mut Vec<u32>, shift: usize) -> Result<(), AllocError>
        requires { (i : ℕ) → i < length self.now.drawing.now.arrows.items → Movable shift self.now.labels.items (slice_index_or self.now.drawing.now.arrows.items i no_arrow) }
        ensures { OnOk result (words.new.items ≡ words.old.items ++ transition_words (map (relabelled shift self.now.labels.items) self.now.drawing.now.arrows.items)) }
    {
        for a in self.drawing.arrows() {
            words.extend_from_slice(&self.words(*a, shift))?;
        }
        Ok(())
    }
}

// The words of two drawings that are few enough together.
fn words_of(heap: Global, old: &Labelled<'_>, new: &Labelled<'_>) -> Result<Vec<u32>, AllocError>
    requires { Ready (planned old.now.drawing.now) (planned new.now.drawing.now) old.now.labels.items new.now.labels.items }
    ensures { IfOk result (λ v. v.items ≡ both_words (planned old.now.drawing.now) (planned new.now.drawing.now) old.now.labels.items new.now.labels.items) }
{
    let shift = old.drawing.states().len();
    let states = shift + new.drawing.states().len();
    let count = old.drawing.arrows().len() + new.drawing.arrows().len();
    let mut words = Vec::new(heap);
    words.push(states as u32)?;
    words.push(count as u32)?;
    old.push_arrows(&mut words, 0)?;
    new.push_arrows(&mut words, shift)?;
    words.push(old.drawing.start() as u32)?;
    words.push((shift + new.drawing.start()) as u32)?;
    Ok(words)
}

// The question whether two drawings do the same from their starts, as words.
pub fn question(heap: Global, old: &Drawing, new: &Drawing) -> Result<Vec<u32>, Trouble>
    ensures { Asks result (planned old.now) (planned new.now) }
{
    let states = old.states().len() + new.states().len();
    if states > MOST_STATES {
        return Err(Trouble::TooManyStates(states));
    }
    let count = old.arrows().len() + new.arrows().len();
    if count > MOST_ARROWS {
        return Err(Trouble::TooManyArrows(count));
    }
    let mut all = Names::new(heap);
    let old = Labelled::note(heap, &mut all, old)?;
    let new = Labelled::note(heap, &mut all, new)?;
    if all.len() > MOST_BUTTONS {
        return Err(Trouble::TooManyButtons(all.len()));
    }
    Ok(words_of(heap, &old, &new)?)
}
