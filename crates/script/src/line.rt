// The parts of a line after its first word.
ghost use Rattle.std.specs.Prelude.{◌≡◌, ℕ, List};
ghost use Rattle.script.specs.Grammar.{Stated, ended, keyed, last, meaning, named, past_colon, skip};
ghost use Rattle.script.specs.Words.{ending};

use crate::word::{Word, first_word, skip_gap};
use crate::{Expected, Fault, Statement};

// Nothing is left but a comment.
pub fn is_ended(text: &str) -> bool
    ensures { result ≡ ended text.now }
{
    text.is_empty() || text.starts_with('#')
}

// A last name, and nothing more.
fn last_name(text: &str) -> Result<&str, Fault<'_>>
    ensures { (f : List ℕ → Stated) → ending f result ≡ last f (named text.now) }
{
    let word = first_word(text)?;
    let left = skip_gap(word.rest);
    if !is_ended(left) {
        return Err(Expected::End.at(left));
    }
    Ok(word.name)
}

// The button, the sign and the target of an arrow.
pub fn arrow_from<'a>(state: &'a str, text: &'a str) -> Result<Statement<'a>, Fault<'a>>
    ensures { meaning result ≡ past_colon state.now (named (skip text.now)) }
{
    let button = first_word(skip_gap(text))?;
    let at = skip_gap(button.rest);
    let Some(target) = at.strip_prefix("->") else {
        return Err(Expected::Sign.at(at));
    };
    Ok(Statement::Arrow(state, button.name, last_name(skip_gap(target))?))
}

// What machine, start or state says of the name at `at`.
pub fn keyed_name<'a>(first: Word<'a>, at: &'a str) -> Result<Statement<'a>, Fault<'a>>
    ensures { meaning result ≡ keyed first.entry.quoted first.entry.name.now at.now }
{
    if first.quoted {
        return Err(Expected::Colon.at(at));
    }
    match first.name {
        "machine" => Ok(Statement::Machine(last_name(at)?)),
        "start" => Ok(Statement::Start(last_name(at)?)),
        "state" => Ok(Statement::State(last_name(at)?)),
        _ => Err(Expected::Colon.at(at)),
    }
}
