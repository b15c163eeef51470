// How the program is asked to run.
ghost use Rattle.std.specs.Prelude.{◌≡◌, map, Some, string_bytes, codes};
ghost use Rattle.std.specs.Str.{bytes_eq};
ghost use Rattle.query.specs.Chosen.{chosen, chosen_by, default, fault_words, given, room_of};

use crate::plan::{Command, Fault, Options};
use crate::words::number;
use std::fmt;

// Says what was found, and what was expected.
impl fmt::Display for Fault<'_> {
    ghost output = { λ e. Some (fault_words e) };

    fn fmt<W: fmt::Write>(&self, f: &mut fmt::Formatter<W>) -> fmt::Result {
        match *self {
            Fault::Unknown(found) => write!(
                f,
                "found '{found}', expected --lines WORDS, --work WORDS or --help"
            ),
            Fault::NoNumber(option, found) => write!(
                f,
                "found '{found}' after {option}, expected a number below 4294967296"
            ),
            Fault::Nothing(option) => write!(
                f,
                "found nothing after {option}, expected a number below 4294967296"
            ),
        }
    }
}

// What is asked for where no option says otherwise.
impl Default for Options {
    ghost is_default = { λ o. o ≡ default };

    fn default() -> Options {
        Options {
            lines: 1_048_576,
            work: None,
        }
    }
}

// What an option gives room for.
#[derive(Clone, Copy)]
enum Room {
    Lines,
    Work,
}

// What an option gives room for, if it is one that does.
fn room_of(option: &str) -> Option<Room>
    ensures { result ≡ room_of option.now }
{
    match option {
        "--lines" => Some(Room::Lines),
        "--work" => Some(Room::Work),
        _ => None,
    }
}

// The options, with room of one kind as it is given.
fn given(options: Options, room: Room, words: usize) -> Options
    ensures { result ≡ given options room words }
{
    match room {
        Room::Lines => Options {
            lines: words,
            ..options
        },
        Room::Work => Options {
            work: Some(words),
            ..options
        },
    }
}

// What the arguments ask for, or what is wrong with them.
pub fn parse_options(args: &[String]) -> Result<Command, Fault<'_>>
    ensures { chosen_by result ≡ chosen default (map string_bytes args.now) }
{
    let mut options = Options::default();
    let mut rest = args.iter();
    while let Some(option) = rest.next() {
        let option = option.as_str();
        if option == "--help" {
            return Ok(Command::Help);
        }
        let Some(room) = room_of(option) else {
            return Err(Fault::Unknown(option));
        };
        let Some(value) = rest.next() else {
            return Err(Fault::Nothing(option));
        };
        let Some(words) = number(value.as_str()) else {
            return Err(Fault::NoNumber(option, value.as_str()));
        };
        options = given(options, room, words as usize);
    }
    Ok(Command::Answer(options))
}
