// How the run of a program ends it.
#![tactic(auto)]

ghost use Rattle.std.specs.Prelude.{◌≡◌, ◌≢◌, IsOk, IsErr, IsOkAnd, IsErrAnd, Err, MatchResult};
ghost use Rattle.std.specs.Process.{exit_status};
ghost use Rattle.ending.specs.declared.Stop.TheVariants.{Output, Memory};

use std::alloc::AllocError;
use std::fmt::Display;
use std::io;
use std::process::ExitCode;

// Why a run stopped early.
#[derive(Debug, Drop)]
pub enum Stop {
    // what is wrong has been said
    Said,
    // what could not be written or read
    Output(io::Error),
    // the same, where a program tells it apart
    Stream(io::Error),
    Memory,
}

// Kept: by hand, since clauses name the error, and a derived From has no contract.
impl From<io::Error> for Stop {
    ghost from_gives = { λ e r. r ≡ Output e };

    fn from(e: io::Error) -> Stop {
        Stop::Output(e)
    }
}

// Kept: by hand, as the one above.
impl From<AllocError> for Stop {
    ghost from_gives = { λ _ r. r ≡ Memory };

    fn from(_e: AllocError) -> Stop {
        Stop::Memory
    }
}

// Why a run stops once what is wrong was to be written: it has been said, or could not be.
fn stopped(written: io::Result<()>) -> Stop
    ensures { MatchResult written (λ _. result ≡ Stop.Said) (λ e. result ≡ Stop.Output e) }
{
    match written {
        Ok(()) => Stop::Said,
        Err(e) => Stop::from(e),
    }
}

// Says what is wrong, after the program's name, and gives why the run stops: that it has been said, or can't be.
pub fn said(rt: &impl Eprint, program: &str, wrong: impl Display + Drop) -> Stop
    ensures { result ≢ Stop.Memory }
{
    stopped(eprintln!(rt; "{program}: {wrong}"))
}

// How a run ends the program: what has been said is not said again; another error goes to who runs `main`, which prints it.
pub fn ended(run: Result<(), Stop>) -> Result<ExitCode, Stop>
    ensures done { IsOk run → IsOkAnd result (λ c. exit_status c ≡ 0) }
    ensures said { run ≡ Err Stop.Said → IsOkAnd result (λ c. exit_status c ≡ 1) }
    ensures other { IsErr run → run ≢ Err Stop.Said → IsErrAnd result (λ e. run ≡ Err e) }
{
    match run {
        Ok(()) => Ok(ExitCode::SUCCESS),
        Err(Stop::Said) => Ok(ExitCode::FAILURE),
        Err(stop) => Err(stop),
    }
}
