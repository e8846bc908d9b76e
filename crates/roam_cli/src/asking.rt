//! The words of a run and their request. If they are no run, a message is printed, and the run has an exit status.
ghost use Rattle.std.specs.Prelude.{◌≤◌, IfErr};
ghost use Rattle.std.specs.Process.{exit_status};

use crate::words::{Refusal, Request, read_words};
use roam_cells::Fault;
use roam_faults::{RunFault, end};
use std::env;
use std::env::{Env, FillError};
use std::io::ErrorKind;
use std::process::ExitCode;

/// Returns the program's words, its own name first. If the system doesn't give them, prints the reason to standard error and returns the
/// exit status.
pub fn words_of(rt: &HostRuntime) -> Result<Vec<String>, ExitCode>
    ensures refused { IfErr result (λ status. exit_status status ≤ 2) }
{
    match collect_words(rt) {
        Ok(words) => Ok(words),
        Err(refusal) => Err(refuse(rt, refusal)),
    }
}

/// Returns the request of the words, the program's own name first. For a text or a refusal, prints it and returns the exit status: 0 for a
/// text, 2 for a refusal, 1 for `OutOfMemory` or a failed write.
pub fn asked<'a>(rt: &HostRuntime, words: &'a [String]) -> Result<Request<'a>, ExitCode>
    ensures refused { IfErr result (λ status. exit_status status ≤ 2) }
{
    match read_words(rt.alloc(), words) {
        Ok(request) => Ok(request),
        Err(refusal) => Err(refuse(rt, refusal)),
    }
}

/// Returns true if the environment asks for the reason for which a run ended: the variable ROAM_WHY is set and not empty.
pub fn asks_why(env: &impl Env) -> bool {
    match env.var("ROAM_WHY", &mut [0u8; 16]) {
        Ok(length) => length > 0,
        // A value that is longer is none the less there.
        Err(FillError::TooLong) => true,
        Err(FillError::NotPresent) => false,
    }
}

fn collect_words<R: Env + AllocGlobal>(rt: &R) -> Result<Vec<String>, Refusal> {
    let args = match env::args(rt) {
        Ok(args) => args,
        Err(error) if error.kind() == ErrorKind::OutOfMemory => return Err(Refusal::Memory),
        Err(_) => return Err(Refusal::NoText),
    };
    match args.collect(rt.alloc()) {
        Ok(words) => Ok(words),
        Err(_) => Err(Refusal::Memory),
    }
}

// Says why the words ask for nothing, or prints the text that they asked for.
fn refuse(rt: &HostRuntime, refusal: Refusal) -> ExitCode
    ensures status { exit_status result ≤ 2 }
{
    match refusal {
        Refusal::Memory => end(rt, Err(RunFault::Core(Fault::OutOfMemory))),
        Refusal::NoText => {
            // There is nowhere else to say that this failed.
            let _ = eprintln!(rt; "roam: bad words");
            ExitCode::from(2)
        }
        Refusal::BadId => {
            // There is nowhere else to say that this failed.
            let _ = eprintln!(rt; "roam: bad id");
            ExitCode::from(2)
        }
        Refusal::Clap(error) => {
            let code = if error.exit_code() == 0 { 0 } else { 2 };
            match error.print(rt) {
                Ok(()) => ExitCode::from(code),
                Err(_) => end(rt, Err(RunFault::Write)),
            }
        }
    }
}
