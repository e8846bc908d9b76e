//! How a run ends: its text on standard error and its exit status.
ghost use Rattle.std.specs.Prelude.{◌≡◌, IfErr, IfOk};
ghost use Rattle.std.specs.Process.{exit_status};

use crate::faults::RunFault;
use std::process::ExitCode;

/// The exit status of a run, 0 or 1; of one that failed, `roam: ` and its fault's text is a line of standard error.
pub fn end(rt: &impl Eprint, ran: Result<(), RunFault>) -> ExitCode
    ensures ended { IfOk ran (λ _. exit_status result ≡ 0) }
    ensures failed { IfErr ran (λ _. exit_status result ≡ 1) }
{
    match ran {
        Ok(()) => ExitCode::SUCCESS,
        Err(fault) => {
            // There is nowhere else to say that this failed.
            let _ = eprintln!(rt; "roam: {fault}");
            ExitCode::FAILURE
        }
    }
}
