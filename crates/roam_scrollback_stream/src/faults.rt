//! Why `roam rows` ends with status 1.
ghost use Rattle.std.specs.Prelude.{◌≡◌, IfErr, IfOk};
ghost use Rattle.std.specs.Process.{exit_status};

use roam_cells::Fault;
use std::process::ExitCode;
use thiserror::Error;

/// The error of a run of `roam rows`; standard error has its text behind `roam: `.
#[derive(Clone, Copy, Debug, PartialEq, Eq, Error)]
pub enum RowsFault {
    /// A terminal refused, or there is no memory.
    #[error("{0}")]
    Core(Fault),

    /// The input could not be read.
    #[error("read failed")]
    Read,

    /// The output could not be written.
    #[error("write failed")]
    Write,

    /// The line with this number, from 1, is no record, or one out of place.
    #[error("line {0}: bad record")]
    Record(u64),
}

impl From<Fault> for RowsFault {
    ghost use Rattle.std.specs.Prelude.{◌≡◌};
    ghost use Rattle.roam_scrollback_stream.specs.declared.faults.RowsFault.TheVariants.{Core};

    ghost from_gives = { λ fault e. e ≡ Core fault };

    fn from(fault: Fault) -> RowsFault {
        RowsFault::Core(fault)
    }
}

/// The exit status of a run, 0 or 1; of one that failed, `roam: ` and its fault's text is a line of standard error.
pub fn end_rows(rt: &impl Eprint, ran: Result<(), RowsFault>) -> ExitCode
    ensures ended { IfOk ran (λ _. exit_status result ≡ 0) }
    ensures failed { IfErr ran (λ _. exit_status result ≡ 1) }
{
    match ran {
        Ok(()) => ExitCode::SUCCESS,
        Err(fault) => {
            // There is nowhere else to say that this failed.
            let _ = eprintln!(rt; "roam: {fault}");
            ExitCode::FAILURE
        }
    }
}
