//! Why a run ends with status 1.
use roam_cells::Fault;
use thiserror::Error;

/// The reason for which a run of the program failed; its text follows `roam: ` on standard error.
#[derive(Clone, Copy, Debug, PartialEq, Eq, Error)]
pub enum RunFault {
    /// The terminal refused.
    #[error("{0}")]
    Core(Fault),

    /// The input could not be read, or didn't end within the reads that a run makes.
    #[error("read failed")]
    Read,

    /// The output could not be written.
    #[error("write failed")]
    Write,

    /// The line of a script with this number, from 1, says no event, or one out of place.
    #[error("line {0}: bad event")]
    Event(u64),

    /// A port or a socket could not be bound.
    #[error("cannot bind")]
    Bind,

    /// Nobody listens at a server's socket.
    #[error("cannot connect")]
    Connect,

    /// The line of this number, from 1, of a file of acts is no act.
    #[error("line {0}: bad act")]
    Act(u64),
}

impl From<Fault> for RunFault {
    ghost use Rattle.std.specs.Prelude.{◌≡◌};
    ghost use Rattle.roam_faults.specs.declared.faults.RunFault.TheVariants.{Core};

    ghost from_gives = { λ fault e. e ≡ Core fault };

    fn from(fault: Fault) -> RunFault {
        RunFault::Core(fault)
    }
}
