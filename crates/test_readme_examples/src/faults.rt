//! A caller of `roam_faults`, as its README shows it (`tools/worked_callers`).

// README: begin
use roam_cells::Fault;
use roam_faults::{RunFault, end};
use std::process::ExitCode;

/// The screen's size was refused.
pub fn is_bad_size(ran: Result<(), RunFault>) -> bool {
    matches!(ran, Err(RunFault::Core(Fault::BadSize)))
}

/// Prints the error of a run to standard error.
pub fn main_ends(rt: &HostRuntime, ran: Result<(), RunFault>) -> ExitCode {
    end(rt, ran)
}
// README: end
