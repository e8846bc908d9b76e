//! A caller of `roam_terminal_input`, as its README shows it (`tools/worked_callers`).

// README: begin
use roam_acts::Act;
use roam_faults::RunFault;
use roam_terminal_input::acts_of;
use std::alloc::Global;

/// The acts of two lines.
pub fn two_acts(alloc: Global) -> Result<Vec<Act>, RunFault> {
    acts_of(alloc, b"split right\nkey up\n")
}
// README: end
