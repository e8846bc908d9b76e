//! A caller of `roam_world_run`, as its README shows it (`tools/worked_callers`).

// README: begin
use roam_faults::RunFault;
use roam_world_run::run_world;
use std::alloc::Global;

/// Returns the output of this script.
pub fn answers(alloc: Global, script: &str) -> Result<Vec<u8>, RunFault> {
    let mut out = Vec::new(alloc);
    run_world(alloc, &mut script.as_bytes(), &mut out)?;
    Ok(out)
}
// README: end
