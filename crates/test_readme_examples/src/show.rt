//! A caller of `roam_show`, as its README shows it (`tools/worked_callers`).

// README: begin
use roam_faults::RunFault;
use roam_show::run_show;
use std::alloc::Global;

/// The text that these bytes make on a screen of 24 rows and 80 columns.
pub fn text_of(alloc: Global, bytes: &[u8]) -> Result<Vec<u8>, RunFault> {
    let mut input = bytes;
    let mut out = Vec::new(alloc);
    run_show(alloc, 24, 80, &mut input, &mut out)?;
    Ok(out)
}
// README: end
