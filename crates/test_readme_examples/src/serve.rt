//! A caller of `roam_serve`, as its README shows it (`tools/worked_callers`).

// README: begin
use roam_faults::RunFault;
use roam_serve::{Serve, run_serve};
use std::fs::Files;
use std::net::Net;
use std::random::RandomSource;
use std::time::Clock;

/// Serves a session in a folder of the user's own, for a thousand turns.
pub fn serve_a_while<R: Files + Net + Clock + RandomSource + Eprint + AllocGlobal>(
    rt: &R,
    folder: &str,
) -> Result<(), RunFault> {
    let serve = Serve {
        folder,
        port: None,
        session: None,
        turns: 1000,
        normalize: false,
    };
    run_serve(rt, &serve)
}
// README: end
