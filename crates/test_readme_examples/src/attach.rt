//! A caller of `roam_attach`, as its README shows it (`tools/worked_callers`).

// README: begin
use roam_attach::{Attach, Home, Typed, run_attach};
use roam_faults::RunFault;
use roam_outer_terminal::End;
use roam_wire::Version;
use std::fs::Files;
use std::io::Write;
use std::net::Net;
use std::random::RandomSource;
use std::time::Clock;

/// Is the instance of all terminals that connect to a socket, of the session that is served in a folder, for a thousand rounds.
pub fn share_a_while<R: Files + Net + Clock + RandomSource + AllocGlobal, W: Write + Drop>(
    rt: &R,
    folder: &str,
    socket: &str,
    outer: W,
) -> Result<End, RunFault> {
    let attach = Attach {
        home: Home::Folder(folder),
        session: None,
        client: None,
        typed: Typed::Terminals(socket),
        version: Version::Two,
        watches: false,
        turns: 1000,
        painted_to: None,
    };
    run_attach(rt, &attach, outer)
}
// README: end
