//! The messages about the end of a client instance, each on a line of its own.
use crate::attaching::{Attach, Home, Typed};
use mio::net::UnixStream;
use roam_faults::RunFault;
use roam_outer_terminal::End;
use roam_sockets::try_listen;
use std::fs::{self, Files};
use std::io;
use std::net::Net;

// Prints the error at a path and its reason, and returns true if there was one.
fn tell<R: Eprint>(rt: &R, fault: RunFault, path: &str, tried: io::Result<()>) -> bool {
    match tried {
        Ok(()) => false,
        Err(error) => {
            // There is nowhere else to say it.
            let _ = eprintln!(rt; "roam: {fault}: {path}: {error}");
            true
        }
    }
}

// Reads a file once more.
fn try_read<R: Files + AllocGlobal>(rt: &R, path: &str) -> io::Result<()> {
    drop(fs::read(rt, path)?);
    Ok(())
}

// Connects to a socket once more.
fn try_connect(net: &impl Net, path: &str) -> io::Result<()> {
    drop(UnixStream::connect(net, path)?);
    Ok(())
}

// Prints the reason for which the typed acts can't be read, and returns true if they can't.
fn tell_typed<R: Files + Net + Eprint + AllocGlobal>(rt: &R, attach: &Attach<'_>) -> bool {
    match attach.typed {
        _ if attach.watches => false,
        Typed::File(path) => tell(rt, RunFault::Read, path, try_read(rt, path)),
        Typed::Socket(path) => tell(rt, RunFault::Read, path, try_connect(rt, path)),
        Typed::Nothing | Typed::Terminals(_) => false,
    }
}

// Prints the reason for which the session's id can't be read from the server's folder.
fn tell_session<R: Files + Eprint + AllocGlobal>(rt: &R, folder: &str) {
    let Ok(path) = format!(in rt.alloc(); "{folder}/session") else {
        return;
    };
    if !tell(
        rt,
        RunFault::Read,
        path.as_str(),
        try_read(rt, path.as_str()),
    ) {
        let _ = eprintln!(rt; "roam: {}: {path}: no id is in it", RunFault::Read);
    }
}

// Tells why nothing listens for client instances in the server's folder.
fn tell_clients<R: Net + Eprint + AllocGlobal>(rt: &R, folder: &str) {
    if let Ok(path) = format!(in rt.alloc(); "{folder}/clients") {
        tell(
            rt,
            RunFault::Connect,
            path.as_str(),
            try_connect(rt, path.as_str()),
        );
    }
}

/// Prints to standard error the file or socket at which `run_attach` failed, and the reason, after `Bind`, `Connect` or `Read`. It tries
/// each once more.
pub fn tell_failed<R: Files + Net + Eprint + AllocGlobal>(
    rt: &R,
    attach: &Attach<'_>,
    fault: RunFault,
) {
    match (fault, attach.typed, attach.home) {
        (RunFault::Bind, Typed::Terminals(path), _) => {
            tell(rt, fault, path, try_listen(rt, path));
        }
        (RunFault::Connect, _, Home::Folder(folder)) => tell_clients(rt, folder),
        (RunFault::Read, _, home) => {
            if !tell_typed(rt, attach) && attach.session.is_none() {
                if let Home::Folder(folder) = home {
                    tell_session(rt, folder);
                }
            }
        }
        _ => {}
    }
}

/// Prints to standard error, in brackets, how a run ended: it took all its turns, its stream of acts was over, or its server has ended.
pub fn tell_end(rt: &impl Eprint, end: End) {
    // There is nowhere else to say it.
    let _ = eprintln!(rt; "[{end}]");
}
