//! Why a server couldn't be bound, in a line of its own for people.
use crate::serving::Serve;
use roam_sockets::{own_folder, try_listen, try_port};
use std::fs::Files;
use std::net::Net;

/// The sockets of a server's folder, in the order in which they are bound.
static SOCKETS: [&str; 11] = [
    "p1", "p2", "p3", "p4", "p5", "p6", "p7", "p8", "p9", "panes", "clients",
];

// Prints the reason for which a socket of the folder can't be bound, and returns true if it can't.
fn tell_socket<R: Files + Net + Eprint + AllocGlobal>(rt: &R, folder: &str, name: &str) -> bool {
    let Ok(path) = format!(in rt.alloc(); "{folder}/{name}") else {
        return false;
    };
    match try_listen(rt, path.as_str()) {
        Ok(()) => false,
        Err(error) => {
            // There is nowhere else to say it.
            let _ = eprintln!(rt; "roam: cannot bind: {path}: {error}");
            true
        }
    }
}

// Prints the reason for which a port can't be bound, if it can't.
fn tell_port<R: Net + Eprint>(rt: &R, port: u16) {
    if let Err(error) = try_port(rt, port) {
        let _ = eprintln!(rt; "roam: cannot bind: 127.0.0.1:{port}: {error}");
    }
}

/// Prints to standard error the name that `run_serve` couldn't bind, and the reason, after `Bind`. It tries each once more, in order, and
/// leaves none bound.
pub fn tell_unbound<R: Files + Net + Eprint + AllocGlobal>(rt: &R, serve: &Serve<'_>) {
    let folder = serve.folder;
    if let Err(fault) = own_folder(rt, folder, serve.port.is_none()) {
        let _ = eprintln!(rt; "roam: cannot bind: {folder}: {fault}");
        return;
    }
    for name in SOCKETS.iter() {
        if tell_socket(rt, folder, name) {
            return;
        }
    }
    if let Some(port) = serve.port {
        tell_port(rt, port);
    }
}
