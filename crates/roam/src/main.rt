//! The program `roam`.
//!
//! `roam show --rows R --cols C` feeds standard input to a terminal and prints the screen that it makes.
//! `roam rows` reads records of what many terminals are fed, and prints every row that leaves their screens.
//! `roam world` plays a script from standard input and prints the answer to each of its lines.
//! `roam serve` serves a session whose panes are reached at sockets; `roam attach` follows one and paints it.
#![tactic(auto)]

use roam_attach::{Attach, Home, Typed, run_attach, tell_end, tell_failed};
use roam_cli::{Request, Server, Source, Wire, asked, asks_why, words_of};
use roam_faults::{RunFault, end};
use roam_scrollback_stream::{end_rows, run_rows};
use roam_serve::{Serve, run_serve, tell_unbound};
use roam_show::run_show;
use roam_wire::Version;
use roam_world_run::run_world;
use std::io;
use std::os::fd::RawFd;
use std::process::ExitCode;

/// The descriptor of standard output.
const STANDARD_OUTPUT: RawFd = 1;

fn main(rt: HostRuntime) -> ExitCode {
    let words = match words_of(&rt) {
        Ok(words) => words,
        Err(status) => return status,
    };
    match asked(&rt, words.as_slice()) {
        Ok(request) => run(&rt, request),
        Err(status) => status,
    }
}

// Where acts come from.
fn typed(source: Source<'_>) -> Typed<'_> {
    match source {
        Source::Nothing => Typed::Nothing,
        Source::Keys(path) => Typed::File(path),
        Source::Acts(socket) => Typed::Socket(socket),
        Source::Terminals(socket) => Typed::Terminals(socket),
    }
}

// Where the server is reached.
fn home(server: Server<'_>) -> Home<'_> {
    match server {
        Server::Folder(folder) => Home::Folder(folder),
        Server::Port(port) => Home::Port(port),
    }
}

// The version of the protocol that is spoken.
fn version(wire: Wire) -> Version {
    match wire {
        Wire::One => Version::One,
        Wire::Two => Version::Two,
    }
}

// Serves a session. If a name could not be bound, a second line says why, if that is asked for.
fn serve(rt: &HostRuntime, serve: &Serve<'_>) -> ExitCode {
    let ran = run_serve(rt, serve);
    let status = end(rt, ran);
    if ran == Err(RunFault::Bind) && asks_why(rt) {
        tell_unbound(rt, serve);
    }
    status
}

// Follows a session; if that is asked for, a line says how it ended, or which file or socket was refused and why.
fn attach(rt: &HostRuntime, attach: &Attach<'_>) -> ExitCode {
    let ran = run_attach(rt, attach, io::writer(rt));
    let status = end(rt, ran.map(|_| ()));
    if asks_why(rt) {
        match ran {
            Ok(ended) => tell_end(rt, ended),
            Err(fault) => tell_failed(rt, attach, fault),
        }
    }
    status
}

fn run(rt: &HostRuntime, request: Request<'_>) -> ExitCode {
    match request {
        Request::Show { rows, cols } => {
            let ran = run_show(
                rt.alloc(),
                rows,
                cols,
                &mut rt.reader(),
                &mut io::writer(rt),
            );
            end(rt, ran)
        }
        Request::Rows { normalize } => {
            let ran = run_rows(rt.alloc(), normalize, &mut rt.reader(), &mut io::writer(rt));
            end_rows(rt, ran)
        }
        Request::World => {
            let ran = run_world(rt.alloc(), &mut rt.reader(), &mut io::writer(rt));
            end(rt, ran)
        }
        Request::Serve {
            folder,
            port,
            session,
            turns,
            normalize,
        } => serve(
            rt,
            &Serve {
                folder,
                port,
                session,
                turns,
                normalize,
            },
        ),
        Request::Attach {
            server,
            session,
            client,
            source,
            wire,
            watches,
            turns,
        } => attach(
            rt,
            &Attach {
                home: home(server),
                session,
                client,
                typed: typed(source),
                version: version(wire),
                watches,
                turns,
                painted_to: Some(STANDARD_OUTPUT),
            },
        ),
    }
}
