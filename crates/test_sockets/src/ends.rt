//! Ends of runs of `attach` without a server that no process shows: an outer terminal that takes bytes and doesn't hand them on, and a
//! read-only instance with a source of acts, which the command line refuses.
use roam_attach::{Attach, Home, Typed, run_attach};
use roam_faults::RunFault;
use roam_outer_terminal::End;
use roam_wire::Version;
use std::fs::write;
use std::io;
use std::io::{ErrorKind, Write};
use std::test::*;

/// An outer terminal that takes bytes and doesn't hand them on.
#[derive(Drop)]
struct Unflushed {}

impl Write for Unflushed {
    fn write(&mut self, buf: &[u8]) -> io::Result<usize> {
        Ok(buf.len())
    }

    fn flush(&mut self) -> io::Result<()> {
        Err(io::Error::from(ErrorKind::BrokenPipe))
    }
}

// Returns a run of three turns without a server.
fn unanswered(typed: Typed<'_>, watches: bool) -> Attach<'_> {
    Attach {
        home: Home::Port(9),
        session: Some(1),
        client: Some(0xC1),
        typed,
        version: Version::Two,
        watches,
        turns: 3,
        painted_to: None,
    }
}

#[test]
fn an_outer_terminal_does_not_flush(rt: HostRuntime) -> Result<(), Fail> {
    write(&rt, "unflushed_acts", b"char 61\nsplit right\n")?;
    let attach = unanswered(Typed::File("unflushed_acts"), false);
    assert_eq!(rt;
        run_attach(&rt, &attach, Unflushed {}),
        Err(RunFault::Write)
    );
    Ok(())
}

/// It reads no file of acts, connects to no socket of acts, and binds no socket of terminals: at one of the paths there is a file.
#[test]
fn a_read_only_instance_takes_no_acts(rt: HostRuntime) -> Result<(), Fail> {
    write(&rt, "no_socket", b"char 61\nsplit right\n")?;
    let sources = [
        Typed::File("no_file"),
        Typed::Socket("no_file"),
        Typed::Terminals("no_socket"),
    ];
    for typed in sources {
        let ended = run_attach(&rt, &unanswered(typed, true), Vec::new(rt.alloc()));
        assert_eq!(rt; ended, Ok(End::Unheard));
    }
    Ok(())
}
