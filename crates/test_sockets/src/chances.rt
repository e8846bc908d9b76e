//! How often a run of `roam serve` asks the system for chance. No process shows the id of the server's own instance.
//!
//! Its system is this one, but counts the calls.
use roam_serve::{Serve, run_serve};
use std::alloc::{Alloc, Allocator, Global};
use std::cell::RefCell;
use std::fmt::Display;
use std::fs::{DirBuilder, Files, Metadata, OpenOptions};
use std::io;
use std::io::{Eprint, ErrorKind};
use std::net::{Net, SocketAddr, UdpSocket};
use std::os::fd::{BorrowedFd, OwnedFd};
use std::os::unix::fs::DirBuilderExt;
use std::os::unix::net;
use std::os::unix::net::UnixStream;
use std::random::RandomSource;
use std::test::*;
use std::time::{Clock, Duration};

/// A system with the number of calls for chance.
#[derive(Drop)]
struct Counting<'a> {
    rt: &'a HostRuntime,
    chances: RefCell<u8>,
}

impl<'a> RandomSource for Counting<'a> {
    fn fill_bytes(&self, buf: &mut [u8]) -> io::Result<()> {
        match self.chances.try_borrow_mut() {
            Ok(mut chances) => {
                *chances = chances.saturating_add(1);
                self.rt.fill_bytes(buf)
            }
            Err(_) => Err(io::Error::from(ErrorKind::WouldBlock)),
        }
    }
}

impl<'a> Clock for Counting<'a> {
    fn monotonic(&self) -> io::Result<Duration> {
        self.rt.monotonic()
    }

    fn since_1970(&self) -> io::Result<Duration> {
        self.rt.since_1970()
    }
}

impl<'a> Eprint for Counting<'a> {
    fn eprint<D: Display + Drop>(&self, value: D) -> io::Result<()> {
        self.rt.eprint(value)
    }

    fn eprintln<D: Display + Drop>(&self, value: D) -> io::Result<()> {
        self.rt.eprintln(value)
    }
}

impl<'a> Alloc for Counting<'a> {
    type A = Global;

    fn alloc(&self) -> Global {
        self.rt.alloc()
    }
}

impl<'a> Net for Counting<'a> {
    type Stream = <HostRuntime as Net>::Stream;

    type Listener = <HostRuntime as Net>::Listener;

    fn bind(&self, addr: SocketAddr) -> io::Result<Self::Listener> {
        self.rt.bind(addr)
    }

    fn connect(&self, addr: SocketAddr) -> io::Result<Self::Stream> {
        self.rt.connect(addr)
    }

    fn bind_udp(&self, addr: SocketAddr) -> io::Result<UdpSocket> {
        self.rt.bind_udp(addr)
    }

    fn connect_unix(&self, addr: &net::SocketAddr) -> io::Result<UnixStream> {
        self.rt.connect_unix(addr)
    }

    fn unix_socket(&self) -> io::Result<OwnedFd> {
        self.rt.unix_socket()
    }
}

impl<'a> Files for Counting<'a> {
    type File = <HostRuntime as Files>::File;

    type Dir = <HostRuntime as Files>::Dir;

    fn open_file(&self, how: &OpenOptions, path: &str) -> io::Result<Self::File> {
        self.rt.open_file(how, path)
    }

    fn open_dir(&self, path: &str) -> io::Result<Self::Dir> {
        self.rt.open_dir(path)
    }

    fn metadata(&self, path: &str) -> io::Result<Metadata> {
        self.rt.metadata(path)
    }

    fn symlink_metadata(&self, path: &str) -> io::Result<Metadata> {
        self.rt.symlink_metadata(path)
    }

    fn copy(&self, from: &str, to: &str) -> io::Result<u64> {
        self.rt.copy(from, to)
    }

    fn rename(&self, from: &str, to: &str) -> io::Result<()> {
        self.rt.rename(from, to)
    }

    fn remove_file(&self, path: &str) -> io::Result<()> {
        self.rt.remove_file(path)
    }

    fn create_dir(&self, path: &str) -> io::Result<()> {
        self.rt.create_dir(path)
    }

    fn remove_dir(&self, path: &str) -> io::Result<()> {
        self.rt.remove_dir(path)
    }

    fn remove_dir_all<B: Allocator>(&self, alloc: B, path: &str) -> io::Result<()> {
        self.rt.remove_dir_all(alloc, path)
    }

    fn bind_unix(&self, socket: BorrowedFd<'_>, addr: &net::SocketAddr) -> io::Result<()> {
        self.rt.bind_unix(socket, addr)
    }
}

/// The session's id and that of the closing instance are random.
#[test]
fn both_ids_are_random(rt: HostRuntime) -> Result<(), Fail> {
    DirBuilder::new().mode(0o700).create(&rt, "by_chance")?;
    let system = Counting {
        rt: &rt,
        chances: RefCell::new(0),
    };
    let serve = Serve {
        folder: "by_chance",
        port: None,
        session: None,
        turns: 3,
        normalize: false,
    };
    assert_eq!(rt; run_serve(&system, &serve), Ok(()));
    assert_eq!(rt; system.chances.into_inner(), 2);
    Ok(())
}
