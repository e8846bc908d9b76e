//! The actions of a program at a socket, as text.
//!
//! `connects PATH` and `leaves`; `writes TEXT`; `types TEXT`, with `/` for LF; `reads TEXT`, exactly that, with `/` for LF; `sees TEXT`: it
//! reads bytes with that text in them; `waits`: it is connected and gets nothing; `is let go`: there are no more bytes for it, or its last
//! bytes were never read; `is let go unread`: its last bytes were never read; `fills N`: it writes so many blanks. `others N PATH`: so many
//! other programs connect there, and stay until `others leave`.
use mio::net::UnixStream;
use std::alloc::Global;
use std::io::{ErrorKind, Read, Write};
use std::str::from_utf8;
use std::test::*;

/// Two programs, if they are connected, and others that do nothing.
#[derive(Drop)]
pub struct Programs {
    first: Option<UnixStream>,
    second: Option<UnixStream>,
    others: Vec<UnixStream>,
}

// Returns true if bytes are this text, with `/` for LF.
fn are(bytes: &[u8], text: &str) -> bool {
    let ends = bytes
        .iter()
        .map(|byte| if *byte == b'\n' { b'/' } else { *byte });
    ends.eq(text.as_bytes().iter().copied())
}

fn reads(program: &mut UnixStream, text: &str) -> bool {
    let mut buf = [0u8; 256];
    match program.read(&mut buf) {
        Ok(count) => are(&buf[..count], text),
        Err(_) => false,
    }
}

// Reads all available bytes, and returns true if a text is in them.
fn sees(program: &mut UnixStream, text: &str) -> bool {
    let mut buf = [0u8; 4096];
    match program.read(&mut buf) {
        Ok(count) => from_utf8(&buf[..count]).is_ok_and(|all| all.contains(text)),
        Err(_) => false,
    }
}

fn waits(program: &mut UnixStream) -> bool {
    match program.read(&mut [0u8; 16]) {
        Ok(_) => false,
        Err(error) => error.kind() == ErrorKind::WouldBlock,
    }
}

// Returns true if a program was disconnected; it reads the end if all of its bytes were read.
fn is_let_go(program: &mut UnixStream, may_be_read: bool) -> bool {
    match program.read(&mut [0u8; 16]) {
        Ok(count) => may_be_read && count == 0,
        Err(error) => error.kind() == ErrorKind::ConnectionReset,
    }
}

fn writes(program: &mut UnixStream, text: &str) -> bool {
    match program.write(text.as_bytes()) {
        Ok(count) => count == text.len(),
        Err(_) => false,
    }
}

// Writes so many blanks.
fn fills(program: &mut UnixStream, count: &str) -> bool {
    let blanks = [b' '; 2048];
    let Ok(count) = count.parse::<usize>() else {
        return false;
    };
    if count > blanks.len() {
        return false;
    }
    match program.write(&blanks[..count]) {
        Ok(went) => went == count,
        Err(_) => false,
    }
}

// Writes a text, with `/` for LF.
fn types(program: &mut UnixStream, text: &str) -> bool {
    for byte in text.as_bytes() {
        let byte = if *byte == b'/' { b'\n' } else { *byte };
        match program.write(&[byte]) {
            Ok(1) => {}
            _ => return false,
        }
    }
    true
}

fn writes_or_reads(program: &mut UnixStream, words: &str) -> bool {
    match words.split_once(' ') {
        Some((verb, text)) => match verb {
            "writes" => writes(program, text),
            "types" => types(program, text),
            "fills" => fills(program, text),
            "reads" => reads(program, text),
            "sees" => sees(program, text),
            _ => false,
        },
        None => false,
    }
}

// Returns true if a connected program does this.
fn is_done(program: &mut UnixStream, words: &str) -> bool {
    match words {
        "waits" => waits(program),
        "is let go" => is_let_go(program, true),
        "is let go unread" => is_let_go(program, false),
        _ => writes_or_reads(program, words),
    }
}

// Returns true if a program does this.
fn is_done_by(rt: &HostRuntime, program: &mut Option<UnixStream>, words: &str) -> bool {
    if words == "leaves" {
        *program = None;
        return true;
    }
    if let Some(path) = words.strip_prefix("connects ") {
        *program = UnixStream::connect(rt, path).ok();
        return program.is_some();
    }
    match program {
        Some(program) => is_done(program, words),
        None => false,
    }
}

impl Programs {
    pub fn new(alloc: Global) -> Programs {
        Programs {
            first: None,
            second: None,
            others: Vec::new(alloc),
        }
    }

    // Another program connects to a path, and stays.
    fn other_connects(&mut self, rt: &HostRuntime, path: &str) -> bool {
        match UnixStream::connect(rt, path) {
            Ok(stream) => self.others.push(stream).is_ok(),
            Err(_) => false,
        }
    }

    // So many others connect to a path, or they all leave.
    fn others_do(&mut self, rt: &HostRuntime, words: &str) -> bool {
        if words == "leave" {
            self.others.clear();
            return true;
        }
        let Some((count, path)) = words.split_once(' ') else {
            return false;
        };
        for _ in 0..count.parse::<u8>().unwrap_or(0) {
            if !self.other_connects(rt, path) {
                return false;
            }
        }
        true
    }

    /// Returns true if the first or the second program, or the others, do this; false for any other name.
    pub fn does(&mut self, rt: &HostRuntime, who: &str, words: &str) -> bool {
        match who {
            "first" => is_done_by(rt, &mut self.first, words),
            "second" => is_done_by(rt, &mut self.second, words),
            "others" => self.others_do(rt, words),
            _ => false,
        }
    }

    /// Returns true if the first program writes this.
    pub fn first_writes(&mut self, text: &str) -> bool {
        match &mut self.first {
            Some(program) => writes(program, text),
            None => false,
        }
    }

    /// Returns true if the first program reads exactly this byte.
    pub fn first_reads(&mut self, byte: u8) -> bool {
        let mut buf = [0u8; 16];
        match &mut self.first {
            Some(program) => match program.read(&mut buf) {
                Ok(count) => count == 1 && buf[0] == byte,
                Err(_) => false,
            },
            None => false,
        }
    }
}
