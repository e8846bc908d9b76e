//! The message of a failed run on standard error, its exit status, and the second line if it is asked for.
ghost use Rattle.std.specs.Prelude.{◌≤◌, length, IfOk};

use roam_cells::Fault;
use roam_cli::asks_why;
use roam_faults::{RunFault, end};
use std::alloc::Global;
use std::cell::Cell;
use std::env::{Env, FillError};
use std::fmt::Display;
use std::io;
use std::process::ExitCode;
use std::test::*;

// The texts of faults.
const FAULTS: &str = "\
bad size
out of memory
read failed
write failed
cannot bind
line 12: bad act
line 12: bad event
line 3: bad event";

fn fault_of(text: &str) -> Option<RunFault> {
    match text {
        "bad size" => Some(RunFault::Core(Fault::BadSize)),
        "out of memory" => Some(RunFault::Core(Fault::OutOfMemory)),
        "read failed" => Some(RunFault::Read),
        "write failed" => Some(RunFault::Write),
        "cannot bind" => Some(RunFault::Bind),
        "line 12: bad act" => Some(RunFault::Act(12)),
        "line 12: bad event" => Some(RunFault::Event(12)),
        "line 3: bad event" => Some(RunFault::Event(3)),
        _ => None,
    }
}

/// A standard error that keeps its last line.
#[derive(Drop)]
struct Ear {
    alloc: Global,
    heard: Cell<Option<String>>,
}

impl Eprint for Ear {
    fn eprint<D: Display + Drop>(&self, _value: D) -> io::Result<()> {
        Ok(())
    }

    fn eprintln<D: Display + Drop>(&self, value: D) -> io::Result<()> {
        self.heard.set(value.to_string(self.alloc).ok());
        Ok(())
    }
}

// Returns the exit status of a run that ends so, and the last line that it prints on standard error.
fn end_of(alloc: Global, ran: Result<(), RunFault>) -> (ExitCode, Option<String>) {
    let ear = Ear {
        alloc,
        heard: Cell::new(None),
    };
    let status = end(&ear, ran);
    (status, ear.heard.into_inner())
}

#[test]
fn a_fault_is_told_with_status_1(rt: HostRuntime) -> Result<(), Fail> {
    for text in FAULTS.lines() {
        match fault_of(text) {
            Some(fault) => {
                let found = fault.to_string(rt.alloc())?;
                assert_eq!(rt; found.as_str(), text);
                let wanted = format!(in rt.alloc(); "roam: {text}")?;
                let (status, line) = end_of(rt.alloc(), Err(fault));
                assert_eq!(rt; line, Some(wanted), "{text}");
                assert!(rt;
                    status == ExitCode::FAILURE,
                    "the status of {text} is not 1"
                );
            }
            None => panic!(rt; "malformed case: {text}"),
        }
    }
    Ok(())
}

#[test]
fn a_run_that_ends_well_says_nothing(rt: HostRuntime) {
    let (status, line) = end_of(rt.alloc(), Ok(()));
    assert_eq!(rt; line, None);
    assert!(rt; status == ExitCode::SUCCESS, "the status is not 0");
}

/// An environment in which ROAM_WHY has this value, or isn't there.
#[derive(Drop)]
struct Surroundings {
    why: Option<&'static str>,
}

// Copies a value to the beginning of a buffer.
fn fill(buf: &mut [u8], value: &str) -> Result<usize, FillError>
    ensures bound { IfOk result (λ n. n ≤ length buf.new) }
{
    let length = value.len();
    if length > buf.len() {
        return Err(FillError::TooLong);
    }
    buf[..length].copy_from_slice(value.as_bytes());
    Ok(length)
}

impl Env for Surroundings {
    fn arg(&self, _i: usize, _buf: &mut [u8]) -> Result<usize, FillError> {
        Err(FillError::NotPresent)
    }

    fn var(&self, name: &str, buf: &mut [u8]) -> Result<usize, FillError> {
        match self.why {
            Some(value) if name == "ROAM_WHY" => fill(buf, value),
            _ => Err(FillError::NotPresent),
        }
    }

    fn var_at(&self, _i: usize, _buf: &mut [u8]) -> Result<usize, FillError> {
        Err(FillError::NotPresent)
    }
}

#[test]
fn more_is_told_where_it_is_asked_for(rt: HostRuntime) {
    let rows = [
        (None, false),
        (Some(""), false),
        (Some("1"), true),
        (Some("a value of more than sixteen bytes"), true),
    ];
    for (why, wanted) in rows {
        assert_eq!(rt; asks_why(&Surroundings { why }), wanted, "{why:?}");
    }
}
