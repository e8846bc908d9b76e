//! Sessions that find no memory: an act is done whole or not at all, and is done once more when there is some.
//!
//! With ample memory nothing is refused here. Where one allocation is refused, what isn't the act itself is asked once more.
ghost use Rattle.std.specs.Prelude.{◌≡◌, IfOk};
ghost use Rattle.roam_session.specs.Stands.{face_now};

use crate::requests::{act, does_all, is_same_screen};
use crate::sessions::NINE;
use roam_cells::Fault;
use roam_screens::RowShot;
use roam_session::Session;
use std::alloc::Global;
use std::test::*;

/// An act, refused or done, and the calls of the session before it.
const CASES: [(&str, &str); 3] = [
    ("split right", "bytes 1 1␛[6n"),
    ("close", "split down\nbytes 1 1␛[6n\nbytes 2 2␛[6n"),
    ("size 40 120", NINE),
];

fn made_once(alloc: Global, lines: &str) -> Option<Session> {
    let mut session = Session::new(alloc, 24, 80).ok()?;
    if does_all(alloc, &mut session, lines, true) {
        Some(session)
    } else {
        None
    }
}

/// Returns a session of 24 by 80 after these lines, made once more if memory was refused.
pub fn made(alloc: Global, lines: &str) -> Option<Session> {
    match made_once(alloc, lines) {
        None => made_once(alloc, lines),
        session => session,
    }
}

/// Returns the face of a session, asked for once more if memory was refused.
pub fn face_of(alloc: Global, session: &Session) -> Result<RowShot, Fault>
    ensures now { IfOk result (λ shot. shot ≡ face_now session.now) }
{
    match session.face(alloc) {
        Err(Fault::OutOfMemory) => session.face(alloc),
        answer => answer,
    }
}

fn shows(alloc: Global, session: &Session, before: &RowShot) -> bool {
    matches!(face_of(alloc, session), Ok(face) if is_same_screen(&face, before))
}

// Does an act, once more if it was refused, and returns true if a refusal left the face as it was.
fn is_whole_or_nothing(alloc: Global, session: &mut Session, line: &str) -> bool {
    let Ok(before) = face_of(alloc, session) else {
        return false;
    };
    act(alloc, session, line).is_ok()
        || shows(alloc, session, &before) && act(alloc, session, line).is_ok()
}

// Returns true if the same bytes are queued in a pane of two sessions.
fn waits_alike(one: &Session, other: &Session, pane: u8) -> bool {
    let mut bytes = [0; 64];
    let mut others = [0; 64];
    let first = one.output(pane, &mut bytes);
    first == other.output(pane, &mut others) && bytes == others
}

fn are_alike(alloc: Global, one: &Session, other: &Session) -> bool {
    for pane in 1..=9 {
        if !waits_alike(one, other, pane) {
            return false;
        }
    }
    matches!(face_of(alloc, other), Ok(face) if shows(alloc, one, &face))
}

// The same of a session that a run without refusal ends with.
fn ends_alike(alloc: Global, session: &Session, line: &str, lines: &str) -> bool {
    match made(alloc, lines) {
        Some(mut other) => is_whole_or_nothing(alloc, &mut other, line)
            && are_alike(alloc, session, &other),
        None => false,
    }
}

fn holds(alloc: Global, line: &str, lines: &str) -> bool {
    match made(alloc, lines) {
        Some(mut session) => is_whole_or_nothing(alloc, &mut session, line)
            && ends_alike(alloc, &session, line, lines),
        None => false,
    }
}

#[test]
fn acts_are_whole_or_nothing(rt: HostRuntime) {
    for (line, lines) in CASES {
        assert!(rt; holds(rt.alloc(), line, lines), "{line}");
    }
}
