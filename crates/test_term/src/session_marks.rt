//! Marks: the rows that may differ from the kept face, and the face made from it.
//!
//! With ample memory nothing is refused here. If one allocation is refused, each face but the last is asked for once more. So
//! `a_byte_marks_its_row_alone` fails once for each growth of the last face, of which one row of a hundred is marked.
use crate::requests::{are_marked, first_wrong, keep};
use roam_cells::Fault;
use roam_session::Session;
use std::alloc::Global;
use std::test::*;

const MARKS: &str = r##"Nothing was asked.
7 17
kept
marked

A character's row, also where it shows what was there; moves and reports mark nothing.
7 17
kept
bytes 1 ␛[3;4H␛[6n
marked

A character's row, where it is a space.
7 17
kept
bytes 1 ␛[3;4H␠
marked 3

The rows between the margins of a pane that stands below another.
7 17
split down
kept
bytes 2 ␛[1;2r␛[S
marked 4 5

One row of each pane.
7 17
split down
kept
bytes 2 ␛[2;2Ha
bytes 1 ␛[2;2Ha
marked 2 5

All rows of a pane whose screen is reversed or switched.
7 17
split down
kept
bytes 1 ␛[?5h
marked 1 2

A switch of screens.
7 17
split down
kept
bytes 2 ␛[?1049h
marked 4 5 6

A pane that is scrolled back, and its status.
7 17
split down
view 1
kept
bytes 2 nothing
marked 4 5 6 7

A view.
7 17
split down
kept
view 1
marked 4 5 6 7

The status alone.
7 17
split down
kept
focus 1
marked 7

The next pane.
7 17
split down
kept
next
marked 7

The panes and borders that come, go or change, and the status.
7 17
split down
kept
split right
marked 4 5 6 7

A close.
7 17
split down
split right
kept
close
marked 4 5 6 7

A border that moves.
7 17
split right
split down
kept
too small: grow 1
grow -1
marked 1 2 3 4 5 6 7

Another size, also where it is the same.
7 17
split down
kept
size 7 17
marked 1 2 3 4 5 6 7

Keys, drains and what is refused.
7 17
kept
char 61
drain 1 1
last pane: close
no pane: bytes 2 a
marked

A face of one marked row shows it.
100 250
kept
bytes 1 ␛[50;1Hab
marked 50
shows
||
||
||
||
||
||
||
||
||
||
||
||
||
||
||
||
||
||
||
||
||
||
||
||
||
||
||
||
||
||
||
||
||
||
||
||
||
||
||
||
||
||
||
||
||
||
||
||
||
|ab|"##;

#[test]
fn named_rows_are_marked(rt: HostRuntime) {
    assert_eq!(rt; first_wrong(rt.alloc(), MARKS), None);
}

// Returns a session of 100 by 250, made once more if memory was refused.
fn large(alloc: Global) -> Result<Session, Fault> {
    match Session::new(alloc, 100, 250) {
        Err(Fault::OutOfMemory) => Session::new(alloc, 100, 250),
        answer => answer,
    }
}

fn is_alone(alloc: Global, session: &mut Session) -> bool {
    keep(alloc, session)
        && session.pane_bytes(1, b"a").is_ok()
        && are_marked(session, "1")
        && session.face(alloc).is_ok()
}

fn marks_its_row_alone(alloc: Global) -> bool {
    match large(alloc) {
        Ok(mut session) => is_alone(alloc, &mut session),
        Err(_) => false,
    }
}

#[test]
fn a_byte_marks_its_row_alone(rt: HostRuntime) {
    assert!(rt; marks_its_row_alone(rt.alloc()));
}
