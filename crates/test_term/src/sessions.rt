//! Sessions: the effect of acts, bytes and drains on the face and on the queued bytes.
use crate::requests::{does_all, first_wrong, is_same_screen};
use crate::session_memory::made;
use roam_session::Session;
use std::alloc::Global;
use std::test::*;

// The cases of keys have their bytes under DECCKM, DECKPAM and LNM of the pane in focus.
const SESSIONS: &str = r##"A new session has one pane.
4 17
shows
|                 |
|                 |
|                 |
|[1]              |
cursor 1 1 shown
none 0
waits 1 ||
none 2
none 10
none 255

Two panes beside one another.
4 17
split right
bytes 1 ab
bytes 2 cd
shows
|ab      │cd      |
|        │        |
|        │        |
| 1 [2]           |
cursor 1 12 shown
waits 1 ||
waits 2 ||
none 3

The same with a view of the second.
4 17
split right
bytes 1 ab
bytes 2 cd
view 1
shows
|ab      │cd      |
|        │        |
|        │        |
| 1 [2] ^1        |
cursor 1 12 shown

Acts that the layout refuses are done, with no effect.
4 17
bytes 1 ab
split right
too small: split right
too small: split down
no pane: focus 3
bad size: size 3 17
too small: size 4 8
close
last pane: close
shows
|ab               |
|                 |
|                 |
|[1]              |
cursor 1 3 shown
waits 1 ||
none 2

A number that is used again has an empty log, no waiting bytes and no view.
4 17
split right
bytes 2 xyz␛[6n
view 5
close
no pane: bytes 2 x
no pane: drain 2 0
split right
shows
|        │        |
|        │        |
|        │        |
| 1 [2]           |
cursor 1 10 shown
waits 1 ||
waits 2 ||

A view shows rows of the history, and the cursor goes down with the screen.
4 8
bytes 1 1␍␊2␍␊3␍␊4
view 1
shows
|1       |
|2       |
|3       |
|[1] ^1  |
cursor 3 2 hidden

A pane that gets fewer rows keeps its cursor's row, and its terminal answers by its own size.
6 8
bytes 1 1␍␊2␍␊3␍␊4␍␊5
split down
focus 1
bytes 1 ␛[99;99H␛[6n
drain 1 2
shows
|4       |
|5       |
|────────|
|        |
|        |
|[1] 2   |
cursor 2 8 shown
waits 1 |2;8R|
waits 2 ||

Keys go to the pane that then has the focus, behind what its terminal answered.
4 17
bytes 1 ␛[6n
char 61
split right
char 62
next
char 63
drain 1 1
shows
|        │        |
|        │        |
|        │        |
|[1] 2            |
cursor 1 1 shown
waits 1 |[1;1Rac|
waits 2 |b|

Each terminal has its rectangle's size.
24 80
split right
split down
grow 3
bytes 1 ␛[99;99H␛[6n
bytes 2 ␛[99;99H␛[6n
bytes 3 ␛[99;99H␛[6n
close
bytes 2 ␛[99;99H␛[6n
shows
cursor 23 80 shown
waits 1 |␛[23;39R|
waits 2 |␛[8;40R␛[23;40R|
none 3

Modes of the other pane.
4 17
split right
bytes 1 ␛[?1h␛=␛[20h
key up
key pad5
key return
shows
cursor 1 10 shown
waits 1 ||
waits 2 |␛[A5␍|

DECCKM of the pane in focus.
4 17
split right
bytes 2 ␛[?1h
key up
key pad5
key return
shows
cursor 1 10 shown
waits 1 ||
waits 2 |␛OA5␍|

DECKPAM.
4 17
bytes 1 ␛=
key up
key pad5
key return
shows
cursor 1 1 shown
waits 1 |␛[A␛Ou␍|

LNM.
4 17
bytes 1 ␛[20h
key f15
key return
shows
cursor 1 1 shown
waits 1 |␛[28~␍␊|

A number that is used again has another life.
24 80
last pane: close
lives 1 - -
split right
lives 1 1 -
close
lives 1 - -
split down
lives 1 2 -
key up
lives 1 2 -
focus 1
lives 1 2 -
close
lives - 2 -
split right
lives 2 2 -
split right
lives 2 2 1
size 30 90
lives 2 2 1
none 0
none 255

A full queue takes no more, and room for exactly one more byte of its program is enough.
4 8
times 13107 key f20
room 1 1
busy: key up
busy: char 4e2d
char 61
busy: char 61
bytes 1 nothing
busy: bytes 1 a
too long: long 1 a
no pane: long 2 a
drain 1 11
busy: bytes 1 a
drain 1 1
bytes 1 a
length 1 65524

Three rows are refused.
3 80
bad size

201 rows are refused.
201 80
bad size

Seven columns are refused.
24 7
bad size

501 columns are refused.
24 501
bad size

The smallest size.
4 8
shows
extent 4 8

The largest size.
200 500
shows
extent 200 500"##;

#[test]
fn sessions_show_what_was_asked(rt: HostRuntime) {
    assert_eq!(rt; first_wrong(rt.alloc(), SESSIONS), None);
}

/// The lines for nine panes in 24 by 80, the program of each of which writes its number and asks for the cursor.
pub const NINE: &str = "\
split right
split down
split down
focus 1
split down
split down
focus 2
split right
focus 1
split right
focus 3
split right
bytes 1 1␛[6n
bytes 2 2␛[6n
bytes 3 3␛[6n
bytes 4 4␛[6n
bytes 5 5␛[6n
bytes 6 6␛[6n
bytes 7 7␛[6n
bytes 8 8␛[6n
bytes 9 9␛[6n";

// The requests to them: each shows its number at all sizes, and is drained in two parts.
const SIZED: &str = "\
panes full: split down
digits
size 200 500
digits
too small: size 5 8
digits
size 24 80
digits";

const DRAINED: &str = "\
waits 1 |␛[1;2R|
drain 1 2
waits 1 |1;2R|
drain 1 4
waits 1 ||
waits 2 |␛[1;2R|
drain 2 2
waits 2 |1;2R|
drain 2 4
waits 2 ||
waits 3 |␛[1;2R|
drain 3 2
waits 3 |1;2R|
drain 3 4
waits 3 ||
waits 4 |␛[1;2R|
drain 4 2
waits 4 |1;2R|
drain 4 4
waits 4 ||
waits 5 |␛[1;2R|
drain 5 2
waits 5 |1;2R|
drain 5 4
waits 5 ||
waits 6 |␛[1;2R|
drain 6 2
waits 6 |1;2R|
drain 6 4
waits 6 ||
waits 7 |␛[1;2R|
drain 7 2
waits 7 |1;2R|
drain 7 4
waits 7 ||
waits 8 |␛[1;2R|
drain 8 2
waits 8 |1;2R|
drain 8 4
waits 8 ||
waits 9 |␛[1;2R|
drain 9 2
waits 9 |1;2R|
drain 9 4
waits 9 ||";

// Returns true if a session has its first face at the end.
fn goes_up_and_down(alloc: Global, session: &mut Session) -> bool {
    let Ok(first) = session.face(alloc) else {
        return false;
    };
    does_all(alloc, session, SIZED, true)
        && matches!(session.face(alloc), Ok(face) if is_same_screen(&face, &first))
}

fn go_up_and_down_and_are_drained(alloc: Global) -> bool {
    match made(alloc, NINE) {
        Some(mut session) => goes_up_and_down(alloc, &mut session)
            && does_all(alloc, &mut session, DRAINED, true),
        None => false,
    }
}

#[test]
fn nine_panes_go_up_and_down_and_are_drained(rt: HostRuntime) {
    assert!(rt; go_up_and_down_and_are_drained(rt.alloc()));
}
