//! The requests to sessions, as text, and their results.
//!
//! A case is a name, a session's size, and a line for each request. `bytes PANE TEXT` feeds text (`nothing` for no byte); `long PANE a`
//! feeds 1,025 letters; `drain PANE COUNT` takes at most as many bytes as are queued; any other line is an act; `times COUNT` before one
//! repeats it. A refusal comes before its request, as `no pane: drain 2 0`. `kept` keeps the face, before which all rows are marked.
//!
//! Other lines check the state: `waits PANE |TEXT|`, `room PANE COUNT` and `length PANE COUNT` of its queued bytes; `none PANE`;
//! `generations`, those of the panes from 1 on; `marked`, the marked rows, from 1; `digits`, that each of nine panes shows its number.
//! Behind `shows` follow rows of the face from the first, without the blanks at their ends, the cursor, and its `extent`. A refused size
//! has the refusal in its place. Control characters and spaces at the end are written as their pictures (U+2400 to U+2420).
use crate::session_memory::face_of;
use crate::session_words::{halves, reads_numbers, short, word_of};
use crate::term_rows::bytes_of;
use roam_acts::read_act;
use roam_cells::{Cell, Fault, Style, are_same_cells};
use roam_screens::{RowShot, Seen};
use roam_session::Session;
use std::alloc::Global;

/// Does an act, given as its line.
pub fn act(alloc: Global, session: &mut Session, line: &str) -> Result<(), Fault> {
    let act = read_act(line.as_bytes())?;
    session.act(alloc, 0xA1, &act)
}

// Takes so many bytes that wait, at most all of them.
fn drain(session: &mut Session, pane: u8, count: &str) -> Result<(), Fault> {
    let Ok(count) = count.parse::<usize>() else {
        return Err(Fault::BadAct);
    };
    match session.output_len(pane) {
        Some(len) => session.drain(pane, count.min(len)),
        None => session.drain(pane, count),
    }
}

fn give_text(alloc: Global, session: &mut Session, pane: u8, spelled: &str) -> Result<(), Fault> {
    if spelled == "nothing" {
        return session.pane_bytes(pane, b"");
    }
    let piece = bytes_of(alloc, spelled)?;
    session.pane_bytes(pane, piece.as_bytes())
}

fn answer(alloc: Global, session: &mut Session, words: &str) -> Result<(), Fault> {
    let (verb, rest) = halves(words, " ");
    let (pane, rest) = halves(rest, " ");
    match (verb, pane.parse::<u8>()) {
        ("bytes", Ok(pane)) => give_text(alloc, session, pane, rest),
        ("long", Ok(pane)) => session.pane_bytes(pane, &[b'a'; 1025]),
        ("drain", Ok(pane)) => drain(session, pane, rest),
        _ => act(alloc, session, words),
    }
}

// Returns true if a request is done, or refused as it says.
fn is_asked(alloc: Global, session: &mut Session, line: &str) -> bool {
    let (name, words) = line.split_once(": ").unwrap_or(("", line));
    match answer(alloc, session, words) {
        Ok(()) => name.is_empty(),
        Err(fault) => word_of(fault) == name,
    }
}

fn is_asked_times(alloc: Global, session: &mut Session, words: &str) -> bool {
    let (times, words) = halves(words, " ");
    let Ok(times) = times.parse::<u32>() else {
        return false;
    };
    for _ in 0..times {
        if !is_asked(alloc, session, words) {
            return false;
        }
    }
    true
}

fn waits(session: &Session, pane: u8, bytes: &[u8]) -> bool {
    let mut out = [0; 64];
    session.output(pane, &mut out) == Ok(bytes.len())
        && out.starts_with(bytes)
        && session.output_len(pane) == Some(bytes.len())
        && session.room(pane) == Some(65_536_usize.saturating_sub(bytes.len()))
}

// Returns true if these bytes are queued, `PANE |TEXT|`.
fn waits_by(alloc: Global, session: &Session, words: &str) -> bool {
    if let Some((pane, text)) = words.split_once(" |")
        && let Ok(pane) = pane.parse::<u8>()
        && let Some(text) = text.strip_suffix('|')
        && let Ok(bytes) = bytes_of(alloc, text)
    {
        return waits(session, pane, bytes.as_bytes());
    }
    false
}

// Returns true if there is no such pane, and no queue.
fn is_none(session: &Session, pane: u8) -> bool {
    session.output(pane, &mut [0; 64]) == Err(Fault::NoPane)
        && session.output_len(pane).is_none()
        && session.room(pane).is_none()
        && session.generation(pane).is_none()
}

fn live(session: &Session, words: &str) -> bool {
    for (k, word) in words.split(' ').enumerate() {
        if session.generation((k % 9) as u8 + 1) != word.parse::<u64>().ok() {
            return false;
        }
    }
    true
}

/// Returns true if exactly the rows of these numbers are marked.
pub fn are_marked(session: &Session, rows: &str) -> bool {
    let mut words = rows.split_whitespace();
    for (k, on) in session.marks().iter().enumerate() {
        if *on && words.next().and_then(|word| word.parse::<usize>().ok()) != Some(k + 1) {
            return false;
        }
    }
    words.next().is_none()
}

// How many cells of a face show a digit in the default style.
fn digits(shot: &RowShot, digit: u8) -> usize {
    let cell = Cell::ascii(digit.clamp(b'0', b'9'), Style::default(), false);
    let mut count = 0_usize;
    for row in 0..shot.rows() {
        let here = shot.row(row).iter().filter(|c| c.is_same(&cell)).count();
        count = count.saturating_add(here);
    }
    count
}

fn has_each_digit_once(shot: &RowShot) -> bool {
    for digit in b'1'..=b'9' {
        if digits(shot, digit) != 1 {
            return false;
        }
    }
    true
}

// Returns true if a number of a pane is this one, `PANE COUNT`.
fn has_number(session: &Session, verb: &str, words: &str) -> bool {
    let mut row = [0; 2];
    if !reads_numbers(words, &mut row) {
        return false;
    }
    let pane = row[0].min(255) as u8;
    let number = match verb {
        "room" => session.room(pane),
        _ => session.output_len(pane),
    };
    number == Some(row[1] as usize)
}

// Returns the result of a check, if the verb is one.
fn is_so(alloc: Global, session: &Session, verb: &str, words: &str) -> Option<bool> {
    match verb {
        "waits" => Some(waits_by(alloc, session, words)),
        "none" => Some(matches!(words.parse::<u8>(), Ok(pane) if is_none(session, pane))),
        "lives" => Some(live(session, words)),
        "room" | "length" => Some(has_number(session, verb, words)),
        "marked" => Some(are_marked(session, words)),
        "digits" => Some(matches!(session.face(alloc), Ok(face) if has_each_digit_once(&face))),
        _ => None,
    }
}

/// Returns true if all rows are marked, and keeps the face.
pub fn keep(alloc: Global, session: &mut Session) -> bool {
    let all = session.marks().iter().all(|on| *on);
    match face_of(alloc, session) {
        Ok(face) => session.keep(face),
        Err(_) => return false,
    }
    all
}

fn does(alloc: Global, session: &mut Session, line: &str) -> bool {
    let (verb, words) = halves(line, " ");
    match verb {
        "kept" => keep(alloc, session),
        "times" => is_asked_times(alloc, session, words),
        _ => match is_so(alloc, session, verb, words) {
            Some(so) => so,
            None => is_asked(alloc, session, line),
        },
    }
}

/// Returns true if all lines pass, up to the first that doesn't. If nothing is kept, no marks are checked.
pub fn does_all(alloc: Global, session: &mut Session, lines: &str, keeps: bool) -> bool {
    for line in lines.lines() {
        let is_skipped = !keeps && (line == "kept" || line.starts_with("marked"));
        if !is_skipped && !does(alloc, session, line) {
            return false;
        }
    }
    true
}

// Returns true if a row shows a text, and blanks behind it.
fn is_text(points: &[char], text: &str) -> bool {
    let mut left = points.iter().copied();
    for c in text.chars() {
        if left.next() != Some(c) {
            return false;
        }
    }
    left.all(|c| c == ' ')
}

fn has_row(alloc: Global, shot: &RowShot, row: u16, text: &str) -> bool {
    if shot.rows() <= row {
        return false;
    }
    match shot.row_text(alloc, row) {
        Ok(points) => is_text(&points, text),
        Err(_) => false,
    }
}

fn is_cursor(shot: &RowShot, words: &str) -> bool {
    let wanted = if shot.visible() { "shown" } else { "hidden" };
    if let Some((place, seen)) = words.rsplit_once(' ')
        && let mut row = [0; 2]
        && reads_numbers(place, &mut row)
    {
        return shot.cursor() == (short(row[0]), short(row[1])) && seen == wanted;
    }
    false
}

fn has_extent(shot: &RowShot, words: &str) -> bool {
    let mut row = [0; 2];
    reads_numbers(words, &mut row) && (shot.rows(), shot.cols()) == (short(row[0]), short(row[1]))
}

// Returns true if a line of the face passes: a row of that number, or a check.
fn is_shown(alloc: Global, session: &Session, shot: &RowShot, number: usize, line: &str) -> bool {
    if let Some(text) = line.strip_prefix('|') {
        return match text.strip_suffix('|') {
            Some(text) => has_row(alloc, shot, number.min(500) as u16, text),
            None => false,
        };
    }
    let (verb, words) = halves(line, " ");
    match verb {
        "cursor" => is_cursor(shot, words),
        "extent" => has_extent(shot, words),
        _ => is_so(alloc, session, verb, words) == Some(true),
    }
}

fn all_shown(alloc: Global, session: &Session, shot: &RowShot, lines: &str) -> bool {
    for (number, line) in lines.lines().enumerate() {
        if !is_shown(alloc, session, shot, number, line) {
            return false;
        }
    }
    true
}

/// Returns true if two faces are equal.
pub fn is_same_screen(one: &RowShot, other: &RowShot) -> bool {
    if one.rows() != other.rows() || one.cols() != other.cols() {
        return false;
    }
    for row in 0..one.rows() {
        if !are_same_cells(one.row(row), other.row(row)) {
            return false;
        }
    }
    one.cursor() == other.cursor() && one.visible() == other.visible()
}

fn session_of(alloc: Global, size: &str) -> Result<Session, Fault> {
    let mut row = [0; 2];
    if !reads_numbers(size, &mut row) {
        return Err(Fault::BadAct);
    }
    Session::new(alloc, short(row[0]), short(row[1]))
}

// Returns true if a session that never keeps its face shows the same.
fn is_as_whole(alloc: Global, shot: &RowShot, size: &str, lines: &str) -> bool {
    match session_of(alloc, size) {
        Ok(mut session) => does_all(alloc, &mut session, lines, false)
            && matches!(session.face(alloc), Ok(face) if is_same_screen(&face, shot)),
        Err(_) => false,
    }
}

// Returns true if a case's lines pass, and the face is the expected one then.
fn goes(alloc: Global, session: &mut Session, size: &str, lines: &str, wanted: &str) -> bool {
    if !does_all(alloc, session, lines, true) {
        return false;
    }
    match session.face(alloc) {
        Ok(shot) => all_shown(alloc, session, &shot, wanted)
            && is_as_whole(alloc, &shot, size, lines),
        Err(_) => false,
    }
}

fn plays(alloc: Global, case: &str) -> bool {
    let (head, wanted) = halves(case, "\nshows\n");
    let (_, rest) = halves(head, "\n");
    let (size, lines) = halves(rest, "\n");
    match session_of(alloc, size) {
        Ok(mut session) => goes(alloc, &mut session, size, lines, wanted),
        Err(fault) => lines == word_of(fault),
    }
}

/// The first of these cases, with an empty line between them, that goes otherwise.
pub fn first_wrong<'a>(alloc: Global, cases: &'a str) -> Option<&'a str> {
    for case in cases.split("\n\n") {
        if !plays(alloc, case) {
            return Some(case);
        }
    }
    None
}
