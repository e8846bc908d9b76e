//! Keys: the bytes of each kind under the modes of a terminal, and a full queue.
use crate::term_rows::{Other, malformed};
use crate::term_trials::{Trial, other_tried};
use roam_acts::{Act, Key, read_act};
use roam_cells::Fault;
use roam_term::Term;
use std::alloc::Global;
use std::test::*;

// The input before, the act, and the bytes of its key then; a bar ends each.
const SENT: &str = "\
|key up|\x1B[A|
\x1B[?1h|key left|\x1BOD|
\x1B[?1h\x1B[?1l|key left|\x1B[D|
\x1B[?1h\x1B[!p|key right|\x1B[C|
\x1B[?1h|key pf1|\x1BOP|
|key next|\x1B[6~|
|key f20|\x1B[34~|
|key pad5|5|
\x1B=|key pad5|\x1BOu|
\x1B=\x1B>|key padcomma|,|
\x1B=|key padenter|\x1BOM|
\x1B[20h|key padenter|\r\n|
|key return|\r|
\x1B[20h|key return|\r\n|
|key backspace|\x7F|
\x1B[20h\x1B=\x1B[?1h|char 4e2d|\u{4E2D}";

fn other_waiting(alloc: Global, term: &mut Term, sent: &str) -> Other {
    let mut out = [0; 8];
    let count = term.copy_output(&mut out);
    let found = &out[..count];
    if found == sent.as_bytes() {
        return Ok(None);
    }
    Ok(Some(format!(in alloc; "{:?} in place of {sent:?}", str::from_utf8(found).ok())?))
}

// The input before, the act, and the bytes of a case; `None` if it is malformed.
fn parts_of(case: &str) -> Option<(&str, &str, &str)> {
    let (before, rest) = case.split_once('|')?;
    let (line, sent) = rest.split_once('|')?;
    Some((before, line, sent))
}

/// Returns how a case is not true of a terminal.
pub fn other_key(alloc: Global, term: &mut Term, case: &str) -> Other {
    let Some((before, line, sent)) = parts_of(case) else {
        return malformed(alloc);
    };
    match read_act(line.as_bytes()) {
        Ok(Act::Key(key)) => {
            term.feed(before.as_bytes())?;
            term.key(&key)?;
            other_waiting(alloc, term, sent)
        }
        _ => malformed(alloc),
    }
}

/// A key that doesn't fit is refused: five bytes each, up to the last but one of the queue.
pub fn other_fill(alloc: Global, term: &mut Term) -> Other {
    for _ in 0..13_107 {
        term.key(&Key::F20)?;
    }
    let filled = term.output_len();
    let up = term.key(&Key::Up);
    let first = term.key(&Key::Char('a'));
    let second = term.key(&Key::Char('a'));
    let found = (filled, up, first, second);
    let wanted = (65_535, Err(Fault::Busy), Ok(()), Err(Fault::Busy));
    if found != wanted {
        return Ok(Some(format!(in alloc; "{found:?} in place of {wanted:?}")?));
    }
    let full = term.output_len();
    if full == 65_536 {
        return Ok(None);
    }
    Ok(Some(format!(in alloc; "{full} bytes in place of 65,536")?))
}

#[test]
fn keys_under_their_modes_and_in_a_full_queue(rt: HostRuntime) {
    for case in SENT.split("|\n") {
        assert_eq!(rt;
            other_tried(rt.alloc(), 2, 8, 0, Trial::Sent(case)),
            Ok(None),
            "{case:?}"
        );
    }
    assert_eq!(rt;
        other_tried(rt.alloc(), 2, 8, 0, Trial::FullQueue),
        Ok(None),
        "full"
    );
}
