//! The effect of functions on a pending wrap: some clear it, and others leave it to the next character (this project's profile).
//!
//! A row has bytes and the cursor that shows their effect. On a screen of 3 by 8 an X is written in the last column of the first row, then
//! the bytes, then a Y. If the wrap is still pending, Y goes to the second row. Control characters are written as their pictures.
use crate::term_rows::{Other, bytes_of, malformed, other_cursor};
use crate::term_trials::{Trial, other_tried};
use roam_term::Term;
use std::alloc::Global;
use std::test::*;

// Motions, feeds and edits clear it; so do erasures, accepted margins, some modes, another screen, and resets.
const CLEARS: &str = r##"␈|1 8
␉|1 8
␍|1 2
␊|2 8
␋|2 8
␌|2 8
␛D|2 8
␛E|2 2
␛M|1 8
␛[A|1 8
␛[B|2 8
␛[e|2 8
␛[C|1 8
␛[a|1 8
␛[D|1 8
␛[E|2 2
␛[F|1 2
␛[8G|1 8
␛[8`|1 8
␛[1;8H|1 8
␛[1;8f|1 8
␛[d|1 8
␛[I|1 8
␛[Z|1 2
␛[@|1 8
␛[P|1 8
␛[X|1 8
␛[L|1 2
␛[M|1 2
␛[J|1 8
␛[1J|1 8
␛[2J|1 8
␛[K|1 8
␛[1K|1 8
␛[2K|1 8
␛[?J|1 8
␛[?2K|1 8
␛[r|1 2
␛[?6h|1 2
␛[?6l|1 2
␛[?7l|1 8
␛[?47h|1 8
␛[?1047h|1 8
␛[?1049h|1 8
␛#8|1 2
␛c|1 2"##;

// All others leave it; so do shifts, refused and unlisted functions, strings, and a state restored with it; REP uses it.
const LEAVES: &str = r##"␀|2 2
␇|2 2
␎␏|2 2
␚|2 2
␡|2 2
␛H|2 2
␛[g|2 2
␛[3g|2 2
␛[5g|2 2
␛[S|2 2
␛[T|2 2
␛[4l|2 2
␛[20h|2 2
␛[20l|2 2
␛[?1h|2 2
␛[?5h|2 2
␛[?7h|2 2
␛[?25l|2 2
␛[?2004h|2 2
␛[1m|2 2
␛[5n|2 2
␛[c|2 2
␛[>c|2 2
␛[1"q|2 2
␛[!p|2 2
␛7|2 2
␛=|2 2
␛>|2 2
␛(B|2 2
␛n|2 2
␛o|2 2
␛N|2 2
␛O|2 2
␛[3J|2 2
␛[3K|2 2
␛[5z|2 2
␛[3;2r|2 2
␛[?47l|2 2
␛[?1049l|2 2
␛7␍␛8|2 2
␛]0;x␇|2 2
␛X␛\|2 2
␛[b|2 3"##;

/// Returns how the cursor is not there after an X in the last column, some bytes, and a Y.
pub fn other_wrap(alloc: Global, term: &mut Term, bytes: &[u8], wanted: &str) -> Other {
    term.feed(b"\x1B[1;8HX")?;
    term.feed(bytes)?;
    term.feed(b"Y")?;
    other_cursor(alloc, term, wanted)
}

fn other_row(alloc: Global, row: &str) -> Other {
    let Some((spelled, wanted)) = row.split_once('|') else {
        return malformed(alloc);
    };
    let bytes = bytes_of(alloc, spelled)?;
    other_tried(alloc, 3, 8, 0, Trial::Wrap(bytes.as_bytes(), wanted))
}

#[test]
fn what_clears_and_what_leaves_a_pending_wrap(rt: HostRuntime) {
    for row in CLEARS.lines() {
        assert_eq!(rt; other_row(rt.alloc(), row), Ok(None), "{row}");
    }
    for row in LEAVES.lines() {
        assert_eq!(rt; other_row(rt.alloc(), row), Ok(None), "{row}");
    }
}
