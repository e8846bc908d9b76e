//! Control functions at the edges of the screen and of the margins, modes set and reset twice, saved states. Each row is fed whole, byte by
//! byte, and cut at each place. The expected results come from the profile.
//!
//! A row has the bytes, then the three rows of the screen and its cursor. The screen of 3 by 8 was full of letters with the cursor at home.
//! Control characters are written as their pictures (U+2400 to U+2421).
use crate::term_rows::{Other, bytes_of, malformed};
use crate::term_trials::{Trial, other_tried};
use roam_cells::Fault;
use roam_term::Term;
use std::alloc::Global;
use std::test::*;

// Motions at the edges of the screen and of the margins; feeds, lines and scrolls at and outside the margins; edits and erasures within a
// row and the screen; modes set twice and reset twice; saved states, resets and sets.
const ROWS: &str = r##"␈|abcdefgh|ijklmnop|qrstuvwx|1 1 shown
␍|abcdefgh|ijklmnop|qrstuvwx|1 1 shown
␛[2;5H␍|abcdefgh|ijklmnop|qrstuvwx|2 1 shown
␛[2;3r␛[3;2H␛[9A|abcdefgh|ijklmnop|qrstuvwx|2 2 shown
␛[2;3r␛[1;2H␛[9A|abcdefgh|ijklmnop|qrstuvwx|1 2 shown
␛[0A|abcdefgh|ijklmnop|qrstuvwx|1 1 shown
␛[1;2r␛[1;2H␛[9B|abcdefgh|ijklmnop|qrstuvwx|2 2 shown
␛[1;2r␛[3;2H␛[9B|abcdefgh|ijklmnop|qrstuvwx|3 2 shown
␛[1;2r␛[1;2H␛[9999e|abcdefgh|ijklmnop|qrstuvwx|2 2 shown
␛[9C|abcdefgh|ijklmnop|qrstuvwx|1 8 shown
␛[9a|abcdefgh|ijklmnop|qrstuvwx|1 8 shown
␛[1;3H␛[9D|abcdefgh|ijklmnop|qrstuvwx|1 1 shown
␛[1;5H␛[E|abcdefgh|ijklmnop|qrstuvwx|2 1 shown
␛[3;5H␛[9F|abcdefgh|ijklmnop|qrstuvwx|1 1 shown
␛[99G|abcdefgh|ijklmnop|qrstuvwx|1 8 shown
␛[3`|abcdefgh|ijklmnop|qrstuvwx|1 3 shown
␛[99;99H|abcdefgh|ijklmnop|qrstuvwx|3 8 shown
␛[2;3f|abcdefgh|ijklmnop|qrstuvwx|2 3 shown
␛[2;3r␛[?6h␛[9;2H|abcdefgh|ijklmnop|qrstuvwx|3 2 shown
␛[2;3r␛[?6h␛[0;0f|abcdefgh|ijklmnop|qrstuvwx|2 1 shown
␛[2;5H␛[9d|abcdefgh|ijklmnop|qrstuvwx|3 5 shown
␛[2;3r␛[?6h␛[2;5H␛[d|abcdefgh|ijklmnop|qrstuvwx|2 5 shown
␉|abcdefgh|ijklmnop|qrstuvwx|1 8 shown
␛[1;4H␛H␛[H␛[I|abcdefgh|ijklmnop|qrstuvwx|1 4 shown
␛[1;4H␛H␛[H␛[2I|abcdefgh|ijklmnop|qrstuvwx|1 8 shown
␛[1;4H␛H␛[1;6H␛[Z|abcdefgh|ijklmnop|qrstuvwx|1 4 shown
␛[1;4H␛H␛[1;6H␛[9Z|abcdefgh|ijklmnop|qrstuvwx|1 1 shown
␛[1;4H␛H␛[g␛[H␉|abcdefgh|ijklmnop|qrstuvwx|1 8 shown
␛[1;4H␛H␛[3g␛[H␉|abcdefgh|ijklmnop|qrstuvwx|1 8 shown
␛[3;5H␊|ijklmnop|qrstuvwx|        |3 5 shown
␛[2;3H␋|abcdefgh|ijklmnop|qrstuvwx|3 3 shown
␛[2;3H␌|abcdefgh|ijklmnop|qrstuvwx|3 3 shown
␛[1;2r␛[3;4H␛D|abcdefgh|ijklmnop|qrstuvwx|3 4 shown
␛[1;2r␛[2;4H␛D|ijklmnop|        |qrstuvwx|2 4 shown
␛[3;5H␛E|ijklmnop|qrstuvwx|        |3 1 shown
␛[2;3r␛[2;4H␛M|abcdefgh|        |ijklmnop|2 4 shown
␛[2;3r␛[1;4H␛M|abcdefgh|ijklmnop|qrstuvwx|1 4 shown
␛[3;4H␛M|abcdefgh|ijklmnop|qrstuvwx|2 4 shown
␛[1;2r␛[2;4H␛[9L|abcdefgh|        |qrstuvwx|2 1 shown
␛[1;2r␛[3;4H␛[L|abcdefgh|ijklmnop|qrstuvwx|3 4 shown
␛[2;3r␛[2;4H␛[L|abcdefgh|        |ijklmnop|2 1 shown
␛[2;4H␛[M|abcdefgh|qrstuvwx|        |2 1 shown
␛[1;2r␛[3;4H␛[9M|abcdefgh|ijklmnop|qrstuvwx|3 4 shown
␛[9S|        |        |        |1 1 shown
␛[2;3r␛[1;4H␛[S|abcdefgh|qrstuvwx|        |1 4 shown
␛[2T|        |        |abcdefgh|1 1 shown
␛[1;2r␛[3;4H␛[9T|        |        |qrstuvwx|3 4 shown
␛[2;3H␛[3;2r|abcdefgh|ijklmnop|qrstuvwx|2 3 shown
␛[2;3H␛[0;99r|abcdefgh|ijklmnop|qrstuvwx|1 1 shown
␛[2;3H␛[2;2r|abcdefgh|ijklmnop|qrstuvwx|2 3 shown
␛[2;3r␛#8|EEEEEEEE|EEEEEEEE|EEEEEEEE|1 1 shown
␛[2;3r␛#8␛[3;1H␊|EEEEEEEE|EEEEEEEE|        |3 1 shown
␛[2;3r␛[1;8HX␛[LY|abcdefgY|ijklmnop|qrstuvwx|1 8 shown
␛[2;3r␛[1;8HX␛[MY|abcdefgY|ijklmnop|qrstuvwx|1 8 shown
␛[1;8H␛[9@|abcdefg |ijklmnop|qrstuvwx|1 8 shown
␛[1;7H␛[@|abcdef g|ijklmnop|qrstuvwx|1 7 shown
␛[1;7H␛[9P|abcdef  |ijklmnop|qrstuvwx|1 7 shown
␛[P|bcdefgh |ijklmnop|qrstuvwx|1 1 shown
␛[1;7H␛[9999X|abcdef  |ijklmnop|qrstuvwx|1 7 shown
␛[0X| bcdefgh|ijklmnop|qrstuvwx|1 1 shown
␛[2;3H␛[J|abcdefgh|ij      |        |2 3 shown
␛[2;3H␛[1J|        |   lmnop|qrstuvwx|2 3 shown
␛[2;3H␛[2J|        |        |        |2 3 shown
␛[2;3H␛[3J|abcdefgh|ijklmnop|qrstuvwx|2 3 shown
␛[1;8H␛[K|abcdefg |ijklmnop|qrstuvwx|1 8 shown
␛[1K| bcdefgh|ijklmnop|qrstuvwx|1 1 shown
␛[3;8H␛[2K|abcdefgh|ijklmnop|        |3 8 shown
␛[1"qAB␛["q␛[?2J|AB      |        |        |1 3 shown
␛[1"qAB␛[2"q␛[?1K|AB defgh|ijklmnop|qrstuvwx|1 3 shown
␛[1"qAB␛[0"q␛[?J|AB      |        |        |1 3 shown
␛[1"qAB␛[2K|        |ijklmnop|qrstuvwx|1 3 shown
␛[1;6Hz␛[9b|abcdezzz|zzzzzzzp|qrstuvwx|2 8 shown
z␍␛[3b|zbcdefgh|ijklmnop|qrstuvwx|1 1 shown
z␛[5z␛[3b|zbcdefgh|ijklmnop|qrstuvwx|1 2 shown
␛[3b|abcdefgh|ijklmnop|qrstuvwx|1 1 shown
␛[4hZ|Zabcdefg|ijklmnop|qrstuvwx|1 2 shown
␛[4h␛[1;8HZ|abcdefgZ|ijklmnop|qrstuvwx|1 8 shown
␛[4h␛[4hZ␛[4l␛[4lY|ZYbcdefg|ijklmnop|qrstuvwx|1 3 shown
␛[20h␛[20h␛[1;4H␊|abcdefgh|ijklmnop|qrstuvwx|2 1 shown
␛[20h␛[20l␛[20l␛[1;4H␊|abcdefgh|ijklmnop|qrstuvwx|2 4 shown
␛[?1h␛[?1h␛[?1l␛[?1l|abcdefgh|ijklmnop|qrstuvwx|1 1 shown
␛[?5h␛[?5h␛[?5l␛[?5l|abcdefgh|ijklmnop|qrstuvwx|1 1 shown
␛[2;3r␛[?6h␛[2;3H␛[?6h|abcdefgh|ijklmnop|qrstuvwx|2 1 shown
␛[2;3r␛[?6h␛[2;3H␛[?6l|abcdefgh|ijklmnop|qrstuvwx|1 1 shown
␛[?6l␛[2;3H␛[?6l|abcdefgh|ijklmnop|qrstuvwx|1 1 shown
␛[?7l␛[?7l␛[1;8HXY|abcdefgY|ijklmnop|qrstuvwx|1 8 shown
␛[?7l␛[?7h␛[?7h␛[1;8HXY|abcdefgX|Yjklmnop|qrstuvwx|2 2 shown
␛[?25l␛[?25l|abcdefgh|ijklmnop|qrstuvwx|1 1 hidden
␛[?25l␛[?25h␛[?25h|abcdefgh|ijklmnop|qrstuvwx|1 1 shown
␛[?2004h␛[?2004h␛[?2004l␛[?2004l|abcdefgh|ijklmnop|qrstuvwx|1 1 shown
␛[4;20hZ␊|Zabcdefg|ijklmnop|qrstuvwx|2 1 shown
␛[?7;25l␛[1;8HXY|abcdefgY|ijklmnop|qrstuvwx|1 8 hidden
␛[?4hZ|Zbcdefgh|ijklmnop|qrstuvwx|1 2 shown
␛=␛=␛>␛>|abcdefgh|ijklmnop|qrstuvwx|1 1 shown
␛[2;3H␛[?47h␛[?47h|        |        |        |2 3 shown
␛[2;3H␛[?47hZ␛[?47l␛[?47l|abcdefgh|ijklmnop|qrstuvwx|2 4 shown
␛[?47hZ␛[?47l␛[?47h|Z       |        |        |1 2 shown
␛[?1047hZ␛[?1047h|Z       |        |        |1 2 shown
␛[?1047hZ␛[?1047l␛[?1047l␛[?47h|        |        |        |1 2 shown
␛[2;3H␛[?1049h|        |        |        |2 3 shown
␛[2;3H␛[?1049h␛[Hxyz␛[?1049l|abcdefgh|ijklmnop|qrstuvwx|2 3 shown
␛[?1049hZ␛[?1049h|Z       |        |        |1 2 shown
␛[2;3H␛[?1049l|abcdefgh|ijklmnop|qrstuvwx|2 3 shown
␛[2;3H␛8|abcdefgh|ijklmnop|qrstuvwx|1 1 shown
␛[2;3H␛7␛[H␛8|abcdefgh|ijklmnop|qrstuvwx|2 3 shown
␛[2;3H␛7␛[?47h␛8|        |        |        |1 1 shown
␛[2;3H␛7␛[?47h␛[3;5H␛7␛[?47l␛8|abcdefgh|ijklmnop|qrstuvwx|2 3 shown
␛[2;3H␛7␛[?47h␛[3;5H␛7␛[?47l␛[?47h␛8|        |        |        |3 5 shown
␛[1"q␛7␛[0"q␛8A␛[?2K|A       |ijklmnop|qrstuvwx|1 2 shown
␛[2;3r␛[?6h␛7␛[?6l␛8␛[9;1H|abcdefgh|ijklmnop|qrstuvwx|3 1 shown
␛[4h␛[2;3r␛[2;3H␛[!pZ|abcdefgh|ijZlmnop|qrstuvwx|2 4 shown
␛[2;3r␛[3;1H␛[!p␊|ijklmnop|qrstuvwx|        |3 1 shown
␛[?25l␛[!p|abcdefgh|ijklmnop|qrstuvwx|1 1 shown
␛[2;3H␛7␛[!p␛8|abcdefgh|ijklmnop|qrstuvwx|1 1 shown
␛[2;3H␛[4h␛[?25l␛c|        |        |        |1 1 shown
␛[?47hZ␛c␛[?47h|        |        |        |1 1 shown
␛)0␎q␏q|─qcdefgh|ijklmnop|qrstuvwx|1 3 shown
␛*0␛Nqq|─qcdefgh|ijklmnop|qrstuvwx|1 3 shown
␛+0␛Oqq|─qcdefgh|ijklmnop|qrstuvwx|1 3 shown
␛*0␛nq␏q|─qcdefgh|ijklmnop|qrstuvwx|1 3 shown
␛+0␛oq␏q|─qcdefgh|ijklmnop|qrstuvwx|1 3 shown
␛(A#␛(B#|£#cdefgh|ijklmnop|qrstuvwx|1 3 shown
␛(0_␛(B_| _cdefgh|ijklmnop|qrstuvwx|1 3 shown
␇␀␚␡|abcdefgh|ijklmnop|qrstuvwx|1 1 shown
␛[38;5mZ|Zbcdefgh|ijklmnop|qrstuvwx|1 2 shown"##;

fn feed_pieces(term: &mut Term, bytes: &[u8], size: usize) -> Result<(), Fault> {
    for piece in bytes.chunks(size.max(1)) {
        term.feed(piece)?;
    }
    Ok(())
}

/// Feeds letters for every cell, and then bytes in two parts, each in pieces of a size.
pub fn feed_parts(term: &mut Term, first: &[u8], rest: &[u8], size: usize) -> Result<(), Fault> {
    term.feed(b"abcdefghijklmnopqrstuvwx\x1B[H")?;
    feed_pieces(term, first, size)?;
    feed_pieces(term, rest, size)
}

fn other_cut_at(alloc: Global, bytes: &[u8], place: usize, wanted: &str) -> Other {
    let (first, rest) = bytes.split_at(place.min(bytes.len()));
    other_tried(alloc, 3, 8, 0, Trial::Pieces(first, rest, 1024, wanted))
}

// Returns how bytes do not lead to a screen, fed byte by byte, whole, and cut at each place.
fn other_left(alloc: Global, bytes: &[u8], wanted: &str) -> Other {
    for place in 0..bytes.len() {
        if let Some(other) = other_cut_at(alloc, bytes, place, wanted)? {
            return Ok(Some(format!(in alloc; "cut at {place}, {}", other.as_str())?));
        }
    }
    other_tried(alloc, 3, 8, 0, Trial::Pieces(bytes, b"", 1, wanted))
}

fn other_row(alloc: Global, row: &str) -> Other {
    let Some((spelled, wanted)) = row.split_once('|') else {
        return malformed(alloc);
    };
    let bytes = bytes_of(alloc, spelled)?;
    other_left(alloc, bytes.as_bytes(), wanted)
}

#[test]
fn rows_of_the_profile(rt: HostRuntime) {
    for row in ROWS.lines() {
        assert_eq!(rt; other_row(rt.alloc(), row), Ok(None), "{row}");
    }
}
