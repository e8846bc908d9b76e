//! The trials of a terminal. It is made only here: a function that owns one is expensive to prove.
use crate::keys::{other_fill, other_key};
use crate::pieces::{
    other_drawn, other_fed, other_longest, other_nothing, other_queue, other_reverse,
};
use crate::scrollback::{
    other_after, other_inside, other_kept_size, other_oldest, other_thousand, other_whole,
};
use crate::sizes::{Case, other_size};
use crate::term_edges::feed_parts;
use crate::term_rows::{Other, malformed, other_shown};
use crate::wraps::other_wrap;
use roam_cells::Style;
use roam_term::Term;
use std::alloc::Global;

#[derive(Clone, Copy)]
pub enum Trial<'a> {
    /// Bytes in two parts, each in pieces of a size, and the screen after them.
    Pieces(&'a [u8], &'a [u8], usize, &'a str),
    /// Bytes behind an X in the last column, and the cursor after a Y.
    Wrap(&'a [u8], &'a str),
    /// The input before, an act, and the bytes of its key then.
    Sent(&'a str),
    FullQueue,
    /// Steps, and in the last line the screen of a view.
    Steps(u16, &'a str),
    SizeInside,
    FullHistory,
    ThousandSizes,
    RefusedSizes,
    Size(Case),
    /// The input, and the style of a character then.
    Rendition(&'a str, Style),
    /// The input, and true if the first character is in reverse then.
    Reverse(&'a str, bool),
    /// A screen of this size.
    Whole(u16, u16),
    LongestPiece,
    FullAnswers,
    NothingWaits,
    AnyBytes,
}

fn other_of_pieces(alloc: Global, term: &mut Term, trial: Trial<'_>) -> Other {
    match trial {
        Trial::Sent(case) => other_key(alloc, term, case),
        Trial::FullQueue => other_fill(alloc, term),
        Trial::Rendition(before, style) => other_drawn(alloc, term, before, style),
        Trial::Reverse(input, reverse) => other_reverse(alloc, term, input, reverse),
        Trial::Whole(rows, cols) => other_whole(alloc, term, (rows, cols), 0),
        Trial::LongestPiece => other_longest(alloc, term),
        Trial::FullAnswers => other_queue(alloc, term),
        Trial::NothingWaits => other_nothing(alloc, term),
        Trial::AnyBytes => other_fed(alloc, term),
        _ => malformed(alloc),
    }
}

fn other_of(alloc: Global, term: &mut Term, trial: Trial<'_>) -> Other {
    match trial {
        Trial::Pieces(first, rest, size, wanted) => {
            feed_parts(term, first, rest, size)?;
            other_shown(alloc, term, 0, wanted)
        }
        Trial::Wrap(bytes, wanted) => other_wrap(alloc, term, bytes, wanted),
        Trial::Steps(view, steps) => other_after(alloc, term, view, steps),
        Trial::SizeInside => other_inside(alloc, term),
        Trial::FullHistory => other_oldest(alloc, term),
        Trial::ThousandSizes => other_thousand(alloc, term),
        Trial::RefusedSizes => other_kept_size(alloc, term),
        Trial::Size(case) => other_size(alloc, term, case),
        _ => other_of_pieces(alloc, term, trial),
    }
}

/// Returns how a new terminal of these rows, columns and lines does not pass the trial.
pub fn other_tried(alloc: Global, rows: u16, cols: u16, lines: u16, trial: Trial<'_>) -> Other {
    let mut term = Term::new(alloc, rows, cols, lines)?;
    other_of(alloc, &mut term, trial)
}
