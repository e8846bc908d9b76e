//! Screens of the texts in tables, and terminals that show them.
use crate::screen;
use roam_cells::{Cell, Fault};
use roam_screens::Shot;
use roam_term::Term;
use std::alloc::Global;

/// How a case differs from what is expected of it; `None` if it does not.
pub type Other = Result<Option<String>, Fault>;

/// The difference of a case that is malformed.
pub fn malformed(alloc: Global) -> Other {
    Ok(Some(format!(in alloc; "malformed case")?))
}

/// Returns the rows, the columns and the input of a text such as `2 8 abc`; `None` if the text is malformed.
pub fn size_and_input(text: &str) -> Option<(u16, u16, &str)> {
    let (rows, rest) = text.split_once(' ')?;
    let (cols, input) = rest.split_once(' ')?;
    match (rows.parse::<u16>(), cols.parse::<u16>()) {
        (Ok(rows), Ok(cols)) => Some((rows, cols, input)),
        _ => None,
    }
}

/// Returns the text behind `before`; `None` if there is none.
pub fn text_behind(text: &[u8]) -> Option<&str> {
    let behind = text.strip_prefix(b"before".as_slice())?;
    str::from_utf8(behind).ok()
}

/// Returns how the text behind `before` differs from the expected one.
pub fn other_text(alloc: Global, text: &[u8], wanted: &str) -> Other {
    let found = text_behind(text);
    if found == Some(wanted) {
        return Ok(None);
    }
    Ok(Some(format!(in alloc; "text {found:?} in place of {wanted:?}")?))
}

// The cell of a place: a blank one outside the screen.
fn cell_at(screen: &Shot, row: u16, col: u16) -> Cell {
    match screen.at(row, col) {
        Some(cell) => cell,
        None => Cell::blank(),
    }
}

fn has_cell(shown: &Shot, screen: &Shot, row: u16, col: u16) -> bool {
    match shown.at(row, col) {
        Some(cell) => cell.is_same(&cell_at(screen, row, col)),
        None => false,
    }
}

// Returns the first place of a terminal's screen that has not the expected cell.
fn first_other_place(shown: &Shot, screen: &Shot) -> Option<(u16, u16)> {
    for row in 1..=shown.rows() {
        for col in 1..=shown.cols() {
            if !has_cell(shown, screen, row, col) {
                return Some((row, col));
            }
        }
    }
    None
}

// Returns the text of the difference at a place.
fn place_text(
    alloc: Global,
    shown: &Shot,
    screen: &Shot,
    place: (u16, u16),
) -> Result<String, Fault> {
    let (row, col) = place;
    let found = cell_at(shown, row, col);
    let wanted = cell_at(screen, row, col);
    let style = if found.style() == wanted.style() {
        "the same style"
    } else {
        "another style"
    };
    let points = found.chars();
    let wanted_points = wanted.chars();
    Ok(format!(in alloc;
        "row {row}, column {col}: {:?} in place of {:?}, {style}",
        points.as_slice(),
        wanted_points.as_slice()
    )?)
}

// Returns how a terminal's screen differs from the expected one, with blanks outside it.
fn other_shown(alloc: Global, shown: &Shot, screen: &Shot) -> Other {
    if let Some(place) = first_other_place(shown, screen) {
        return Ok(Some(place_text(alloc, shown, screen, place)?));
    }
    let found = (shown.cursor(), shown.visible());
    let wanted = (screen.cursor(), screen.visible());
    if found == wanted {
        return Ok(None);
    }
    Ok(Some(format!(in alloc; "cursor {found:?} in place of {wanted:?}")?))
}

/// Returns the screen that such a text makes.
pub fn shown_by(alloc: Global, size_and_input: (u16, u16, &str)) -> Result<Shot, Fault> {
    let (rows, cols, input) = size_and_input;
    screen(alloc, rows, cols, input.as_bytes())
}

/// Returns how a terminal's screen differs from the expected one after a text.
pub fn other_after(alloc: Global, term: &mut Term, text: &[u8], screen: &Shot) -> Other {
    term.feed(text)?;
    let shown = term.shot(alloc, 0)?;
    other_shown(alloc, &shown, screen)
}
