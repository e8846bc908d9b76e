//! How rows of tables are written and read.
ghost use Rattle.std.specs.Prelude.{◌≡◌};

use roam_cells::Fault;
use roam_cells::shapes::are_same_cells;
use roam_screens::Shot;
use roam_term::Term;
use std::alloc::Global;

// The character of a control picture; any other character is itself.
fn character_of(c: char) -> char {
    match c {
        '\u{2400}'..='\u{2420}' => char::from((c as u32 - 0x2400) as u8),
        '\u{2421}' => '\u{7F}',
        _ => c,
    }
}

/// How a case differs from what is expected of it; `None` if it does not.
pub type Other = Result<Option<String>, Fault>;

/// The difference of a case that is malformed.
pub fn malformed(alloc: Global) -> Other {
    Ok(Some(format!(in alloc; "malformed case")?))
}

/// The bytes of a text with pictures of control characters.
pub fn bytes_of(alloc: Global, spelled: &str) -> Result<String, Fault> {
    let mut bytes = String::new(alloc);
    for c in spelled.chars() {
        bytes.push(character_of(c))?;
    }
    Ok(bytes)
}

/// The numbers of a text such as `2 8`.
pub fn pair(text: &str) -> Option<(u16, u16)> {
    let (first, second) = text.split_once(' ')?;
    match (first.parse::<u16>(), second.parse::<u16>()) {
        (Ok(first), Ok(second)) => Some((first, second)),
        _ => None,
    }
}

// The text of a screen: its rows, each with a bar behind it, and then its cursor such as `2 8 shown`.
fn text_of(alloc: Global, shot: &Shot) -> Result<String, Fault> {
    let mut text = String::new(alloc);
    for row in 0..shot.rows() {
        let points = shot.row_text(alloc, row)?;
        for point in points.iter() {
            text.push(*point)?;
        }
        text.push('|')?;
    }
    let (row, col) = shot.cursor();
    let state = if shot.visible() { "shown" } else { "hidden" };
    let cursor = format!(in alloc; "{row} {col} {state}")?;
    text.push_str(cursor.as_str())?;
    Ok(text)
}

// Returns true if the rows of a view one by one, and its cursor, are those of its screen.
fn is_row_by_row(alloc: Global, term: &Term, view: u16, shot: &Shot) -> Result<bool, Fault>
    requires rows { shot.now.rows ≡ term.now.live.screen.rows }
{
    let mut cells = Vec::new(alloc);
    for row in 0..shot.rows() {
        term.push_row(view, row, &mut cells)?;
    }
    let (cursor, visible) = term.cursor_at(view);
    Ok(are_same_cells(shot.cells(), &cells) && cursor == shot.cursor() && visible == shot.visible())
}

/// Returns how a view does not show the screen of a text, whole and row by row.
pub fn other_shown(alloc: Global, term: &Term, view: u16, wanted: &str) -> Other {
    let shot = term.shot(alloc, view)?;
    let found = text_of(alloc, &shot)?;
    if found.as_str() != wanted {
        return Ok(Some(format!(in alloc; "view {view}: {} in place of {wanted}", found.as_str())?));
    }
    if is_row_by_row(alloc, term, view, &shot)? {
        return Ok(None);
    }
    Ok(Some(format!(in alloc; "view {view}: other rows one by one than at once")?))
}

/// Returns how the cursor is not at a place such as `2 8`.
pub fn other_cursor(alloc: Global, term: &Term, wanted: &str) -> Other {
    let Some(wanted) = pair(wanted) else {
        return malformed(alloc);
    };
    let shot = term.shot(alloc, 0)?;
    let found = shot.cursor();
    if found == wanted {
        return Ok(None);
    }
    Ok(Some(format!(in alloc; "cursor {found:?} in place of {wanted:?}")?))
}
