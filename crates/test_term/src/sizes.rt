//! Sizes from each to each: the rows that leave, the cut parts, and the cursor, on the main and on the alternate screen.
use crate::term_rows::Other;
use crate::term_trials::{Trial, other_tried};
use roam_cells::Fault;
use roam_screens::Shot;
use roam_term::Term;
use std::alloc::Global;
use std::test::*;

static SIZES: [(u16, u16); 6] = [(2, 4), (2, 8), (3, 5), (4, 8), (5, 12), (4, 4)];

/// A size, the next one, the cursor's row in the first, from 0, and the screen.
#[derive(Clone, Copy)]
pub struct Case {
    old: (u16, u16),
    new: (u16, u16),
    row: u16,
    alternate: bool,
}

impl Case {
    // How many rows leave at the top, so that the cursor's stays.
    fn leaving(&self) -> u16 {
        self.row.saturating_add(1).saturating_sub(self.new.0)
    }

    // The cursor's row afterwards, from 1.
    fn place(&self) -> u16 {
        self.row.saturating_sub(self.leaving()).saturating_add(1)
    }

    // How many of the rows that leave are kept: none on the alternate screen.
    fn kept(&self) -> u16 {
        if self.alternate { 0 } else { self.leaving() }
    }

    // The letter of a row of the old screen, from 0; a space below it.
    fn letter(&self, row: u16) -> u8 {
        if row < self.old.0 {
            match row {
                0 => b'a',
                1 => b'b',
                2 => b'c',
                3 => b'd',
                _ => b'e',
            }
        } else {
            b' '
        }
    }
}

// A control sequence of one number.
fn control(alloc: Global, term: &mut Term, number: u16, end: &[u8]) -> Result<(), Fault> {
    let start = format!(in alloc; "\x1B[{number}")?;
    term.feed(start.as_bytes())?;
    term.feed(end)?;
    Ok(())
}

// Writes a row's letter, and, if columns are cut, a wide character across the edge.
fn lay_row(alloc: Global, term: &mut Term, case: &Case, row: u16) -> Result<(), Fault> {
    control(alloc, term, row.saturating_add(1), b"H")?;
    term.feed(&[case.letter(row)])?;
    if case.new.1 < case.old.1 {
        // from the second column to the last that stays
        control(
            alloc,
            term,
            case.new.1.saturating_sub(2),
            "C\u{4E2D}".as_bytes(),
        )?;
    }
    Ok(())
}

// Each row; then the cursor in its row.
fn lay(alloc: Global, term: &mut Term, case: Case) -> Result<(), Fault> {
    if case.alternate {
        term.feed(b"\x1B[?1047h")?;
    }
    for row in 0..case.old.0 {
        lay_row(alloc, term, &case, row)?;
    }
    control(alloc, term, case.row.saturating_add(1), b"H")
}

// A row that has a letter, or none, and nothing else.
fn has(row: &[char], letter: u8) -> bool {
    row.first() == Some(&(letter as char)) && row.iter().skip(1).all(|c| *c == ' ')
}

// Returns how a screen does not begin with this row of the old screen, with the others behind it.
fn other_rows(alloc: Global, shot: &Shot, case: Case, first: u16) -> Other {
    for row in 0..shot.rows() {
        let letter = case.letter(first.saturating_add(row));
        let text = shot.row_text(alloc, row)?;
        if !has(&text, letter) {
            let wanted = letter as char;
            return Ok(Some(format!(in alloc;
                "row {row}: {:?} in place of {wanted:?}",
                text.as_slice()
            )?));
        }
    }
    Ok(None)
}

// Returns how a view has not the new size, or does not begin with this row of the old screen.
fn other_view(alloc: Global, term: &Term, case: Case, view: u16, first: u16) -> Other {
    let shot = term.shot(alloc, view)?;
    let size = (shot.rows(), shot.cols());
    if size != case.new {
        return Ok(Some(format!(in alloc; "view {view}: {size:?}")?));
    }
    match other_rows(alloc, &shot, case, first)? {
        None => Ok(None),
        Some(other) => Ok(Some(format!(in alloc; "view {view}, {}", other.as_str())?)),
    }
}

// Returns how the cursor's row, from 1, and whether it is visible are not these.
fn other_cursor(alloc: Global, term: &Term, view: u16, row: u16, visible: bool) -> Other {
    let shot = term.shot(alloc, view)?;
    let found = (shot.cursor(), shot.visible());
    let wanted = ((row, 1), visible);
    if found == wanted {
        return Ok(None);
    }
    Ok(Some(format!(in alloc; "view {view}: cursor {found:?} in place of {wanted:?}")?))
}

// The screen after the new size, and its cursor.
fn other_screen(alloc: Global, term: &Term, case: Case) -> Other {
    match other_view(alloc, term, case, 0, case.leaving())? {
        None => other_cursor(alloc, term, 0, case.place(), true),
        other => Ok(other),
    }
}

// A view of all that left, and of one row more.
fn other_left(alloc: Global, term: &Term, case: Case) -> Other {
    let off = case.leaving();
    let first = off.saturating_sub(case.kept());
    match other_view(alloc, term, case, off, first)? {
        None => other_view(alloc, term, case, off.saturating_add(1), first),
        other => Ok(other),
    }
}

// The cursor in the view of all that left.
fn other_moved(alloc: Global, term: &Term, case: Case) -> Other {
    let below = case.place().saturating_add(case.kept());
    let row = below.min(case.new.0);
    other_cursor(alloc, term, case.leaving(), row, below <= case.new.0)
}

/// Returns how a filled terminal does not take the size.
pub fn other_size(alloc: Global, term: &mut Term, case: Case) -> Other {
    lay(alloc, term, case)?;
    term.resize(alloc, case.new.0, case.new.1)?;
    match other_screen(alloc, term, case)? {
        None => match other_left(alloc, term, case)? {
            None => other_moved(alloc, term, case),
            other => Ok(other),
        },
        other => Ok(other),
    }
}

fn other_row(alloc: Global, old: (u16, u16), new: (u16, u16), alternate: bool) -> Other {
    for row in 0..old.0 {
        let case = Case {
            old,
            new,
            row,
            alternate,
        };
        if let Some(other) = other_tried(alloc, old.0, old.1, 500, Trial::Size(case))? {
            return Ok(Some(format!(in alloc; "cursor in row {row}, {}", other.as_str())?));
        }
    }
    Ok(None)
}

#[test]
fn from_each_size_to_each(rt: HostRuntime) {
    for old in SIZES.iter() {
        for new in SIZES.iter() {
            assert_eq!(rt;
                other_row(rt.alloc(), *old, *new, false),
                Ok(None),
                "{old:?} to {new:?}"
            );
            assert_eq!(rt;
                other_row(rt.alloc(), *old, *new, true),
                Ok(None),
                "{old:?} to {new:?}, alternate"
            );
        }
    }
}
