//! Places in text: rows and columns, and lines and cells of them.
ghost use Rattle.std.specs.Prelude.{◌≡◌, ◌+◌, ◌==◌, false, IfNone, IfSome, if◌then◌else◌};
ghost use Rattle.roam_rewrap.specs.Windows.{IsOver, LeavesRange, LeavesRangeAt, is_behind, is_here, place_of, position_after, position_at, position_behind, position_from, start_position};

use crate::rows::Row;

/// A row and a column, both from 0.
#[derive(Clone, Copy)]
pub struct ScreenPosition {
    pub row: usize,
    pub col: usize,
}

/// A line, from 0, and how many of its cells come before.
#[derive(Clone, Copy)]
pub struct TextPosition {
    pub line: usize,
    pub cell: usize,
}

// The position of the first column of the row behind one.
fn position_after(position: TextPosition, row: &Row) -> Option<TextPosition>
    ensures after { IfSome result (λ after. after ≡ position_after position row.now) }
    ensures none { IfNone result (IsOver (position_after position row.now)) }
{
    if row.goes_on() {
        return Some(TextPosition {
            line: position.line,
            cell: position.cell.checked_add(row.cells().len())?,
        });
    }
    Some(TextPosition {
        line: position.line.checked_add(1)?,
        cell: 0,
    })
}

// The same while rows are left, else the position as it is.
fn position_within(left: usize, position: TextPosition, row: &Row) -> Option<TextPosition>
    ensures within { IfSome result (λ within. within ≡ (if left == 0 then position else position_after position row.now)) }
    ensures none { IfNone result (((left == 0) ≡ false) × IsOver (position_after position row.now)) }
{
    if left == 0 {
        return Some(position);
    }
    position_after(position, row)
}

// The position of the first column of a row.
fn start_of(rows: &[Row], row: usize) -> Option<TextPosition>
    ensures position { IfSome result (λ position. position ≡ position_from start_position row rows.now) }
    ensures none { IfNone result (LeavesRange start_position row rows.now) }
{
    let mut position = TextPosition { line: 0, cell: 0 };
    let mut left = row;
    for one in rows {
        position = position_within(left, position, one)?;
        left = left.saturating_sub(1);
    }
    Some(position)
}

/// Returns the position of a row and a column of rows; `None` if it is out of range.
#[tactic(auto, unfolding(crate::specs::Windows::position_at))]
fn position_at(rows: &[Row], at: ScreenPosition) -> Option<TextPosition>
    ensures position { IfSome result (λ position. position ≡ position_at rows.now at) }
    ensures none { IfNone result (LeavesRangeAt rows.now at) }
{
    let start = start_of(rows, at.row)?;
    Some(TextPosition {
        line: start.line,
        cell: start.cell.checked_add(at.col)?,
    })
}

// Returns true if a position is behind all cells of a row of its line that goes on.
fn is_behind(position: TextPosition, row: &Row) -> bool
    ensures behind { result ≡ is_behind position row.now }
{
    row.goes_on() && row.cells().len() <= position.cell
}

// Returns the rest of a position behind a row.
fn position_behind(position: TextPosition, row: &Row) -> TextPosition
    ensures behind { result ≡ position_behind position row.now }
{
    if position.line == 0 {
        return TextPosition {
            line: 0,
            cell: position.cell.saturating_sub(row.cells().len()),
        };
    }
    if row.goes_on() {
        return position;
    }
    TextPosition {
        line: position.line - 1,
        cell: position.cell,
    }
}

// Returns true if a position is in a row.
fn is_here(position: TextPosition, row: &Row) -> bool
    ensures here { result ≡ is_here position row.now }
{
    position.line == 0 && !is_behind(position, row)
}

/// Where a position is in rows.
#[tactic(auto, using(crate::proofs::Positions::place_here, crate::proofs::Positions::place_below))]
fn place_of(rows: &[Row], position: TextPosition) -> ScreenPosition
    ensures row { result.row ≡ (place_of position rows.now).row }
    ensures col { result.col ≡ (place_of position rows.now).col }
{
    let mut left = position;
    let mut above = 0;
    for row in rows {
        if is_here(left, row) {
            return ScreenPosition {
                row: above,
                col: left.cell,
            };
        }
        left = position_behind(left, row);
        above += 1;
    }
    ScreenPosition {
        row: above,
        col: left.cell,
    }
}

/// Returns the place of a text's position in its rows at another width; `None` if 64 bits do not hold its line or its cells.
pub fn placed(all: &[Row], text: &[Row], at: ScreenPosition) -> Option<ScreenPosition>
    ensures place { IfSome result (λ place. place ≡ place_of (position_at text.now at) all.now) }
    ensures none { IfNone result (LeavesRangeAt text.now at) }
{
    let position = position_at(text, at)?;
    Some(place_of(all, position))
}
