//! The wish of a line about the part to show on an outer terminal.
ghost use Rattle.std.specs.Prelude.{◌≡◌, ◌++◌, ◌∷◌, ◌≢◌, None, Some, IfSome, IsTrue, ◌↔◌, codes};
ghost use Rattle.roam_terminal_input.specs.ReadShowings.{pair_in, pair_of, part_in, short_in};
ghost use Rattle.roam_terminal_input.specs.Showings.{HasMaskSize, IsShowing, showing_text};
ghost use Rattle.roam_terminal_input.specs.declared.showings.Showing.{Showing as ShowingOf};

use roam_cells::limits::{MOST_COLUMNS, MOST_ROWS, is_size};
use roam_tokens::{first_word, number};
use roam_viewport::Part;

/// The part to show on an outer terminal.
#[derive(Clone, Copy, Debug, PartialEq, Eq)]
pub enum Showing {
    /// The whole screen.
    Whole,

    /// This part of the screen.
    Exactly(Part),

    /// So many rows and columns of the screen, with the cursor.
    Following(u16, u16),

    /// The cells of this part of the terminal are left as they are.
    Mask(Part),

    /// No cells are left as they are.
    Unmask,
}

// The number of 16 bits that a text writes.
fn short(text: &[u8]) -> Option<u16>
    ensures number { result ≡ short_in text.now }
{
    Some(number(text, 65_535)? as u16)
}

// The numbers that two texts write.
fn pair_of(first: &[u8], second: &[u8]) -> Option<(u16, u16)>
    ensures pair { result ≡ pair_of (short_in first.now) (short_in second.now) }
{
    Some((short(first)?, short(second)?))
}

// Two numbers, a space between them.
fn pair(text: &[u8]) -> Option<(u16, u16)>
    ensures pair { result ≡ pair_in text.now }
{
    let (first, second) = first_word(text)?;
    pair_of(first, second)
}

// A part: its first row and column, and how many it has.
fn part(text: &[u8]) -> Option<Part>
    ensures part { result ≡ part_in text.now }
{
    let (row, rest) = first_word(text)?;
    let (col, size) = first_word(rest)?;
    let (row, col) = pair_of(row, col)?;
    let (rows, cols) = pair(size)?;
    Some(Part {
        row,
        col,
        rows,
        cols,
    })
}

// Returns true if a part has at least a row and a column, and no more than a screen.
fn is_mask(part: Part) -> bool
    ensures mask { IsTrue result ↔ HasMaskSize part }
{
    1 <= part.rows && part.rows <= MOST_ROWS && 1 <= part.cols && part.cols <= MOST_COLUMNS
}

// Reads the text behind `part `: a part, or the rows and columns that follow the cursor.
fn behind_part(text: &[u8]) -> Option<Showing>
    ensures found { IfSome result (λ showing. IsShowing showing × (codes "part " ++ text.now ≡ showing_text showing)) }
    ensures only { (showing : ShowingOf) → IsShowing showing → codes "part " ++ text.now ≡ showing_text showing → result ≡ Some showing }
{
    if let Some(part) = part(text) {
        if !is_size(part.rows, part.cols) {
            return None;
        }
        return Some(Showing::Exactly(part));
    }
    let (rows, cols) = pair(text)?;
    if !is_size(rows, cols) {
        return None;
    }
    Some(Showing::Following(rows, cols))
}

// Reads the text behind `mask `.
fn behind_mask(text: &[u8]) -> Option<Showing>
    ensures found { IfSome result (λ showing. IsShowing showing × (codes "mask " ++ text.now ≡ showing_text showing)) }
    ensures only { (showing : ShowingOf) → IsShowing showing → codes "mask " ++ text.now ≡ showing_text showing → result ≡ Some showing }
{
    let part = part(text)?;
    if !is_mask(part) {
        return None;
    }
    Some(Showing::Mask(part))
}

/// Returns the wish of a line, without its LF. `whole`; `part ROW COL ROWS COLS`, a part of the screen from a row and a column on, both
/// from 0; `part ROWS COLS`, a part that follows the cursor; `mask ROW COL ROWS COLS`, cells of the terminal that stay unpainted; `unmask`.
/// A part has 2 to 200 rows of 4 to 500 columns, a mask 1 to 200 and 1 to 500. `None` for any other line.
pub fn read_showing(line: &[u8]) -> Option<Showing>
    // The result has this text.
    ensures found { IfSome result (λ showing. IsShowing showing × (line.now ≡ showing_text showing)) }
    // A wish with this text is the result.
    ensures only { (showing : ShowingOf) → IsShowing showing → line.now ≡ showing_text showing → result ≡ Some showing }
{
    if line == b"whole".as_slice() {
        return Some(Showing::Whole);
    }
    if line == b"unmask".as_slice() {
        return Some(Showing::Unmask);
    }
    if let Some(text) = line.strip_prefix(b"part ".as_slice()) {
        return behind_part(text);
    }
    let text = line.strip_prefix(b"mask ".as_slice())?;
    behind_mask(text)
}
