//! A screen as a text with its cells separated.
ghost use Rattle.std.specs.Prelude.{◌≡◌, ◌<◌, ◌++◌, ◌==◌, ◌∷◌, [], length, OnOk, IfOk, IsOkUnless, if◌then◌else◌};
ghost use Rattle.std.specs.List.{flat_map, range_with_len};
ghost use Rattle.roam_cells.specs.Place.{glyph_at, row_of};
ghost use Rattle.roam_display_records.specs.Looks.{cell_text, cells_text, head_line, row_line, rows_text, screen_text, style_before, styling, visible_word};

use roam_cells::{Cell, Fault, Style};
use roam_paint::{push_points, push_restyle};
use roam_screens::Seen;
use std::alloc::{AllocError, Global};

/// The separator of two cells of a row: no cell has a control character.
const BETWEEN: &[u8] = b"\x1f";

/// The content of each cell's text.
#[derive(Clone, Copy, Debug, PartialEq, Eq)]
pub enum Looking {
    /// Its code points.
    Points,

    /// Its code points, and before them the SGR that sets its style, if that isn't the one of the cell before.
    Styled,
}

// The style before a cell of a row.
#[tactic(auto, using(crate::proofs::CellByCell::before))]
fn style_before(row: &[Cell], col: usize) -> Style
    requires within { col < length row.now }
    ensures style { result ≡ style_before row.now col }
{
    if col == 0 {
        Style::default()
    } else {
        row[col - 1].style()
    }
}

impl Looking {
    // Appends SGR that sets a style, if styles are shown and another one is set.
    fn push_styling(self, text: &mut Vec<u8>, before: Style, style: Style) -> Result<(), AllocError>
        ensures text { OnOk result (text.new.items ≡ text.old.items ++ styling self before style) }
    {
        match self {
            Looking::Points => Ok(()),
            Looking::Styled => {
                if style == before {
                    return Ok(());
                }
                push_restyle(text, style)
            }
        }
    }

    // Adds a cell of a row.
    fn push_cell(self, text: &mut Vec<u8>, row: &[Cell], col: usize) -> Result<(), AllocError>
        requires within { col < length row.now }
        ensures text { OnOk result (text.new.items ≡ text.old.items ++ cell_text self row.now col) }
    {
        if col != 0 {
            text.extend_from_slice(BETWEEN)?;
        }
        self.push_styling(text, style_before(row, col), row[col].style())?;
        push_points(text, &row[col])
    }

    // Adds a row, a line.
    #[tactic(auto, using(crate::proofs::CellByCell::more, crate::proofs::CellByCell::none))]
    fn push_row(self, text: &mut Vec<u8>, row: &[Cell]) -> Result<(), AllocError>
        ensures text { OnOk result (text.new.items ≡ text.old.items ++ row_line self row.now) }
    {
        for col in 0..row.len() {
            self.push_cell(text, row, col)?;
        }
        text.extend_from_slice(b"\n")
    }
}

fn visible_word(visible: bool) -> &'static str
    ensures word { result.now ≡ visible_word visible }
{
    if visible { "visible" } else { "hidden" }
}

// The first line: the size, the cursor, and whether it is visible.
fn head_of<S: Seen>(alloc: Global, shot: &S) -> Result<Vec<u8>, Fault>
    ensures head { IfOk result (λ text. text.items ≡ head_line (S.screen shot.now)) }
    ensures fault { IsOkUnless result Fault.OutOfMemory }
{
    let (rows, cols) = (shot.rows(), shot.cols());
    let (row, col) = shot.cursor();
    let visible = visible_word(shot.visible());
    let text = format!(in alloc; "{rows} {cols} {row} {col} {visible}\n")?;
    Ok(text.into_bytes())
}

/// Returns the text of a screen cell by cell: a line with its rows and columns, the cursor's row and column from 1, and `visible` or
/// `hidden`. Then comes a line for each row, with cells separated by IS1 (U+001F, ECMA-48 8.3.63); a right half is empty. `OutOfMemory`.
#[tactic(auto, using(crate::proofs::CellByCell::more, crate::proofs::CellByCell::none))]
pub fn screen_text<S: Seen>(alloc: Global, looking: Looking, shot: &S) -> Result<Vec<u8>, Fault>
    ensures text { IfOk result (λ text. text.items ≡ screen_text looking (S.screen shot.now)) }
    ensures fault { IsOkUnless result Fault.OutOfMemory }
{
    let mut text = head_of(alloc, shot)?;
    for row in 0..shot.rows() {
        looking.push_row(&mut text, shot.row(row))?;
    }
    Ok(text)
}
