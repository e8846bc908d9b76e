//! The rows of a screen in the making: a row is shared with the base until cells are put into it.

ghost use Rattle.std.specs.Prelude.{◌≡◌, ℕ, ◌≤◌, ◌<◌, ◌+◌, ◌*◌, ◌^◌, ◌⊎◌, [], Some, None, map, length, slice_index_or, IfOk, IfErr, OnOk, IsErrOf, IsOkUnless};
ghost use Rattle.roam_cells.specs.Limits.{IsSize};
ghost use Rattle.roam_cells.specs.Place.{IsWholeRow};
ghost use Rattle.roam_screens.specs.Lines.{cells_in_order, AreLines};
ghost use Rattle.roam_update.specs.Put.{cells_put};
ghost use Rattle.std.specs.List.{range_with_len};
ghost use Rattle.roam_update.specs.Sizes.{sized_cells, sized_at};

use crate::change_text::put_cells;
use crate::sizes::add_row;
use crate::spelling::Spelling;
use roam_cells::{Cell, Fault, is_well_formed};
use roam_screens::{Line, RowShot, Seen};
use std::alloc::{AllocError, Global};
use std::marker::Model;

/// The cells of a row.
#[derive(Drop)]
pub enum Cells {
    /// Those of a screen that is shown, which has the row too.
    Shared(Line),
    /// Cells of its own.
    Own(Vec<Cell>),
}

/// A row of a screen in the making.
#[derive(Drop)]
pub struct Row {
    cells: Cells,
}

impl Model for Row {
    ghost use Rattle.std.specs.Prelude.{List};
    ghost use Rattle.roam_cells.specs.Glyph.{Glyph};
    ghost use Rattle.roam_update.specs.Drafts.{cells_of, IsSound};

    ghost Value = { List Glyph };

    ghost view = { λ r. cells_of r.cells };

    ghost invariant = { λ r. IsSound r.cells };
}

impl Row {
    // A row that is shared from now on.
    fn shared(line: &Line) -> Result<Row, AllocError>
        requires whole { IsWholeRow line.now }
        ensures row { IfOk result (λ row. row ≡ line.now) }
    {
        let line = line.share()?;
        Ok(Row {
            cells: Cells::Shared(line),
        })
    }

    // A row of these cells.
    fn own(cells: Vec<Cell>) -> Row
        ensures row { result ≡ cells.items }
    {
        Row {
            cells: Cells::Own(cells),
        }
    }

    // Puts n cells of a text into it from a column on, and answers the rest of the text. The row has cells of its own from then on.
    fn put<'a>(
        &mut self,
        alloc: Global,
        form: &mut Spelling,
        col: usize,
        n: usize,
        text: &'a [u8],
    ) -> Result<&'a [u8], Fault>
        requires there { col + n ≤ length self.old }
        ensures len { OnOk result (length self.new ≡ length self.old) }
        ensures ok { IfOk result (λ rest. cells_put form.old n col self.old text.now
            ≡ Some (record { value = self.new; rest = rest.now; form = form.new })) }
        ensures bad { IsErrOf result Fault.BadChange → cells_put form.old n col self.old text.now ≡ None }
        ensures fault { IfErr result (λ fault. (fault ≡ Fault.OutOfMemory) ⊎ (fault ≡ Fault.BadChange)) }
    {
        match &mut self.cells {
            Cells::Own(cells) => put_cells(form, cells, col, n, text),
            Cells::Shared(line) => {
                let mut cells = Vec::from_slice(alloc, line.cells())?;
                let rest = put_cells(form, &mut cells, col, n, text)?;
                self.cells = Cells::Own(cells);
                Ok(rest)
            }
        }
    }

    // Returns the row as screens share it. `BadChange` if a character of it is cut in two.
    fn line(self, cols: usize) -> Result<Line, Fault>
        requires cols { (0 < cols) × (length self ≡ cols) }
        ensures ok { IfOk result (λ line. line ≡ self) }
        ensures whole { IfOk result (λ _. IsWholeRow self) }
        ensures bad { IsErrOf result Fault.BadChange → ¬ IsWholeRow self }
        ensures fault { IfErr result (λ fault. (fault ≡ Fault.OutOfMemory) ⊎ (fault ≡ Fault.BadChange)) }
    {
        match self.cells {
            Cells::Shared(line) => Ok(line),
            Cells::Own(cells) => {
                if !is_well_formed(&cells, cols) {
                    return Err(Fault::BadChange);
                }
                let line = Line::from_cells(cells)?;
                Ok(line)
            }
        }
    }
}

// The rows of a base.
fn shared_rows(alloc: Global, base: &RowShot) -> Result<Vec<Row>, AllocError>
    ensures lines { IfOk result (λ rows. AreLines base.now.rows base.now.cols rows.items) }
    ensures cells { IfOk result (λ rows. cells_in_order rows.items ≡ base.now.cells) }
{
    base.facts();
    let mut rows = Vec::with_capacity(alloc, base.rows() as usize)?;
    for row in 0..base.rows() {
        rows.push(Row::shared(base.line(row))?)?;
    }
    Ok(rows)
}

// One row of a base brought to a number of columns.
fn sized_row(alloc: Global, base: &RowShot, cols: u16, row: u16) -> Result<Row, AllocError>
    requires few { (row < 200) × (cols ≤ 500) }
    ensures row { IfOk result (λ made. made ≡ map (sized_at cols base.now row) (range_with_len 0 cols)) }
{
    let mut cells = Vec::with_capacity(alloc, cols as usize)?;
    add_row(&mut cells, base, cols, row)?;
    Ok(Row::own(cells))
}

// The rows of a base brought to another size.
fn sized_rows(alloc: Global, base: &RowShot, rows: u16, cols: u16) -> Result<Vec<Row>, AllocError>
    requires few { (rows ≤ 200) × (cols ≤ 500) }
    ensures lines { IfOk result (λ made. AreLines rows cols made.items) }
    ensures cells { IfOk result (λ made. cells_in_order made.items ≡ sized_cells rows cols base.now) }
{
    let mut made = Vec::with_capacity(alloc, rows as usize)?;
    for row in 0..rows {
        let line = sized_row(alloc, base, cols, row)?;
        made.push(line)?;
    }
    Ok(made)
}

/// Returns the rows of a base brought to a size: if it has that size, all of them are shared.
pub fn rows_of(alloc: Global, base: &RowShot, rows: u16, cols: u16) -> Result<Vec<Row>, AllocError>
    requires size { IsSize rows cols }
    ensures lines { IfOk result (λ made. AreLines rows cols made.items) }
    ensures cells { IfOk result (λ made. cells_in_order made.items ≡ sized_cells rows cols base.now) }
{
    base.facts();
    if base.rows() == rows && base.cols() == cols {
        return shared_rows(alloc, base);
    }
    sized_rows(alloc, base, rows, cols)
}

/// Puts n cells of a text into rows of `cols` columns from a place on, and answers the rest of the text.
pub fn put_run<'a>(
    rows: &mut Vec<Row>,
    alloc: Global,
    form: &mut Spelling,
    cols: usize,
    first: usize,
    n: usize,
    text: &'a [u8],
) -> Result<&'a [u8], Fault>
    requires cols { 0 < cols }
    requires lines { AreLines (length rows.old.items) cols rows.old.items }
    requires few { length rows.old.items * cols < 2 ^ 32 }
    requires there { first + n ≤ length rows.old.items * cols }
    ensures lines { OnOk result (AreLines (length rows.old.items) cols rows.new.items) }
    ensures ok { IfOk result (λ rest. cells_put form.old n first (cells_in_order rows.old.items) text.now
        ≡ Some (record { value = cells_in_order rows.new.items; rest = rest.now; form = form.new })) }
    ensures bad { IsErrOf result Fault.BadChange → cells_put form.old n first (cells_in_order rows.old.items) text.now ≡ None }
    ensures fault { IfErr result (λ fault. (fault ≡ Fault.OutOfMemory) ⊎ (fault ≡ Fault.BadChange)) }
{
    let end = first + n;
    let mut place = first;
    let mut rest = text;
    while place < end {
        let col = place % cols;
        let count = (cols - col).min(end - place);
        rest = rows[place / cols].put(alloc, form, col, count, rest)?;
        place += count;
    }
    Ok(rest)
}

/// Returns the rows as screens share them. `BadChange` if a character of one is cut in two.
pub fn lines_of(alloc: Global, rows: Vec<Row>, cols: usize) -> Result<Vec<Line>, Fault>
    requires cols { 0 < cols }
    requires lines { AreLines (length rows.items) cols rows.items }
    ensures ok { IfOk result (λ lines. lines.items ≡ rows.items) }
    ensures whole { IfOk result (λ _. (r : ℕ) → r < length rows.items → IsWholeRow (slice_index_or rows.items r [])) }
    ensures bad { IsErrOf result Fault.BadChange → ¬ ((r : ℕ) → r < length rows.items → IsWholeRow (slice_index_or rows.items r [])) }
    ensures fault { IfErr result (λ fault. (fault ≡ Fault.OutOfMemory) ⊎ (fault ≡ Fault.BadChange)) }
{
    let mut lines = Vec::with_capacity(alloc, rows.len())?;
    for row in rows {
        let line = row.line(cols)?;
        lines.push(line)?;
    }
    Ok(lines)
}
