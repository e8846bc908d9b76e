//! Rows of cells that several screens share.
ghost use Rattle.std.specs.Prelude.{◌≡◌, IfOk, length, replicate};
ghost use Rattle.roam_cells.specs.Glyph.{blank};

use roam_cells::Cell;
use std::alloc::{AllocError, Global};
use std::marker::Model;
use std::rc::RcSlice;

/// A row of cells, which several screens may share.
#[derive(Drop)]
pub struct Line {
    cells: RcSlice<Cell>,
}

impl Model for Line {
    ghost use Rattle.std.specs.Prelude.{List};
    ghost use Rattle.std.specs.Rc.{rc_slice_items};
    ghost use Rattle.roam_cells.specs.Glyph.{Glyph};

    ghost Value = { List Glyph };

    ghost view = { λ a. rc_slice_items a.cells };
}

impl Line {
    /// A row of these cells, in memory of its own.
    pub fn new(alloc: Global, cells: &[Cell]) -> Result<Line, AllocError>
        ensures line { IfOk result (λ line. line ≡ cells.now) }
    {
        let cells = RcSlice::from_slice(alloc, cells)?;
        Ok(Line { cells })
    }

    /// A row of cells that have memory of their own: none is copied.
    pub fn from_cells(cells: Vec<Cell>) -> Result<Line, AllocError>
        ensures line { IfOk result (λ line. line ≡ cells.items) }
    {
        let cells = RcSlice::from_vec(cells)?;
        Ok(Line { cells })
    }

    /// A row of so many blanks.
    pub fn blank(alloc: Global, cols: usize) -> Result<Line, AllocError>
        ensures line { IfOk result (λ line. line ≡ replicate cols blank) }
    {
        let cells = RcSlice::from_vec(vec![in alloc; Cell::blank(); cols]?)?;
        Ok(Line { cells })
    }

    /// The same row once more: no cell is copied.
    pub fn share(&self) -> Result<Line, AllocError>
        ensures same { IfOk result (λ line. line ≡ self.now) }
    {
        let cells = self.cells.clone()?;
        Ok(Line { cells })
    }

    /// Its cells.
    #[inline]
    pub fn cells(&self) -> &[Cell]
        ensures cells { result.now ≡ self.now }
    {
        self.cells.as_slice()
    }
}

/// A row so many times.
pub fn repeated(alloc: Global, line: &Line, times: u16) -> Result<Vec<Line>, AllocError>
    ensures lines { IfOk result (λ lines. lines.items ≡ replicate times line.now) }
{
    let mut lines = Vec::with_capacity(alloc, times as usize)?;
    for _k in 0..times {
        lines.push(line.share()?)?;
    }
    Ok(lines)
}

/// The same rows once more.
pub fn shared(alloc: Global, lines: &[Line]) -> Result<Vec<Line>, AllocError>
    ensures lines { IfOk result (λ copy. copy.items ≡ lines.now) }
{
    let mut copy = Vec::with_capacity(alloc, lines.len())?;
    for line in lines {
        copy.push(line.share()?)?;
    }
    Ok(copy)
}
