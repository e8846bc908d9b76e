//! The text of a diff, written and read.

ghost use Rattle.std.specs.Prelude.{◌≡◌, ◌≤◌, ◌+◌, ◌*◌, ◌-◌, ◌<◌, ◌^◌, List, [], ◌++◌, length, slice_range, ◌⊎◌, Some, None, IfOk, IfErr, OnOk, IsErrOf, IsOkUnless};
ghost use Rattle.roam_screens.specs.Lines.{cells_in_order, AreLines};
ghost use Rattle.roam_update.specs.Runs.{runs_between};
ghost use Rattle.roam_update.specs.ChangeText.{may_begin, head_text};
ghost use Rattle.roam_update.specs.Numbers.{AreNumbers, form_in, styles_of, form_over, form_behind, cells_said, run_said, runs_said};
ghost use Rattle.roam_update.specs.TableText.{front_text};
ghost use Rattle.roam_update.specs.Tabled.{head_of_text, old_head_of_text};
ghost use Rattle.roam_update.specs.Put.{cells_put, runs_put};
ghost use Rattle.roam_update.specs.Sizes.{AreSameSize};

use crate::cell_text::{add_number, read_cell};
use crate::drafts::{Row, put_run};
use crate::numbers::{Numbers, add_cells};
use crate::spelling::Spelling;
use crate::walks::{first_difference, first_same};
use byteorder::{BigEndian, ByteOrder};
use roam_cells::limits::is_size;
use roam_cells::{Cell, Fault};
use roam_screens::Seen;
use std::alloc::{AllocError, Global};

/// The head of a diff, before its runs: its size, its cursor's row and column, the cursor's visibility, and the number of runs.
#[derive(Clone, Copy)]
pub struct Head {
    /// Its rows.
    pub rows: u16,
    /// Its columns.
    pub cols: u16,
    /// The cursor's row, from 1.
    pub cursor_row: u16,
    /// The cursor's column, from 1.
    pub cursor_col: u16,
    /// True if the cursor is visible.
    pub visible: bool,
    /// How many runs there are.
    pub runs: u32,
}

impl Head {
    /// The bytes of a head.
    pub fn bytes(self) -> [u8; 13]
        ensures bytes { result ≡ head_text self }
    {
        let mut bytes = [0u8; 13];
        BigEndian::write_u16(&mut bytes, self.rows);
        BigEndian::write_u16(&mut bytes[2..], self.cols);
        BigEndian::write_u16(&mut bytes[4..], self.cursor_row);
        BigEndian::write_u16(&mut bytes[6..], self.cursor_col);
        bytes[8] = if self.visible { 1 } else { 0 };
        BigEndian::write_u32(&mut bytes[9..], self.runs);
        bytes
    }

    /// The bytes of a head without its number of runs.
    pub fn front(self) -> [u8; 9]
        ensures bytes { result ≡ front_text self }
    {
        let mut bytes = [0u8; 9];
        BigEndian::write_u16(&mut bytes, self.rows);
        BigEndian::write_u16(&mut bytes[2..], self.cols);
        BigEndian::write_u16(&mut bytes[4..], self.cursor_row);
        BigEndian::write_u16(&mut bytes[6..], self.cursor_col);
        bytes[8] = if self.visible { 1 } else { 0 };
        bytes
    }

    /// Returns the head of a diff's text of version 1, or `None` if no diff begins so.
    pub fn read_old(text: &[u8]) -> Option<Head>
        ensures head { result ≡ old_head_of_text text.now }
    {
        if text.len() < 13 || 1 < text[8] {
            return None;
        }
        let head = Head {
            rows: BigEndian::read_u16(text),
            cols: BigEndian::read_u16(&text[2..]),
            cursor_row: BigEndian::read_u16(&text[4..]),
            cursor_col: BigEndian::read_u16(&text[6..]),
            visible: text[8] == 1,
            runs: BigEndian::read_u32(&text[9..]),
        };
        if is_size(head.rows, head.cols) {
            Some(head)
        } else {
            None
        }
    }

    /// Returns the head of a diff's text, without a number of runs, or `None` if no diff with a table begins so.
    pub fn read(text: &[u8]) -> Option<Head>
        ensures head { result ≡ head_of_text text.now }
    {
        if text.len() < 12 || 1 < text[8] {
            return None;
        }
        let head = Head {
            rows: BigEndian::read_u16(text),
            cols: BigEndian::read_u16(&text[2..]),
            cursor_row: BigEndian::read_u16(&text[4..]),
            cursor_col: BigEndian::read_u16(&text[6..]),
            visible: text[8] == 1,
            runs: 0,
        };
        if is_size(head.rows, head.cols) {
            Some(head)
        } else {
            None
        }
    }
}

// How many places a screen has.
#[tactic(auto, using(crate::proofs::Sizing::places_are))]
fn places<S: Seen>(shot: &S) -> usize
    ensures places { result ≡ length (S.screen shot.now).cells }
{
    shot.facts();
    shot.rows() as usize * shot.cols() as usize
}

// Adds the texts of the cells of a screen from one place on and before another.
fn add_places<S: Seen>(
    text: &mut Vec<u8>,
    numbers: &mut Numbers,
    shot: &S,
    first: usize,
    end: usize,
) -> Result<(), AllocError>
    requires places { (first ≤ end) × (end ≤ length (S.screen shot.now).cells) }
    requires are { AreNumbers numbers.old }
    requires few { length (styles_of (form_in numbers.old)) + (end - first) < 0x1000000 - 1 }
    ensures form { OnOk result (form_in numbers.new ≡ form_over (form_in numbers.old) (slice_range (S.screen shot.now).cells first end)) }
    ensures cells { OnOk result (text.new.items ≡ text.old.items
        ++ cells_said (form_in numbers.old) (slice_range (S.screen shot.now).cells first end)) }
    ensures are { OnOk result (AreNumbers numbers.new) }
{
    shot.facts();
    let cols = shot.cols() as usize;
    let mut place = first;
    while place < end {
        let col = place % cols;
        let stop = cols.min(col + (end - place));
        add_cells(text, numbers, &shot.row((place / cols) as u16)[col..stop])?;
        place += stop - col;
    }
    Ok(())
}

fn add_run<S: Seen>(
    text: &mut Vec<u8>,
    numbers: &mut Numbers,
    shot: &S,
    first: usize,
    end: usize,
) -> Result<(), AllocError>
    requires places { (first ≤ end) × (end ≤ length (S.screen shot.now).cells) }
    requires few { end < 2 ^ 32 }
    requires are { AreNumbers numbers.old }
    requires styles { length (styles_of (form_in numbers.old)) + (end - first) < 0x1000000 - 1 }
    ensures run { OnOk result (text.new.items ≡ text.old.items
        ++ run_said (form_in numbers.old) (record { first = first; cells = slice_range (S.screen shot.now).cells first end })) }
    ensures form { OnOk result (form_in numbers.new ≡ form_over (form_in numbers.old) (slice_range (S.screen shot.now).cells first end)) }
    ensures are { OnOk result (AreNumbers numbers.new) }
{
    add_number(text, first as u32)?;
    add_number(text, (end - first) as u32)?;
    add_places(text, numbers, shot, first, end)
}

/// Appends the texts of the maximal runs of the places at which a screen differs from a base of its size, and returns the number of runs.
pub fn add_runs<B: Seen, S: Seen>(
    text: &mut Vec<u8>,
    numbers: &mut Numbers,
    base: &B,
    shot: &S,
) -> Result<u32, AllocError>
    requires size { AreSameSize (B.screen base.now) (S.screen shot.now) }
    requires are { AreNumbers numbers.old }
    requires none { styles_of (form_in numbers.old) ≡ [] }
    ensures runs { OnOk result (text.new.items ≡ text.old.items
        ++ runs_said (form_in numbers.old) (runs_between (B.screen base.now).cells (S.screen shot.now).cells)) }
    ensures form { OnOk result (form_in numbers.new
        ≡ form_behind (form_in numbers.old) (runs_between (B.screen base.now).cells (S.screen shot.now).cells)) }
    ensures are { OnOk result (AreNumbers numbers.new) }
    ensures count { IfOk result (λ count. count ≡ length (runs_between (B.screen base.now).cells (S.screen shot.now).cells)) }
{
    base.facts();
    shot.facts();
    let places = places(shot);
    let mut count = 0;
    let mut first = first_difference(base, shot, 0);
    while first < places {
        let end = first_same(base, shot, first + 1);
        add_run(text, numbers, shot, first, end)?;
        count += 1;
        first = first_difference(base, shot, end);
    }
    Ok(count)
}

/// Puts n cells of a text into places from one on, and returns the rest of the text. If it isn't that of n cells, some places may have been
/// written.
#[tactic(auto, using(crate::proofs::Putting::cells_put_none, crate::proofs::Putting::cells_put_fails))]
pub fn put_cells<'a>(
    form: &mut Spelling,
    cells: &mut [Cell],
    first: usize,
    n: usize,
    text: &'a [u8],
) -> Result<&'a [u8], Fault>
    requires there { first + n ≤ length cells.old }
    ensures len { length cells.new ≡ length cells.old }
    ensures ok { IfOk result (λ rest. cells_put form.old n first cells.old text.now
        ≡ Some (record { value = cells.new; rest = rest.now; form = form.new })) }
    ensures bad { IsErrOf result Fault.BadChange → cells_put form.old n first cells.old text.now ≡ None }
    ensures fault { IsOkUnless result Fault.BadChange }
{
    let mut rest = text;
    for k in 0..n {
        match read_cell(form, rest) {
            None => return Err(Fault::BadChange),
            Some(cell) => {
                cells[first + k] = cell;
                let size = form.head_size() + 4 * rest[0] as usize;
                form.pass(rest);
                (_, rest) = rest.split_at(size);
            }
        }
    }
    Ok(rest)
}

// Returns true if a run may begin a text: not before `least`, of one place or more, and not past the end.
fn may_begin(least: usize, end: usize, text: &[u8]) -> bool
    ensures begins { result ≡ may_begin least end text.now }
{
    if text.len() < 8 {
        return false;
    }
    let first = BigEndian::read_u32(text) as usize;
    let len = BigEndian::read_u32(&text[4..]) as usize;
    least <= first && 1 <= len && first + len <= end
}

/// Puts the n runs of a text into rows of `cols` columns. `BadChange` if the whole text isn't that of n runs that use all styles of a
/// table. After an error some places may have been written.
#[tactic(auto, using(crate::proofs::Putting::put_steps))]
pub fn put_runs(
    rows: &mut Vec<Row>,
    alloc: Global,
    form: &mut Spelling,
    cols: usize,
    n: u32,
    text: &[u8],
) -> Result<(), Fault>
    requires few { length rows.old.items * cols < 2 ^ 32 }
    requires cols { 0 < cols }
    requires lines { AreLines (length rows.old.items) cols rows.old.items }
    ensures lines { OnOk result (AreLines (length rows.old.items) cols rows.new.items) }
    ensures ok { OnOk result (runs_put form.old n 0 (cells_in_order rows.old.items) text.now ≡ Some (cells_in_order rows.new.items)) }
    ensures bad { IsErrOf result Fault.BadChange → runs_put form.old n 0 (cells_in_order rows.old.items) text.now ≡ None }
    ensures fault { IfErr result (λ fault. (fault ≡ Fault.OutOfMemory) ⊎ (fault ≡ Fault.BadChange)) }
{
    let end = rows.len() * cols;
    let mut rest = text;
    let mut least = 0;
    for _k in 0..n {
        if !may_begin(least, end, rest) {
            return Err(Fault::BadChange);
        }
        let first = BigEndian::read_u32(rest) as usize;
        let len = BigEndian::read_u32(&rest[4..]) as usize;
        rest = put_run(rows, alloc, form, cols, first, len, &rest[8..])?;
        least = first + len + 1;
    }
    if rest.is_empty() && form.is_used_up() {
        Ok(())
    } else {
        Err(Fault::BadChange)
    }
}
