//! The diff of a screen, in the texts of both versions.

ghost use Rattle.std.specs.Prelude.{◌≡◌, ◌≤◌, ◌<◌, ◌*◌, ◌++◌, ◌↔◌, List, [], Some, None, length, IfOk, OnOk, IsTrue, IfErr, IsErrOf, ◌⊎◌};
ghost use Rattle.roam_cells.specs.Glyph.{Glyph};
ghost use Rattle.roam_cells.specs.Limits.{IsSize};
ghost use Rattle.roam_screens.specs.Narrow.{IsOldScreenshot};
ghost use Rattle.roam_cells.specs.Place.{AreWhole};
ghost use Rattle.roam_screens.specs.Screenshot.{IsPlace, IsScreenshot};
ghost use Rattle.roam_screens.specs.Lines.{cells_in_order, AreLines};
ghost use Rattle.roam_update.specs.Numbers.{styles_in, AreNumbers, form_in, styles_of, form_behind, runs_said};
ghost use Rattle.roam_update.specs.Put.{cells_by};
ghost use Rattle.roam_update.specs.TableText.{joined_text};
ghost use Rattle.roam_update.specs.Tabled.{head_of_text, HasTable, HasStart, cells_in, old_head_of_text, HasOldHead, old_cells_in};
ghost use Rattle.roam_update.specs.Shots.{applied_one, applied_two, change_to, difference_one, difference_two, shown_by};
ghost use Rattle.roam_update.specs.Sizes.{AreSameSize, sized_cells};

use crate::cell_text::add_number;
use crate::change_text::{Head, add_runs, put_runs};
use crate::drafts::{lines_of, rows_of};
use crate::numbers::{Numbers, add_short_number};
use crate::sizes::sized;
use crate::spelling::Spelling;
use crate::tables::read_table;
use byteorder::{BigEndian, ByteOrder};
use roam_cells::Fault;
use roam_screens::narrowing::{OLD_COLUMNS, OLD_ROWS};
use roam_screens::{Line, RowShot, Seen, Shot};
use std::alloc::{AllocError, Global};

/// Returns true if two screens are of one size.
pub fn is_same_size<B: Seen, S: Seen>(base: &B, shot: &S) -> bool
    ensures same { IsTrue result ↔ AreSameSize (B.screen base.now) (S.screen shot.now) }
{
    base.rows() == shot.rows() && base.cols() == shot.cols()
}

// A base brought to a size, as a screen.
fn brought<B: Seen>(alloc: Global, base: &B, rows: u16, cols: u16) -> Result<Shot, AllocError>
    requires size { IsSize rows cols }
    ensures rows { IfOk result (λ shot. shot.rows ≡ rows) }
    ensures cols { IfOk result (λ shot. shot.cols ≡ cols) }
    ensures cells { IfOk result (λ shot. shot.cells ≡ sized_cells rows cols (B.screen base.now)) }
{
    base.facts();
    let cells = sized(alloc, base, rows, cols)?;
    Ok(Shot::new(rows, cols, cells, (1, 1), true))
}

// Adds the texts of the runs that lead from a base to a screen, and answers how many runs there are.
fn add_changes<B: Seen, S: Seen>(
    text: &mut Vec<u8>,
    numbers: &mut Numbers,
    alloc: Global,
    base: &B,
    shot: &S,
) -> Result<u32, AllocError>
    requires are { AreNumbers numbers.old }
    requires none { styles_of (form_in numbers.old) ≡ [] }
    ensures runs { OnOk result (text.new.items ≡ text.old.items
        ++ runs_said (form_in numbers.old) (change_to (B.screen base.now) (S.screen shot.now)).runs) }
    ensures form { OnOk result (form_in numbers.new
        ≡ form_behind (form_in numbers.old) (change_to (B.screen base.now) (S.screen shot.now)).runs) }
    ensures are { OnOk result (AreNumbers numbers.new) }
    ensures count { IfOk result (λ count. count ≡ length (change_to (B.screen base.now) (S.screen shot.now)).runs) }
{
    base.facts();
    shot.facts();
    if is_same_size(base, shot) {
        return add_runs(text, numbers, base, shot);
    }
    let base = brought(alloc, base, shot.rows(), shot.cols())?;
    add_runs(text, numbers, &base, shot)
}

// A diff's text from its parts.
fn joined(
    alloc: Global,
    head: Head,
    numbers: &Numbers,
    runs: u32,
    body: &[u8],
) -> Result<Vec<u8>, AllocError>
    requires are { AreNumbers numbers.now }
    requires few { length (styles_in numbers.now) < 0x1000000 }
    ensures text { IfOk result (λ text. text.items ≡ joined_text head (styles_in numbers.now) runs body.now) }
{
    let mut text = Vec::from_slice(alloc, &head.front())?;
    add_short_number(&mut text, numbers.keys.len())?;
    text.extend_from_slice(&numbers.table)?;
    add_number(&mut text, runs)?;
    text.extend_from_slice(body)?;
    Ok(text)
}

// Returns the head of a diff to a screen, before its runs.
fn head_of<S: Seen>(shot: &S, runs: u32) -> Head
    ensures head { result ≡ record {
      rows = (S.screen shot.now).rows;
      cols = (S.screen shot.now).cols;
      cursor_row = (S.screen shot.now).cursor_row;
      cursor_col = (S.screen shot.now).cursor_col;
      visible = (S.screen shot.now).visible;
      runs = runs;
    } }
{
    let (cursor_row, cursor_col) = shot.cursor();
    Head {
        rows: shot.rows(),
        cols: shot.cols(),
        cursor_row,
        cursor_col,
        visible: shot.visible(),
        runs,
    }
}

/// Returns the text of version 2 of the diff from a base to a screen. The table comes before the runs that fill it, so they are written
/// first.
#[tactic(auto, using(crate::proofs::Joined::few_styles))]
pub fn change_text<B: Seen, S: Seen>(
    alloc: Global,
    base: &B,
    shot: &S,
) -> Result<Vec<u8>, AllocError>
    ensures text { IfOk result (λ text. text.items ≡ difference_two (B.screen base.now) (S.screen shot.now)) }
    ensures screenshot { IsScreenshot (S.screen shot.now) }
{
    shot.facts();
    let mut numbers = Numbers::new(alloc);
    let mut body = Vec::new(alloc);
    let runs = add_changes(&mut body, &mut numbers, alloc, base, shot)?;
    let text = joined(alloc, head_of(shot, runs), &numbers, runs, &body)?;
    Ok(text)
}

/// The text of version 1 of the diff from a base to a screen. The head has the number of runs, so they are written first.
pub fn old_change_text<B: Seen, S: Seen>(
    alloc: Global,
    base: &B,
    shot: &S,
) -> Result<Vec<u8>, AllocError>
    ensures text { IfOk result (λ text. text.items ≡ difference_one (B.screen base.now) (S.screen shot.now)) }
{
    let mut numbers = Numbers::none(alloc);
    let mut body = Vec::new(alloc);
    let runs = add_changes(&mut body, &mut numbers, alloc, base, shot)?;
    let mut text = Vec::from_slice(alloc, &head_of(shot, runs).bytes())?;
    text.extend_from_slice(&body)?;
    Ok(text)
}

// Returns the rows of a base brought to a diff's size, with its runs put in, if that leaves whole characters. If the size stays, a row
// that no run names is that of the base.
#[tactic(auto, using(crate::proofs::Sizing::area))]
fn patched(
    alloc: Global,
    base: &RowShot,
    head: Head,
    form: &mut Spelling,
    n: u32,
    text: &[u8],
) -> Result<Vec<Line>, Fault>
    requires size { IsSize head.rows head.cols }
    ensures lines { IfOk result (λ lines. AreLines head.rows head.cols lines.items) }
    ensures ok { IfOk result (λ lines. cells_by form.old n base.now head text.now ≡ Some (cells_in_order lines.items)) }
    ensures whole { IfOk result (λ lines. AreWhole head.rows head.cols (cells_in_order lines.items)) }
    ensures bad { IsErrOf result Fault.BadChange → (cells : List Glyph)
        → cells_by form.old n base.now head text.now ≡ Some cells → ¬ AreWhole head.rows head.cols cells }
    ensures fault { IfErr result (λ fault. (fault ≡ Fault.OutOfMemory) ⊎ (fault ≡ Fault.BadChange)) }
{
    let cols = head.cols as usize;
    let mut rows = rows_of(alloc, base, head.rows, head.cols)?;
    put_runs(&mut rows, alloc, form, cols, n, text)?;
    let lines = lines_of(alloc, rows, cols)?;
    Ok(lines)
}

// The screen of a diff's rows and its cursor.
fn screen(head: Head, lines: Vec<Line>) -> RowShot
    requires lines { AreLines head.rows head.cols lines.items }
    requires screen { IsScreenshot (shown_by head (cells_in_order lines.items)) }
    ensures screen { result ≡ shown_by head (cells_in_order lines.items) }
{
    RowShot::of_lines(
        head.rows,
        head.cols,
        lines,
        (head.cursor_row, head.cursor_col),
        head.visible,
    )
}

fn is_place(rows: u16, cols: u16, row: u16, col: u16) -> bool
    ensures place { IsTrue result ↔ IsPlace rows cols row col }
{
    if row < 1 || rows < row {
        return false;
    }
    1 <= col && col <= cols
}

// Returns true if a table may have so many styles: a screen has no more than places.
#[tactic(auto, using(crate::proofs::Sizing::area))]
fn are_few(head: Head, count: usize) -> bool
    requires size { IsSize head.rows head.cols }
    ensures few { IsTrue result ↔ (count ≤ head.rows * head.cols) }
{
    count <= head.rows as usize * head.cols as usize
}

// The rows that the table and the runs behind a head make of a base. A table that is too long or is cut short is refused before it is read.
fn changed_rows(alloc: Global, base: &RowShot, head: Head, text: &[u8]) -> Result<Vec<Line>, Fault>
    requires head { head_of_text text.now ≡ Some head }
    ensures lines { IfOk result (λ lines. AreLines head.rows head.cols lines.items) }
    ensures ok { IfOk result (λ lines. cells_in base.now head text.now ≡ Some (cells_in_order lines.items)) }
    ensures whole { IfOk result (λ lines. AreWhole head.rows head.cols (cells_in_order lines.items)) }
    ensures bad { IsErrOf result Fault.BadChange → (cells : List Glyph)
        → cells_in base.now head text.now ≡ Some cells → ¬ AreWhole head.rows head.cols cells }
    ensures memory { IsErrOf result Fault.OutOfMemory → HasTable head text.now }
    ensures fault { IfErr result (λ fault. (fault ≡ Fault.OutOfMemory) ⊎ (fault ≡ Fault.BadChange)) }
{
    let count = BigEndian::read_u24(&text[9..]) as usize;
    if !are_few(head, count) {
        return Err(Fault::BadChange);
    }
    let (_, entries) = text.split_at(12);
    if entries.len() < 9 * count + 4 {
        return Err(Fault::BadChange);
    }
    let table = read_table(alloc, count, entries)?;
    let (_, rest) = entries.split_at(9 * count);
    let n = BigEndian::read_u32(rest);
    let (_, runs) = rest.split_at(4);
    let mut form = Spelling::by_table(table);
    patched(alloc, base, head, &mut form, n, runs)
}

/// Returns the screen that a text of version 2 makes of a base. If the size stays, it shares each row that no run names.
pub fn changed(alloc: Global, base: &RowShot, text: &[u8]) -> Result<RowShot, Fault>
    ensures ok { IfOk result (λ shot. applied_two base.now text.now ≡ Some shot) }
    ensures bad { IsErrOf result Fault.BadChange → applied_two base.now text.now ≡ None }
    // A text that begins with no head, or with no table behind it, is reported so, whatever memory there is.
    ensures memory { IsErrOf result Fault.OutOfMemory → HasStart text.now }
    ensures fault { IfErr result (λ fault. (fault ≡ Fault.OutOfMemory) ⊎ (fault ≡ Fault.BadChange)) }
{
    base.facts();
    let head = match Head::read(text) {
        None => return Err(Fault::BadChange),
        Some(head) => head,
    };
    if !is_place(head.rows, head.cols, head.cursor_row, head.cursor_col) {
        return Err(Fault::BadChange);
    }
    let lines = changed_rows(alloc, base, head, text)?;
    Ok(screen(head, lines))
}

// Returns true if a size is one of version 1.
fn is_old_size(rows: u16, cols: u16) -> bool
    ensures old { IsTrue result ↔ ((rows ≤ 100) × (cols ≤ 250)) }
{
    rows <= OLD_ROWS && cols <= OLD_COLUMNS
}

// The rows that the runs behind a head of version 1 make of a base.
#[tactic(auto, using(crate::proofs::OldApplying::head_size, crate::proofs::OldApplying::head_long))]
fn old_changed_rows(
    alloc: Global,
    base: &RowShot,
    head: Head,
    text: &[u8],
) -> Result<Vec<Line>, Fault>
    requires head { old_head_of_text text.now ≡ Some head }
    ensures lines { IfOk result (λ lines. AreLines head.rows head.cols lines.items) }
    ensures ok { IfOk result (λ lines. old_cells_in base.now head text.now ≡ Some (cells_in_order lines.items)) }
    ensures whole { IfOk result (λ lines. AreWhole head.rows head.cols (cells_in_order lines.items)) }
    ensures bad { IsErrOf result Fault.BadChange → (cells : List Glyph)
        → old_cells_in base.now head text.now ≡ Some cells → ¬ AreWhole head.rows head.cols cells }
    ensures fault { IfErr result (λ fault. (fault ≡ Fault.OutOfMemory) ⊎ (fault ≡ Fault.BadChange)) }
{
    let mut form = Spelling::whole(alloc);
    let (_, runs) = text.split_at(13);
    patched(alloc, base, head, &mut form, head.runs, runs)
}

/// Returns the screen that a text of version 1 makes of a base. If the size stays, it shares each row that no run names.
pub fn old_changed(alloc: Global, base: &RowShot, text: &[u8]) -> Result<RowShot, Fault>
    requires old { IsOldScreenshot base.now }
    ensures ok { IfOk result (λ shot. applied_one base.now text.now ≡ Some shot) }
    ensures shown { IfOk result (λ shot. IsOldScreenshot shot) }
    ensures bad { IsErrOf result Fault.BadChange → applied_one base.now text.now ≡ None }
    // A text that begins with no head is reported so, whatever memory there is.
    ensures memory { IsErrOf result Fault.OutOfMemory → HasOldHead (old_head_of_text text.now) }
    ensures fault { IfErr result (λ fault. (fault ≡ Fault.OutOfMemory) ⊎ (fault ≡ Fault.BadChange)) }
{
    let head = match Head::read_old(text) {
        None => return Err(Fault::BadChange),
        Some(head) => head,
    };
    if !is_place(head.rows, head.cols, head.cursor_row, head.cursor_col) {
        return Err(Fault::BadChange);
    }
    if !is_old_size(head.rows, head.cols) {
        return Err(Fault::BadChange);
    }
    let lines = old_changed_rows(alloc, base, head, text)?;
    Ok(screen(head, lines))
}
