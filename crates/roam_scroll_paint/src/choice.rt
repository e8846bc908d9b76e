//! Which band of rows goes up or down: three of the rows that differ are looked for among the old ones. Nothing rests on the choice.
ghost use Rattle.std.specs.Prelude.{◌≡◌, ℕ, ◌+◌, ◌-◌, ◌<◌, ◌≤◌, ◌≢◌, IfOk, OnOk, length, slice_index_or, [], true, None};
ghost use Rattle.roam_scroll_paint.specs.Bands.{FitsBand, IsBand};
ghost use Rattle.roam_paint.specs.Painting.{same_size};
ghost use Rattle.roam_scroll_paint.specs.Rows.{IsSameRow, KeepsCosts};

use crate::bands::Band;
use crate::differences::is_same_size;
use crate::marks::{blank_from, is_blank};
use roam_cells::{Cell, are_same_cells};
use roam_screens::Seen;
use std::alloc::{AllocError, Global};

/// If no more rows differ, no band is looked for, and their costs aren't computed.
const FEW_ROWS: u32 = 2;
/// The cost of a row beyond its cells: a move to it.
const ROW_COST: u32 = 6;
/// The cost of the erasure of its blank end.
const END_COST: u32 = 3;
/// Where all rows cost less than this together no band is looked for.
const LEAST_COST: u32 = 48;
/// The least saving of a band, since its move costs about as much.
const LEAST_GAIN: u32 = 16;

// The best band so far, and its saving.
#[derive(Clone, Copy)]
struct Found {
    band: Option<Band>,
    gain: u32,
}

// The rows that differ, from the first on and before another.
#[derive(Clone, Copy)]
struct Changed {
    from: u16,
    to: u16,
}

fn is_same_row<O: Seen, N: Seen>(old: &O, from: u16, new: &N, row: u16) -> bool
    requires rows { (from < (O.screen old.now).rows) × (row < (N.screen new.now).rows) }
{
    are_same_cells(old.row(from), new.row(row))
}

// Returns the cost of a row on a blank one.
fn bare_cost(cells: &[Cell]) -> u32 {
    let end = blank_from(cells);
    if end == 0 {
        return 0;
    }
    let mut cost = ROW_COST;
    for cell in &cells[..end] {
        if !is_blank(cell) {
            cost = cost.saturating_add(1);
        }
    }
    cost
}

// How many cells of two rows differ from one column on and before another.
fn differing(over: &[Cell], cells: &[Cell], from: usize, to: usize) -> u32
    requires len { length over.now ≡ length cells.now }
    requires inside { to ≤ length cells.now }
{
    let mut count = 0u32;
    for col in from..to {
        if !over[col].is_same(&cells[col]) {
            count = count.saturating_add(1);
        }
    }
    count
}

// Returns the cost of a row that stays and has to change.
fn cost_of(over: &[Cell], cells: &[Cell]) -> u32
    requires len { length over.now ≡ length cells.now }
    ensures some { 0 < result }
{
    let end = blank_from(cells);
    let beyond = differing(over, cells, end, cells.len());
    let cost = ROW_COST.saturating_add(differing(over, cells, 0, end));
    if beyond == 0 {
        cost
    } else {
        cost.saturating_add(END_COST)
    }
}

/// Returns the cost of each row that stays: nothing if it already has the right cells, and 1 if few others differ. There are no costs if
/// sizes differ.
pub fn costs_of<O: Seen, N: Seen>(alloc: Global, old: &O, new: &N) -> Result<Vec<u32>, AllocError>
    ensures none { IfOk result (λ costs. (r : ℕ) → slice_index_or costs.items r 1 ≡ 0
        → IsSameRow (O.screen old.now) (N.screen new.now) r) }
{
    new.facts();
    let mut costs = Vec::new(alloc);
    if !is_same_size(old, new) {
        return Ok(costs);
    }
    push_differences(&mut costs, old, new)?;
    if FEW_ROWS < count_of(&costs) {
        weigh(&mut costs, old, new);
    }
    Ok(costs)
}

// A row that differs costs 1, another nothing.
fn difference_of(over: &[Cell], cells: &[Cell]) -> u32
    ensures none { result ≡ 0 → over.now ≡ cells.now }
{
    if are_same_cells(over, cells) { 0 } else { 1 }
}

fn push_differences<O: Seen, N: Seen>(
    costs: &mut Vec<u32>,
    old: &O,
    new: &N,
) -> Result<(), AllocError>
    requires size { same_size (O.screen old.now) (N.screen new.now) ≡ true }
    requires rows { (O.screen old.now).rows ≡ (N.screen new.now).rows }
    requires cols { (O.screen old.now).cols ≡ (N.screen new.now).cols }
    requires first { costs.old.items ≡ [] }
    ensures len { OnOk result (length costs.new.items ≡ (N.screen new.now).rows) }
    ensures none { OnOk result ((r : ℕ) → slice_index_or costs.new.items r 1 ≡ 0 → IsSameRow (O.screen old.now) (N.screen new.now) r) }
{
    for row in 0..new.rows() {
        costs.push(difference_of(old.row(row), new.row(row)))?;
    }
    Ok(())
}

// Computes the cost of each row that differs.
fn weigh<O: Seen, N: Seen>(costs: &mut [u32], old: &O, new: &N)
    requires rows { (O.screen old.now).rows ≡ (N.screen new.now).rows }
    requires cols { (O.screen old.now).cols ≡ (N.screen new.now).cols }
    requires len { length costs.old ≡ (N.screen new.now).rows }
    ensures kept { KeepsCosts costs.old costs.new }
{
    for row in 0..new.rows() {
        if costs[usize::from(row)] != 0 {
            costs[usize::from(row)] = cost_of(old.row(row), new.row(row));
        }
    }
}

// The sum of the costs from one row on and before another.
fn sum_of(costs: &[u32], from: usize, to: usize) -> u32
    requires inside { to ≤ length costs.now }
{
    let mut sum = 0u32;
    for row in from..to {
        sum = sum.saturating_add(costs[row]);
    }
    sum
}

fn sum_bare<N: Seen>(new: &N, from: u16, to: u16) -> u32
    requires inside { to ≤ (N.screen new.now).rows }
{
    let mut sum = 0u32;
    for row in from..to {
        sum = sum.saturating_add(bare_cost(new.row(row)));
    }
    sum
}

// How many rows before a new row and an old one are the same, down to a first row.
fn alike_before<O: Seen, N: Seen>(old: &O, new: &N, from: u16, row: u16, first: u16) -> u16
    requires rows { (from < (O.screen old.now).rows) × (row < (N.screen new.now).rows) }
    requires first { (first ≤ from) × (first ≤ row) }
    ensures inside { (first + result ≤ from) × (first + result ≤ row) }
{
    let mut count = 0u16;
    while first + count < from
        && first + count < row
        && is_same_row(old, from - count - 1, new, row - count - 1)
    {
        count += 1;
    }
    count
}

// How many rows behind a new row and an old one are the same, up to the row before an end.
fn alike_after<O: Seen, N: Seen>(old: &O, new: &N, from: u16, row: u16, end: u16) -> u16
    requires end { (end ≤ (O.screen old.now).rows) × (end ≤ (N.screen new.now).rows) }
    requires rows { (from < end) × (row < end) }
    ensures inside { (from + result < end) × (row + result < end) }
{
    let mut count = 0u16;
    while count + 1 < end - from
        && count + 1 < end - row
        && is_same_row(old, from + count + 1, new, row + count + 1)
    {
        count += 1;
    }
    count
}

// Returns the band that brings an old row to an equal new one, with all rows beside it that are equal too.
fn band_of<O: Seen, N: Seen>(old: &O, new: &N, changed: Changed, from: u16, row: u16) -> Band
    requires inside { (changed.to ≤ (O.screen old.now).rows) × (changed.to ≤ (N.screen new.now).rows) }
    requires from { (changed.from ≤ from) × (from < changed.to) }
    requires row { (changed.from ≤ row) × (row < changed.to) }
    requires other { from ≢ row }
    ensures band { IsBand (N.screen new.now).rows result }
{
    let before = alike_before(old, new, from, row, changed.from);
    let after = alike_after(old, new, from, row, changed.to);
    Band {
        top: from.min(row) - before,
        bottom: from.max(row) + after + 1,
        count: from.max(row) - from.min(row),
        up: row < from,
    }
}

// Returns the saving of a band: the cost of its rows if they stay, without that of the rows that come in blank.
fn gain_of<N: Seen>(new: &N, costs: &[u32], band: Band) -> u32
    requires band { IsBand (N.screen new.now).rows band }
    requires costs { length costs.now ≡ (N.screen new.now).rows }
{
    let height = band.bottom - band.top;
    let fresh = band.count.min(height);
    let all = sum_of(costs, usize::from(band.top), usize::from(band.bottom));
    let bare = if band.up {
        sum_bare(new, band.bottom - fresh, band.bottom)
    } else {
        sum_bare(new, band.top, band.top + fresh)
    };
    all.saturating_sub(bare)
}

// The better of the best band so far and the one that brings an old row to a new one.
fn better<O: Seen, N: Seen>(
    old: &O,
    new: &N,
    costs: &[u32],
    changed: Changed,
    from: u16,
    row: u16,
    best: Found,
) -> Found
    requires inside { (changed.to ≤ (O.screen old.now).rows) × (changed.to ≤ (N.screen new.now).rows) }
    requires from { (changed.from ≤ from) × (from < changed.to) }
    requires row { (changed.from ≤ row) × (row < changed.to) }
    requires other { from ≢ row }
    requires costs { length costs.now ≡ (N.screen new.now).rows }
    requires best { FitsBand (N.screen new.now).rows best.band }
    ensures band { FitsBand (N.screen new.now).rows result.band }
{
    let band = band_of(old, new, changed, from, row);
    let gain = gain_of(new, costs, band);
    if gain <= best.gain {
        return best;
    }
    Found {
        band: Some(band),
        gain,
    }
}

// The best band among those that bring one of the first two old rows which are the same to a new row.
fn best_for<O: Seen, N: Seen>(
    old: &O,
    new: &N,
    costs: &[u32],
    changed: Changed,
    row: u16,
    best: Found,
) -> Found
    requires inside { (changed.to ≤ (O.screen old.now).rows) × (changed.to ≤ (N.screen new.now).rows) }
    requires row { (changed.from ≤ row) × (row < changed.to) }
    requires costs { length costs.now ≡ (N.screen new.now).rows }
    requires best { FitsBand (N.screen new.now).rows best.band }
    ensures band { FitsBand (N.screen new.now).rows result.band }
{
    let mut found = best;
    let mut left = 2u8;
    for from in changed.from..changed.to {
        if left == 0 {
            return found;
        }
        if from != row && is_same_row(old, from, new, row) {
            found = better(old, new, costs, changed, from, row, found);
            left -= 1;
        }
    }
    found
}

// The first row that differs, and the row behind the last.
fn changed_of(costs: &[u32]) -> Changed
    requires few { length costs.now < 1000 }
    ensures inside { result.to ≤ length costs.now }
{
    let mut from = costs.len();
    let mut to = 0usize;
    for row in 0..costs.len() {
        if costs[row] != 0 {
            from = from.min(row);
            to = row + 1;
        }
    }
    Changed {
        from: from as u16,
        to: to as u16,
    }
}

// Of the rows that differ the one at a place among them, from 0.
fn row_at(costs: &[u32], place: u32) -> u16
    requires few { length costs.now < 1000 }
{
    let mut left = place;
    for row in 0..costs.len() {
        if costs[row] != 0 {
            if left == 0 {
                return row as u16;
            }
            left -= 1;
        }
    }
    0
}

fn count_of(costs: &[u32]) -> u32
    requires few { length costs.now < 1000 }
    ensures few { result ≤ length costs.now }
{
    let mut count = 0u32;
    for row in 0..costs.len() {
        if costs[row] != 0 {
            count += 1;
        }
    }
    count
}

// The best band for three of the rows that differ.
fn best_of<O: Seen, N: Seen>(old: &O, new: &N, costs: &[u32]) -> Found
    requires size { (O.screen old.now).rows ≡ (N.screen new.now).rows }
    requires costs { length costs.now ≡ (N.screen new.now).rows }
    ensures band { FitsBand (N.screen new.now).rows result.band }
{
    new.facts();
    let changed = changed_of(costs);
    let count = count_of(costs);
    let mut best = Found {
        band: None,
        gain: LEAST_GAIN,
    };
    if changed.to.saturating_sub(changed.from) < 2 {
        return best;
    }
    for quarter in 1..4u32 {
        let row = row_at(costs, count * quarter / 4);
        if changed.from <= row && row < changed.to && bare_cost(new.row(row)) != 0 {
            best = best_for(old, new, costs, changed, row, best);
        }
    }
    best
}

/// Returns the band to move, if one saves more than its move costs, by the costs of the rows.
pub fn choose<O: Seen, N: Seen>(old: &O, new: &N, costs: &[u32]) -> Option<Band>
    ensures band { FitsBand (N.screen new.now).rows result }
{
    if !is_same_size(old, new) || costs.len() != usize::from(new.rows()) {
        return None;
    }
    if sum_of(costs, 0, costs.len()) < LEAST_COST {
        return None;
    }
    best_of(old, new, costs).band
}

/// Returns true if no band moves and a row is known to have the right cells.
pub fn is_known(band: Option<Band>, costs: &[u32], row: u16) -> bool
    ensures none { result ≡ true → band ≡ None }
    ensures cost { result ≡ true → slice_index_or costs.now row 1 ≡ 0 }
{
    if let Some(_) = band {
        return false;
    }
    usize::from(row) < costs.len() && costs[usize::from(row)] == 0
}
