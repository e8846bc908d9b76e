//! The rows that files give.
ghost use Rattle.std.specs.Prelude.{◌≡◌, ◌≤◌, ◌+◌, ℕ, true, false, IfErr, IfOk, List, MatchOption, OnOk, Some, length};
ghost use Rattle.std.specs.Option.{option_map};
ghost use Rattle.roam_row_files.specs.Changes.{RowChange, after, after_all, checks, said};
ghost use Rattle.roam_row_files.specs.Reading.{IsLastCheck, Reads, check_of, is_check};
ghost use Rattle.roam_stored_rows.specs.Rows.{bytes_of};

use crate::changes::{Change, Checkpoint};
use crate::records::front;
use roam_stored_rows::{StoreFault, StoredRows};

// A segment begins with the row of this number.
fn begin(rows: &mut StoredRows, number: u64)
    ensures after { rows.new ≡ after (RowChange.begins number) rows.old }
{
    if number != rows.end() {
        rows.begin(number);
    }
}

// Withdraws the rows from a number on.
fn withdraw(rows: &mut StoredRows, end: u64)
    ensures after { rows.new ≡ after (RowChange.withdraws end) rows.old }
{
    if end < rows.first() {
        rows.begin(end);
    } else {
        let count = rows.end().saturating_sub(end);
        rows.withdraw(count);
    }
}

// Makes a change.
fn apply(rows: &mut StoredRows, change: Change<'_>) -> Result<(), StoreFault>
    ensures after { OnOk result (rows.new ≡ after (said change.entry) rows.old) }
    ensures faults { IfErr result (λ e. e ≡ StoreFault.OutOfMemory) }
{
    match change {
        Change::Begin(number) => begin(rows, number),
        Change::Append(wrap, text) => rows.push(wrap, text)?,
        Change::Withdraw(end) => withdraw(rows, end),
        Change::Clear => rows.clear(),
        Change::Forget(first) => {
            let count = first.saturating_sub(rows.first());
            rows.forget(count);
        }
        Change::Check(_) => (),
    }
    Ok(())
}

/// Reads the changes of the whole records at the front of bytes, in order, and makes them. Returns how many bytes these records have: a writer
/// cuts the file to this length and goes on. The bytes of the rows' lines grow by no more than that. Refuses want of memory.
pub fn replay(rows: &mut StoredRows, bytes: &[u8]) -> Result<usize, StoreFault>
    ensures rows { IfOk result (λ end. (changes : List RowChange) × Reads bytes.now changes end × (rows.new ≡ after_all changes rows.old)) }
    ensures within { IfOk result (λ end. end ≤ length bytes.now) }
    ensures faults { IfErr result (λ e. e ≡ StoreFault.OutOfMemory) }
    ensures light { IfOk result (λ end. bytes_of rows.new.rows ≤ bytes_of rows.old.rows + end) }
{
    let mut end = 0;
    while let Some((change, size)) = front(bytes.split_at(end).1) {
        apply(rows, change)?;
        end += size;
    }
    Ok(end)
}

// The checkpoint of a change that is one.
fn checkpoint_of(change: Change<'_>) -> Option<Checkpoint<'_>>
    ensures check { MatchOption result (is_check (said change.entry) ≡ false)
        (λ p. (is_check (said change.entry) ≡ true) × (said change.entry ≡ checks p.count p.rows p.cols p.text.now)) }
{
    match change {
        Change::Begin(_) => None,
        Change::Append(_, _) => None,
        Change::Withdraw(_) => None,
        Change::Clear => None,
        Change::Forget(_) => None,
        Change::Check(point) => Some(point),
    }
}

// A checkpoint, if there is one, with its end; else an earlier one.
fn later<'a>(
    point: Option<Checkpoint<'a>>,
    end: usize,
    found: Option<(Checkpoint<'a>, usize)>,
) -> Option<(Checkpoint<'a>, usize)>
    ensures later { MatchOption point.entry (result ≡ found.entry) (λ p. result ≡ Some (p, end)) }
{
    match point {
        Some(point) => Some((point, end)),
        None => found,
    }
}

/// Searches the changes that are read of bytes for the last checkpoint. Returns it, and how many bytes the records have that end with its own:
/// a process that starts again replays these, and goes on from the checkpoint.
pub fn last_checkpoint(bytes: &[u8]) -> Option<(Checkpoint<'_>, usize)>
    ensures last { (changes : List RowChange) (end : ℕ) → Reads bytes.now changes end → IsLastCheck changes (option_map check_of result) }
{
    let mut end = 0;
    let mut found = None;
    while let Some((change, size)) = front(bytes.split_at(end).1) {
        end += size;
        found = later(checkpoint_of(change), end, found);
    }
    found
}
