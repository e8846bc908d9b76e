//! A caller of `roam_row_files`, as its README shows it (`tools/worked_callers`).

// README: begin
use roam_row_files::{Change, push_change, replay};
use roam_stored_rows::{StoreFault, StoredRows, Wrap};
use std::alloc::Global;

/// Returns the rows of a segment that lost its last byte. It goes on with a third row.
pub fn continued(alloc: Global) -> Result<StoredRows, StoreFault> {
    let mut file = Vec::new(alloc);
    push_change(alloc, &mut file, Change::Begin(7))?;
    push_change(alloc, &mut file, Change::Append(Wrap::Ends, b"first"))?;
    push_change(alloc, &mut file, Change::Append(Wrap::Ends, b"second"))?;
    file.pop();
    let mut rows = StoredRows::new(alloc, 0);
    let end = replay(&mut rows, &file)?; // the first row alone
    file.truncate(end);
    push_change(alloc, &mut file, Change::Append(Wrap::Ends, b"third"))?;
    rows.push(Wrap::Ends, b"third")?;
    Ok(rows)
}
// README: end
