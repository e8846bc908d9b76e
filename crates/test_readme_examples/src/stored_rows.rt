//! A caller of `roam_stored_rows`, as its README shows it (`tools/worked_callers`).

// README: begin
use roam_stored_rows::{StoreFault, StoredRows, Way, Wrap};
use std::alloc::Global;

/// Returns the number of the last row with a word, of the newest 1,000.
pub fn last_with(alloc: Global, lines: &[&[u8]], word: &[u8]) -> Result<Option<u64>, StoreFault> {
    let mut rows = StoredRows::new(alloc, 0);
    for line in lines {
        rows.push(Wrap::Ends, line)?;
        rows.limit(1000, 1_000_000);
    }
    rows.find(rows.first(), rows.end(), Way::Back, word)
}
// README: end
