//! How many bytes the lines of rows have, and how many rows are within limits.
ghost use Rattle.std.specs.Prelude.{◌≡◌, ◌+◌, ◌-◌, ◌^◌, ◌<◌, ◌≤◌, ◌⊎◌, ◌++◌, ℕ, OnOk, SomeIff, drop, length, take};
ghost use Rattle.roam_stored_rows.specs.Ends.{IsWithin};
ghost use Rattle.roam_stored_rows.specs.Pages.{IsFit, lines_of};
ghost use Rattle.roam_stored_rows.specs.Rows.{bytes_of, line_of, size_of};

use crate::row_chunks::RowChunks;
use crate::wraps::Wrap;
use std::alloc::AllocError;

/// The bytes of the lines of the rows from one place up to another.
pub(crate) fn bytes_between(rows: &RowChunks, from: usize, to: usize) -> u64
    requires place { from ≤ to }
    requires end { to ≤ length rows.now }
    requires fits { bytes_of rows.now < 2 ^ 64 }
    ensures bytes { result ≡ bytes_of (take (to - from) (drop from rows.now)) }
{
    let mut bytes = 0u64;
    for next in from..to {
        bytes += rows.text_at(next).len() as u64 + 2;
    }
    bytes
}

/// How many of the oldest rows are above these limits, and the bytes of the lines of the others.
pub(crate) fn above(rows: &RowChunks, bytes: u64, most_rows: u64, most_bytes: u64) -> (usize, u64)
    requires bytes { bytes ≡ bytes_of rows.now }
    ensures count { result.0 ≤ length rows.now }
    ensures bytes { result.1 ≡ bytes_of (drop result.0 rows.now) }
    ensures within { IsWithin most_rows most_bytes (drop result.0 rows.now) }
    ensures fewest { (k : ℕ) → k < result.0 → (most_rows < length (drop k rows.now)) ⊎ (most_bytes < bytes_of (drop k rows.now)) }
{
    let mut count = 0;
    let mut left = bytes;
    while count < rows.len() && (most_rows < (rows.len() - count) as u64 || most_bytes < left) {
        left -= rows.text_at(count).len() as u64 + 2;
        count += 1;
    }
    (count, left)
}

/// How many of these rows are read under a limit of bytes.
pub(crate) fn fit(rows: &RowChunks, at: usize, end: usize, most: u64) -> usize
    requires place { at ≤ end }
    requires end { end ≤ length rows.now }
    requires fits { bytes_of rows.now < 2 ^ 64 }
    ensures fit { IsFit most (take (end - at) (drop at rows.now)) result }
{
    let mut bytes = 0u64;
    let mut next = at;
    while next < end {
        bytes += rows.text_at(next).len() as u64 + 2;
        if most < bytes && at < next {
            return next - at;
        }
        next += 1;
    }
    next - at
}

// Adds the line of a row.
fn push_line(out: &mut Vec<u8>, wrap: Wrap, text: &[u8]) -> Result<(), AllocError>
    ensures line { OnOk result (out.new.items ≡ out.old.items ++ line_of (record { wrap = wrap; text = text.now })) }
    ensures kept { take (length out.old.items) out.new.items ≡ out.old.items }
{
    out.push(if wrap.is_on() { b'+' } else { b' ' })?;
    out.extend_from_slice(text)?;
    out.push(b'\n')?;
    Ok(())
}

/// Adds the lines of these rows.
pub(crate) fn push_lines(
    rows: &RowChunks,
    at: usize,
    end: usize,
    out: &mut Vec<u8>,
) -> Result<(), AllocError>
    requires place { at ≤ end }
    requires end { end ≤ length rows.now }
    ensures lines { OnOk result (out.new.items ≡ out.old.items ++ lines_of (take (end - at) (drop at rows.now))) }
    ensures kept { take (length out.old.items) out.new.items ≡ out.old.items }
{
    for next in at..end {
        push_line(out, rows.wrap_at(next), rows.text_at(next))?;
    }
    Ok(())
}
