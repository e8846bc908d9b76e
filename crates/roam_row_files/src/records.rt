//! The records of changes.
ghost use Rattle.std.specs.Prelude.{◌≡◌, ◌^◌, ◌<◌, ◌≤◌, ◌+◌, ◌∷◌, ◌++◌, IfOk, IfSome, length, take, MatchOption, None, OnErr, OnOk, Some};
ghost use Rattle.byteorder.specs.Endian.{big_bytes};
ghost use Rattle.roam_row_files.specs.Changes.{RowChange, appends, checks, said};
ghost use Rattle.roam_row_files.specs.Records.{NumbersFit, adler, change_in, check_in, front_of, numbered, payload_of, record_of, short_change_in, wrap_byte};

use crate::changes::{Change, Checkpoint};
use byteorder::{BigEndian, ByteOrder};
use roam_stored_rows::Wrap;
use std::alloc::{AllocError, Global};

/// The most bytes of a segment: a writer that would exceed them begins another one.
pub const SEGMENT_BYTES: usize = 1_048_576;

// The Adler-32 checksum.
fn checksum(bytes: &[u8]) -> u32
    ensures sum { result ≡ adler bytes.now }
{
    let mut low = 1u32;
    let mut high = 0u32;
    for byte in bytes {
        low = (low + *byte as u32) % 65521;
        high = (high + low) % 65521;
    }
    high * 65536 + low
}

// The head of a record.
fn head_of(size: u32, check: u32) -> [u8; 8]
    ensures head { result ≡ big_bytes 4 size ++ big_bytes 4 check }
{
    let mut head = [0u8; 8];
    BigEndian::write_u32(&mut head, size);
    BigEndian::write_u32(&mut head[4..], check);
    head
}

// Adds a letter and a number.
fn push_number(payload: &mut Vec<u8>, kind: u8, number: u64) -> Result<(), AllocError>
    ensures payload { OnOk result (payload.new.items ≡ payload.old.items ++ kind ∷ big_bytes 8 number) }
{
    let mut bytes = [0u8; 8];
    BigEndian::write_u64(&mut bytes, number);
    payload.push(kind)?;
    payload.extend_from_slice(&bytes)?;
    Ok(())
}

// The first byte of a row that ends so.
fn wrap_byte(wrap: Wrap) -> u8
    ensures byte { result ≡ wrap_byte wrap }
{
    match wrap {
        Wrap::Ends => b' ',
        Wrap::Full => b'+',
        Wrap::Early => b'>',
    }
}

// Adds a row.
fn push_row(payload: &mut Vec<u8>, wrap: Wrap, text: &[u8]) -> Result<(), AllocError>
    ensures payload { OnOk result (payload.new.items ≡ payload.old.items ++ payload_of (appends (record { wrap = wrap; text = text.now }))) }
{
    payload.push(wrap_byte(wrap))?;
    payload.extend_from_slice(text)?;
    Ok(())
}

// The two numbers of a size.
fn size_of(rows: u16, cols: u16) -> [u8; 4]
    ensures size { result ≡ big_bytes 2 rows ++ big_bytes 2 cols }
{
    let mut size = [0u8; 4];
    BigEndian::write_u16(&mut size, rows);
    BigEndian::write_u16(&mut size[2..], cols);
    size
}

// Adds a checkpoint.
fn push_check(payload: &mut Vec<u8>, point: Checkpoint<'_>) -> Result<(), AllocError>
    ensures payload { OnOk result (payload.new.items ≡ payload.old.items
        ++ payload_of (checks point.entry.count point.entry.rows point.entry.cols point.entry.text.now)) }
{
    push_number(payload, b'K', point.count)?;
    payload.extend_from_slice(&size_of(point.rows, point.cols))?;
    payload.extend_from_slice(point.text)?;
    Ok(())
}

// Adds the bytes of a change.
fn push_payload(payload: &mut Vec<u8>, change: Change<'_>) -> Result<(), AllocError>
    ensures payload { OnOk result (payload.new.items ≡ payload.old.items ++ payload_of (said change.entry)) }
{
    match change {
        Change::Begin(number) => push_number(payload, b'B', number),
        Change::Append(wrap, text) => push_row(payload, wrap, text),
        Change::Withdraw(end) => push_number(payload, b'W', end),
        Change::Clear => {
            payload.push(b'C')?;
            Ok(())
        }
        Change::Forget(first) => push_number(payload, b'F', first),
        Change::Check(point) => push_check(payload, point),
    }
}

// Adds the bytes of a change behind their length and checksum.
fn push_record(out: &mut Vec<u8>, payload: &[u8]) -> Result<(), AllocError>
    ensures added { OnOk result ((change : RowChange) → payload.now ≡ payload_of change → out.new.items ≡ out.old.items ++ record_of change) }
    ensures size { OnOk result (length payload.now < 2 ^ 32) }
    ensures kept { take (length out.old.items) out.new.items ≡ out.old.items }
{
    if 0xffff_ffff < payload.len() {
        return Err(AllocError);
    }
    out.extend_from_slice(&head_of(payload.len() as u32, checksum(payload)))?;
    out.extend_from_slice(payload)?;
    Ok(())
}

/// Adds the record of a change. Refuses a text of 2^32 bytes or more, and want of memory, and adds nothing then.
pub fn push_change(alloc: Global, out: &mut Vec<u8>, change: Change<'_>) -> Result<(), AllocError>
    ensures ok { OnOk result (out.new.items ≡ out.old.items ++ record_of (said change.entry)) }
    ensures fits { OnOk result (NumbersFit (said change.entry)) }
    ensures err { OnErr result (out.new.items ≡ out.old.items) }
{
    let before = out.len();
    let mut payload = Vec::new(alloc);
    push_payload(&mut payload, change)?;
    if push_record(out, &payload).is_err() {
        out.truncate(before);
        return Err(AllocError);
    }
    Ok(())
}

// The change of a letter and a number.
fn numbered(kind: u8, number: u64) -> Option<Change<'static>>
    ensures change { MatchOption result (numbered kind number ≡ None) (λ change. numbered kind number ≡ Some (said change)) }
    ensures size { IfSome result (λ change. length (payload_of (said change)) ≡ 9) }
{
    match kind {
        b'B' => Some(Change::Begin(number)),
        b'W' => Some(Change::Withdraw(number)),
        b'F' => Some(Change::Forget(number)),
        _ => None,
    }
}

// The checkpoint that these bytes spell behind their letter.
fn check_in(rest: &[u8]) -> Option<Change<'_>>
    ensures change { MatchOption result (check_in rest.now ≡ None) (λ change. check_in rest.now ≡ Some (said change)) }
    ensures size { IfSome result (λ change. length (payload_of (said change)) ≡ length rest.now + 1) }
{
    if rest.len() < 12 {
        return None;
    }
    Some(Change::Check(Checkpoint {
        count: BigEndian::read_u64(rest),
        rows: BigEndian::read_u16(rest.split_at(8).1),
        cols: BigEndian::read_u16(rest.split_at(10).1),
        text: rest.split_at(12).1,
    }))
}

// The change of a letter, and of a number if one follows.
fn short_change_in(kind: u8, rest: &[u8]) -> Option<Change<'static>>
    ensures change { MatchOption result (short_change_in kind rest.now ≡ None) (λ change. short_change_in kind rest.now ≡ Some (said change)) }
    ensures size { IfSome result (λ change. length (payload_of (said change)) ≡ length rest.now + 1) }
{
    if rest.is_empty() {
        return if kind == b'C' {
            Some(Change::Clear)
        } else {
            None
        };
    }
    if rest.len() != 8 {
        return None;
    }
    numbered(kind, BigEndian::read_u64(rest))
}

// The change that these bytes spell.
fn change_in(payload: &[u8]) -> Option<Change<'_>>
    ensures change { MatchOption result (change_in payload.now ≡ None) (λ change. change_in payload.now ≡ Some (said change)) }
    ensures size { IfSome result (λ change. length (payload_of (said change)) ≡ length payload.now) }
{
    let (kind, rest) = payload.split_first()?;
    match *kind {
        b' ' => Some(Change::Append(Wrap::Ends, rest)),
        b'+' => Some(Change::Append(Wrap::Full, rest)),
        b'>' => Some(Change::Append(Wrap::Early, rest)),
        b'K' => check_in(rest),
        _ => short_change_in(*kind, rest),
    }
}

/// Reads the first record of bytes: its change, and its length. Returns None if no whole record with a right checksum begins them.
pub fn front(bytes: &[u8]) -> Option<(Change<'_>, usize)>
    ensures front { MatchOption result (front_of bytes.now ≡ None) (λ r. front_of bytes.now ≡ Some (said r.0, r.1)) }
    ensures within { IfSome result (λ r. (0 < r.1) × (r.1 ≤ length bytes.now)) }
    ensures size { IfSome result (λ r. r.1 ≡ length (record_of (said r.0))) }
{
    if bytes.len() < 8 {
        return None;
    }
    let size = BigEndian::read_u32(bytes) as usize;
    let check = BigEndian::read_u32(bytes.split_at(4).1);
    let rest = bytes.split_at(8).1;
    if rest.len() < size {
        return None;
    }
    let payload = rest.split_at(size).0;
    if checksum(payload) != check {
        return None;
    }
    let change = change_in(payload)?;
    Some((change, 8 + size))
}
