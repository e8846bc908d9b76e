//! Instructions: bytes put together by hand.
use crate::texts::{bytes_of, reads_numbers, short, word_of};
use roam_acts::Act;
use roam_cells::Fault;
use roam_wire::{Down, Up, read_down, read_up, write_down, write_up};
use std::alloc::Global;
use std::test::*;

// Old number, new number, floor, acts acknowledged, and whether they are within their limits.
const DOWNS: &str = "\
0 5 0 0: read
3 3 3 7: read
1 2 1 3: read
2^62-1 2^62-1 2^62-1 2^62-1: read
1 0 0 0: length
0 0 1 0: length
4 5 5 0: length
0 2^62 0 0: length
2^62 2^62 2^62 0: length
0 0 0 2^62: length";

// State acknowledged, first act, count of acts, whether that is an instruction, and the bytes of the acts.
const UPS: &str = "\
0 1 0: read -
4 9 0: read -
9 1 1: read 14
0 7 3: read 0100000061130912
2^62-1 1 0: read -
2^62 1 0: length -
0 2^62-1 2: read 1414
0 2^62 0: length -
0 0 0: length -
0 1 0: length 14
0 1 1: length -
0 1 1: length 1414
0 1 2: length 14
0 1 1: length 130a
0 1 1: length 18";

fn down_by_hand(alloc: Global, row: [u64; 4]) -> Result<Vec<u8>, Fault> {
    let mut text = Vec::new(alloc);
    for number in row {
        text.extend_from_slice(&number.to_be_bytes())?;
    }
    text.extend_from_slice(b"change")?;
    Ok(text)
}

// Returns true if an instruction has these numbers, and the rest of its text as its diff.
fn has_numbers(down: &Down, row: [u64; 4], bytes: &[u8]) -> bool {
    [down.old, down.new, down.floor, down.acked] == row
        && bytes.get(32..) == Some(down.change.as_slice())
}

// Returns true if the bytes are an instruction to a client with these numbers, or are refused, as expected.
fn is_down(alloc: Global, bytes: &[u8], row: [u64; 4], told: &str) -> bool {
    match read_down(alloc, bytes) {
        Err(fault) => word_of(fault) == told,
        Ok(down) => match write_down(alloc, &down) {
            Ok(text) => told == "read"
                && text.as_slice() == bytes
                && has_numbers(&down, row, bytes),
            Err(_) => false,
        },
    }
}

fn holds_down(alloc: Global, line: &str) -> bool {
    let mut row = [0; 4];
    if let Some((numbers, told)) = line.split_once(": ")
        && reads_numbers(numbers, &mut row)
        && let Ok(text) = down_by_hand(alloc, row)
    {
        return is_down(alloc, &text, row, told);
    }
    false
}

// Returns true if each beginning is refused before the diff, and is an instruction from there on.
fn downs_begin(alloc: Global) -> bool {
    let row = [1, 2, 1, 3];
    let Ok(text) = down_by_hand(alloc, row) else {
        return false;
    };
    for len in 0..text.len() {
        let told = if len < 32 { "short" } else { "read" };
        if !is_down(alloc, text.split_at(len).0, row, told) {
            return false;
        }
    }
    true
}

fn up_by_hand(alloc: Global, row: [u64; 3], acts: &[u8]) -> Result<Vec<u8>, Fault> {
    let [acked, first, count] = row;
    let mut text = Vec::new(alloc);
    text.extend_from_slice(&acked.to_be_bytes())?;
    text.extend_from_slice(&first.to_be_bytes())?;
    text.extend_from_slice(&short(count).to_be_bytes())?;
    text.extend_from_slice(acts)?;
    Ok(text)
}

fn has_row(up: &Up, row: [u64; 3]) -> bool {
    [up.acked, up.first, up.acts.len() as u64] == row
}

/// Returns true if the bytes are an instruction to the server with these numbers and so many acts, or are refused, as expected.
pub fn is_up(alloc: Global, bytes: &[u8], row: [u64; 3], told: &str) -> bool {
    match read_up(alloc, bytes, false) {
        Err(fault) => word_of(fault) == told,
        Ok(up) => match write_up(alloc, &up) {
            Ok(text) => told == "read" && text.as_slice() == bytes && has_row(&up, row),
            Err(_) => false,
        },
    }
}

// Returns the same of a read-only instance: an instruction is one only without acts.
fn is_watchers(alloc: Global, bytes: &[u8], row: [u64; 3], told: &str) -> bool {
    let told = if row[2] == 0 { told } else { "length" };
    match read_up(alloc, bytes, true) {
        Err(fault) => word_of(fault) == told,
        Ok(up) => told == "read" && has_row(&up, row),
    }
}

fn holds_up(alloc: Global, line: &str) -> bool {
    let mut row = [0; 3];
    if let Some((numbers, rest)) = line.split_once(": ")
        && let Some((told, digits)) = rest.split_once(' ')
        && reads_numbers(numbers, &mut row)
        && let Some(acts) = bytes_of(alloc, digits)
        && let Ok(text) = up_by_hand(alloc, row, &acts)
    {
        return is_up(alloc, &text, row, told) && is_watchers(alloc, &text, row, told);
    }
    false
}

// Returns true if each beginning is refused.
fn ups_begin(alloc: Global) -> bool {
    let row = [0, 7, 3];
    let acts = [0x01, 0, 0, 0, 0x61, 0x13, 9, 0x12];
    let Ok(text) = up_by_hand(alloc, row, &acts) else {
        return false;
    };
    for len in 0..text.len() {
        let told = if len < 18 { "short" } else { "length" };
        if !is_up(alloc, text.split_at(len).0, row, told) {
            return false;
        }
    }
    true
}

fn is_one_of(alloc: Global, acts: &[u8], told: &str) -> bool {
    let row = [0, 1, acts.len() as u64];
    match up_by_hand(alloc, row, acts) {
        Ok(text) => is_up(alloc, &text, row, told),
        Err(_) => false,
    }
}

// Returns true if these bytes are read as 64 acts, each of which goes to the next pane.
fn are_next(alloc: Global, acts: &[u8]) -> bool {
    match up_by_hand(alloc, [0, 1, 64], acts) {
        Ok(text) =>
            matches!(read_up(alloc, &text, false), Ok(up) if up.acts.as_slice() == [Act::Next; 64].as_slice()),
        Err(_) => false,
    }
}

fn first_wrong(alloc: Global) -> Option<&'static str> {
    for line in DOWNS.lines() {
        if !holds_down(alloc, line) {
            return Some(line);
        }
    }
    for line in UPS.lines() {
        if !holds_up(alloc, line) {
            return Some(line);
        }
    }
    None
}

#[test]
fn instructions_are_read_or_refused(rt: HostRuntime) {
    assert_eq!(rt; first_wrong(rt.alloc()), None);
    assert!(rt; downs_begin(rt.alloc()) && ups_begin(rt.alloc()));
}

#[test]
fn at_most_64_acts(rt: HostRuntime) {
    assert!(rt; is_one_of(rt.alloc(), &[0x14; 64], "read"));
    assert!(rt; is_one_of(rt.alloc(), &[0x14; 65], "length"));
    assert!(rt; are_next(rt.alloc(), &[0x14; 64]));
}
