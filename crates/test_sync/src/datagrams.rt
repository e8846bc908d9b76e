//! Datagrams: bytes put together by hand, each fault in its order.
ghost use Rattle.std.specs.Prelude.{◌<◌};

use crate::instructions::is_up;
use crate::texts::{bytes_of, reads_numbers, word_of};
use roam_wire::{Datagram, Kind, Version, read_datagram, write_datagram};
use std::alloc::Global;
use std::test::*;

/// The first datagram of a client: nothing is acknowledged, and no act was typed.
static FIRST: [u8; 60] = [
    0x52, 0x4d, 1, 2, 0, 0, 0, 0, 0, 0, 0, 1, 0, 0, 0, 0, 0, 0, 0, 0xa1, 0, 0, 0, 0, 0, 0, 0, 1, 0,
    0, 0, 0, 0, 0, 0, 1, 0, 0, 0, 1, 0, 18, 0, 0, 0, 0, 0, 0, 0, 0, 0, 0, 0, 0, 0, 0, 0, 1, 0, 0,
];

// Changes of its bytes: the first place, the number of changed bytes, the number of bytes 7 after them, the reason of the refusal, and the
// bytes. The last seven have two faults, of which the first is reported.
const CHANGED: &str = "\
0 60 0: none -
0 41 0: short -
0 42 0: length -
0 59 0: length -
0 60 0: magic 53
1 60 0: magic 4c
2 60 0: version 00
2 60 0: none 02
2 60 0: none 0203
2 60 0: kind 0204
2 60 0: kind 0200
2 60 0: version 03
3 60 0: kind 00
3 60 0: none 01
3 60 0: kind 03
40 60 0: length 0000
40 42 0: length 0000
40 60 0: length 0011
40 60 0: length 0013
36 60 0: fragment 0001
36 60 0: fragment 00000000
36 60 0: fragment 00000002
36 60 0: none 00010002
36 60 0: none 03ff0400
36 60 0: fragment 04000400
36 60 0: fragment 04000401
20 60 0: fragment 0000000000000000
20 60 0: none 3fffffffffffffff
20 60 0: fragment 4000000000000000
28 60 0: fragment 0000000000000000
28 60 0: none 3fffffffffffffff
28 60 0: fragment 4000000000000000
4 60 0: none 00000000000000000000000000000000
4 60 0: none ffffffffffffffffffffffffffffffff
0 41 0: short 00
1 60 0: magic 0003
2 60 0: version 0303
3 59 0: kind 03
36 59 0: length 0001
36 60 0: length 000100010011
1 59 0: magic 00";

// The index of a fragment, how many there are, and the length of its payload, of which 1,200 bytes (04b0) are the most.
const LENGTHS: &str = "\
36 42 1: none 000000010001
36 42 1200: none 0000000104b0
36 42 1201: length 0000000104b1
36 42 1199: fragment 0000000204af
36 42 1200: none 0000000204b0
36 42 1: none 000100020001
36 42 1200: none 0001000204b0
36 42 1199: fragment 03fe040004af
36 42 1200: none 03ff040004b0
36 42 1200: fragment 0400040104b0";

// The last of 4,096 fragments, or of 4,097: version 2 allows four times as many, and an instance that only watches.
const LAST: &str = "\
2 60 0: fragment 0102000000000000000100000000000000a1000000000000000100000000000000010fff1000
2 60 0: none 0202000000000000000100000000000000a1000000000000000100000000000000010fff1000
2 60 0: none 0203000000000000000100000000000000a1000000000000000100000000000000010fff1000
2 60 0: fragment 0203000000000000000100000000000000a1000000000000000100000000000000010fff1001";

// Returns true if the bytes are read as expected, and the datagram that is read has these bytes.
fn reads(alloc: Global, bytes: &[u8], told: &str) -> bool {
    match read_datagram(alloc, bytes) {
        Err(fault) => word_of(fault) == told,
        Ok(datagram) => match write_datagram(alloc, &datagram) {
            Ok(text) => told == "none" && text.as_slice() == bytes,
            Err(_) => false,
        },
    }
}

// The first datagram with other bytes from a place on.
fn changed(at: usize, change: &[u8]) -> [u8; 60] {
    let mut bytes = FIRST;
    for place in 0..60usize {
        if place >= at && place - at < change.len() {
            bytes[place] = change[place - at];
        }
    }
    bytes
}

fn bytes_by_hand(alloc: Global, row: [u64; 3], digits: &str) -> Option<Vec<u8>> {
    let [at, len, more] = row;
    let bytes = changed(at as usize, &bytes_of(alloc, digits)?);
    let mut text = Vec::from_slice(alloc, bytes.split_at(len.min(60) as usize).0).ok()?;
    for _ in 0..more {
        text.push(7).ok()?;
    }
    Some(text)
}

fn holds(alloc: Global, line: &str) -> bool {
    let mut row = [0; 3];
    if let Some((numbers, rest)) = line.split_once(": ")
        && let Some((told, digits)) = rest.split_once(' ')
        && reads_numbers(numbers, &mut row)
        && let Some(bytes) = bytes_by_hand(alloc, row, digits)
    {
        return reads(alloc, &bytes, told);
    }
    false
}

// Returns the first row of all that is false.
fn first_wrong(alloc: Global) -> Option<&'static str> {
    for table in [CHANGED, LENGTHS, LAST] {
        for line in table.lines() {
            if !holds(alloc, line) {
                return Some(line);
            }
        }
    }
    None
}

// Returns the result for the first datagram with another value of the byte at a place.
fn word_at(place: usize, value: u8) -> &'static str {
    match place {
        0 | 1 => "magic",
        2 if value != 2 => "version",
        3 if value != 1 => "kind",
        20 | 28 if value >= 0x40 => "fragment",
        27 | 35 if value == 0 => "fragment",
        36..=39 => "fragment",
        40 | 41 => "length",
        _ => "none",
    }
}

// Returns true if the first datagram is refused if it ends before a place, and is read or refused with each other byte there.
fn is_told_at(alloc: Global, place: usize) -> bool
    requires place { place < 60 }
{
    let mut bytes = FIRST;
    for value in 0..=255u8 {
        bytes[place] = value;
        if value != FIRST[place] && !reads(alloc, &bytes, word_at(place, value)) {
            return false;
        }
    }
    let told = if place < 42 { "short" } else { "length" };
    reads(alloc, FIRST.split_at(place).0, told)
}

// Returns the first place for which this is false.
fn first_place(alloc: Global) -> Option<usize> {
    for place in 0..60usize {
        if !is_told_at(alloc, place) {
            return Some(place);
        }
    }
    None
}

fn is_first(datagram: &Datagram) -> bool {
    let ids = [
        datagram.session,
        datagram.client,
        datagram.number,
        datagram.id,
    ];
    datagram.version == Version::One
        && datagram.kind == Kind::ToServer
        && ids == [1, 0xa1, 1, 1]
        && (datagram.index, datagram.count) == (0, 1)
}

// Returns true if the first datagram of a client has the expected content.
fn says_first(alloc: Global) -> bool {
    match read_datagram(alloc, &FIRST) {
        Ok(datagram) => is_first(&datagram) && is_up(alloc, &datagram.payload, [0, 1, 0], "read"),
        Err(_) => false,
    }
}

#[test]
fn datagrams_are_read_or_refused(rt: HostRuntime) {
    assert_eq!(rt; first_wrong(rt.alloc()), None);
    assert_eq!(rt; first_place(rt.alloc()), None);
    assert!(rt; says_first(rt.alloc()));
}
