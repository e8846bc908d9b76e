//! Cutting and gathering: an instruction goes over the network in fragments.
use crate::texts::{halves, reads_numbers, short, word_of};
use roam_cells::Fault;
use roam_wire::{Datagram, Gathered, Gatherer, Kind, Version, cut};
use std::alloc::Global;
use std::test::*;

// The version, the length of a text, the number of its fragments, and the length of the last; or that it is too long. The instruction of
// the largest diff, with a style a cell at 200 by 500, has 2,500,056 bytes.
const CUTS: &str = "\
1 0: 0 0
1 1: 1 1
1 1200: 1 1200
1 1201: 2 1
1 2400: 2 1200
1 2401: 3 1
1 250053: 209 453
1 1228800: 1024 1200
1 1228801: too long
2 2500056: 2084 456
2 4915200: 4096 1200
2 4915201: too long";

// Runs of a gatherer, with an empty line between them: a name; then a fragment a line, by its id, its index and its count, its bytes and
// the answer to it (`fragment` is a refusal), or that the last one is taken back.
const RUNS: &str = "\
An old id or a whole instruction is told before a bad index.
2 0 1: x whole x
1 3 2: x old
2 3 2: x old
3 3 2: x fragment
3 0 2: x part
3 2 2: x fragment

In any order, and again.
1 1 2: d part
1 1 2: d old
1 0 2: abc whole abcd
1 0 2: abc old
1 1 2: d old

A higher id begins anew.
1 0 2: ab part
2 0 1: x whole x
1 1 2: cd old
2 0 1: x old

What is gathered under a higher id stays where a lower one comes.
5 1 2: cd part
4 0 1: x old
5 0 2: ab whole abcd

Another count under the current id, which isn't whole.
1 0 2: ab part
1 1 3: cd fragment
1 0 1: ab fragment
1 1 2: cd whole abcd
1 1 3: cd old

An index that isn't below its count.
1 2 2: x fragment
1 0 0: x fragment
1 0 1: a whole a

A fragment is taken back, once.
untake
1 0 2: ab part
untake
1 0 2: ab part
1 1 2: cd whole abcd

Two fragments are there, of which the last is taken back, once.
1 0 3: a part
1 1 3: b part
untake
untake
1 0 3: a old
1 1 3: b part

The last fragment is taken back.
1 0 2: ab part
1 1 2: cd whole abcd
untake
1 0 2: ab old
1 1 2: cd whole abcd

Another instruction is taken back, and the one before is gathered on.
1 0 2: ab part
2 0 3: ef part
untake
1 1 2: cd whole abcd

A whole instruction is taken back.
1 0 1: ab whole ab
untake
1 0 1: ab whole ab

An old fragment taken back takes nothing back.
1 0 2: ab part
1 0 2: ab old
untake
1 1 2: cd whole abcd

A refusal changes nothing, not even what is taken back.
1 0 2: ab part
1 1 3: cd fragment
untake
1 0 2: ab part";

// A text in which neighbouring fragments differ.
fn text_of(alloc: Global, len: usize) -> Result<Vec<u8>, Fault> {
    let mut text = Vec::with_capacity(alloc, len)?;
    for place in 0..len {
        text.push((place % 251) as u8)?;
    }
    Ok(text)
}

fn version_of(number: u64) -> Version {
    if number == 1 {
        Version::One
    } else {
        Version::Two
    }
}

// Returns true if there are so many fragments, the last of this length and the others of 1,200 bytes.
fn are_lengths(fragments: &[Vec<u8>], count: usize, last: usize) -> bool {
    for (index, fragment) in fragments.iter().enumerate() {
        let len = if index + 1 < count { 1200 } else { last };
        if fragment.len() != len {
            return false;
        }
    }
    fragments.len() == count
}

fn is_cut(alloc: Global, text: &[u8], version: Version, told: &str) -> bool {
    let mut row = [0; 2];
    match cut(alloc, text, version) {
        Ok(fragments) => reads_numbers(told, &mut row)
            && are_lengths(&fragments, row[0] as usize, row[1] as usize),
        Err(fault) => word_of(fault) == told,
    }
}

fn holds_cut(alloc: Global, line: &str) -> bool {
    let mut row = [0; 2];
    if let Some((numbers, told)) = line.split_once(": ")
        && reads_numbers(numbers, &mut row)
        && let Ok(text) = text_of(alloc, row[1] as usize)
    {
        return is_cut(alloc, &text, version_of(row[0]), told);
    }
    false
}

// A fragment by its id, its index and how many there are.
fn fragment(
    alloc: Global,
    version: Version,
    row: [u64; 3],
    payload: &[u8],
) -> Result<Datagram, Fault> {
    let [id, index, count] = row;
    Ok(Datagram {
        version,
        kind: Kind::ToClient,
        session: 1,
        client: 2,
        number: 3,
        id,
        index: short(index),
        count: short(count),
        payload: Vec::from_slice(alloc, payload)?,
    })
}

// Returns a gatherer's answer to a fragment, given once more if memory was refused.
fn gathered(
    alloc: Global,
    gatherer: &mut Gatherer,
    datagram: &Datagram,
) -> Result<Gathered, Fault> {
    match gatherer.take(alloc, datagram) {
        Err(Fault::OutOfMemory) => gatherer.take(alloc, datagram),
        answer => answer,
    }
}

// Returns true if the gatherer has this answer to a fragment.
fn says(
    alloc: Global,
    gatherer: &mut Gatherer,
    datagram: &Datagram,
    said: &str,
    whole: &[u8],
) -> bool {
    match gathered(alloc, gatherer, datagram) {
        Ok(Gathered::Part) => said == "part",
        Ok(Gathered::Old) => said == "old",
        Ok(Gathered::Whole(text)) => said == "whole" && text.as_slice() == whole,
        Err(fault) => word_of(fault) == said,
    }
}

fn is_taken(alloc: Global, gatherer: &mut Gatherer, row: [u64; 3], rest: &str) -> bool {
    let (payload, answer) = halves(rest, " ");
    let (said, whole) = halves(answer, " ");
    match fragment(alloc, Version::One, row, payload.as_bytes()) {
        Ok(datagram) => says(alloc, gatherer, &datagram, said, whole.as_bytes()),
        Err(_) => false,
    }
}

fn does(alloc: Global, gatherer: &mut Gatherer, line: &str) -> bool {
    let mut row = [0; 3];
    match line.split_once(": ") {
        Some((numbers, rest)) => reads_numbers(numbers, &mut row)
            && is_taken(alloc, gatherer, row, rest),
        None => {
            gatherer.untake();
            line == "untake"
        }
    }
}

fn follows(alloc: Global, run: &str) -> bool {
    let mut gatherer = Gatherer::new(alloc);
    for line in run.lines().skip(1) {
        if !does(alloc, &mut gatherer, line) {
            return false;
        }
    }
    true
}

fn first_wrong(alloc: Global) -> Option<&'static str> {
    for line in CUTS.lines() {
        if !holds_cut(alloc, line) {
            return Some(line);
        }
    }
    for run in RUNS.split("\n\n") {
        if !follows(alloc, run) {
            return Some(run);
        }
    }
    None
}

#[test]
fn texts_are_cut_and_gathered(rt: HostRuntime) {
    assert_eq!(rt; first_wrong(rt.alloc()), None);
}

// Returns the fragments of a text, cut once more if memory was refused.
fn fragments_of(alloc: Global, text: &[u8], version: Version) -> Result<Vec<Vec<u8>>, Fault> {
    match cut(alloc, text, version) {
        Err(Fault::OutOfMemory) => cut(alloc, text, version),
        answer => answer,
    }
}

// Returns true if each fragment is a part, the first completes a text, and each is old if it arrives again.
fn is_taken_once(alloc: Global, gatherer: &mut Gatherer, datagram: &Datagram, text: &[u8]) -> bool {
    let said = if datagram.index == 0 { "whole" } else { "part" };
    says(alloc, gatherer, datagram, said, text) && says(alloc, gatherer, datagram, "old", text)
}

// Returns true if the fragments of a text arrive backwards, each twice, and are whole at the end.
fn all_come(
    alloc: Global,
    fragments: &[Vec<u8>],
    text: &[u8],
    version: Version,
) -> Result<bool, Fault> {
    let mut gatherer = Gatherer::new(alloc);
    let count = fragments.len() as u64;
    for (index, payload) in fragments.iter().enumerate().rev() {
        let datagram = fragment(alloc, version, [1, index as u64, count], payload)?;
        if !is_taken_once(alloc, &mut gatherer, &datagram, text) {
            return Ok(false);
        }
    }
    Ok(true)
}

fn comes_backwards(alloc: Global, len: usize, version: Version) -> Result<bool, Fault> {
    let text = text_of(alloc, len)?;
    let fragments = fragments_of(alloc, &text, version)?;
    all_come(alloc, &fragments, &text, version)
}

#[test]
fn long_texts_come_backwards(rt: HostRuntime) {
    for len in [1, 1200, 1201, 250_053, 1_228_800] {
        assert!(rt;
            comes_backwards(rt.alloc(), len, Version::One) == Ok(true),
            "{len}"
        );
    }
}

// This test also runs with each of its allocations refused in turn. It ends if there is no memory for the values themselves.
#[test]
fn refused_memory_loses_no_fragment(rt: HostRuntime) {
    let come = comes_backwards(rt.alloc(), 3000, Version::Two);
    assert!(rt; come == Ok(true) || come == Err(Fault::OutOfMemory));
}
