//! How fast a screen is painted.
use crate::words;
use anyhow::bail;
use roam_cells::Fault;
use roam_paint::paint;
use roam_screens::Shot;
use roam_scroll_paint::paint_moved;
use roam_term::Term;
use std::alloc::Global;
use std::env::Args;
use std::time::Instant;

// Every place shows a letter, another one with another first letter.
fn fill(term: &mut Term, rows: u16, cols: u16, first: u8) -> Result<(), Fault> {
    for row in 0..usize::from(rows) {
        for col in 0..usize::from(cols) {
            let letter = b'a' + ((usize::from(first) + row * 7 + col) % 26) as u8;
            term.feed(&[letter])?;
        }
    }
    Ok(())
}

// Returns the screen of a terminal full of letters after some more output.
fn write(
    alloc: Global,
    term: &mut Term,
    size: (u16, u16),
    first: u8,
    more: &[u8],
) -> Result<Shot, Fault> {
    fill(term, size.0, size.1, first)?;
    term.feed(more)?;
    term.shot(alloc, 0)
}

/// A screen of letters after something more was written.
pub fn letters(alloc: Global, rows: u16, cols: u16, first: u8, more: &[u8]) -> Result<Shot, Fault> {
    let mut term = Term::new(alloc, rows, cols, 0)?;
    write(alloc, &mut term, (rows, cols), first, more)
}

fn paints(alloc: Global, old: &Shot, new: &Shot, times: u32) -> Result<usize, Fault> {
    let mut text = Vec::with_capacity(alloc, 65536)?;
    for _ in 0..times {
        text.clear();
        paint(old, new, &mut text)?;
    }
    Ok(text.len())
}

fn moves(alloc: Global, old: &Shot, new: &Shot, times: u32) -> Result<usize, Fault> {
    let mut text = Vec::with_capacity(alloc, 65536)?;
    for _ in 0..times {
        text.clear();
        paint_moved(old, new, &mut text)?;
    }
    Ok(text.len())
}

fn measure_one(
    rt: &HostRuntime,
    name: &str,
    old: &Shot,
    new: &Shot,
    times: u32,
) -> anyhow::Result<()> {
    let start = Instant::now(rt)?;
    let bytes = paints(rt.alloc(), old, new, times)?;
    let passed = start.elapsed(rt)?.as_micros();
    println!(rt; "{name} {bytes} {times} {passed}")?;
    let start = Instant::now(rt)?;
    let bytes = moves(rt.alloc(), old, new, times)?;
    let passed = start.elapsed(rt)?.as_micros();
    println!(rt; "{name}_moved {bytes} {times} {passed}")?;
    Ok(())
}

/// Paints a key.
pub fn try_once(alloc: Global) -> anyhow::Result<()> {
    let old = letters(alloc, 24, 80, 0, b"")?;
    let new = letters(alloc, 24, 80, 0, b"\x1B[5;5H!")?;
    if paints(alloc, &old, &new, 1)? != 29 {
        bail!("an echoed key takes other bytes");
    }
    Ok(())
}

fn measure_all(rt: &HostRuntime, rows: u16, cols: u16, times: u32) -> anyhow::Result<()> {
    let alloc = rt.alloc();
    let old = letters(alloc, rows, cols, 0, b"")?;
    measure_one(rt, "unchanged", &old, &old, times)?;
    let key = letters(alloc, rows, cols, 0, b"\x1B[5;5H!")?;
    measure_one(rt, "key", &old, &key, times)?;
    let scrolled = letters(alloc, rows, cols, 0, b"\r\nanother line")?;
    measure_one(rt, "scrolled", &old, &scrolled, times)?;
    let full = letters(alloc, rows, cols, 1, b"")?;
    measure_one(rt, "full", &old, &full, times)
}

/// Paints screens of the size that the words say, each so often.
pub fn measure(rt: &HostRuntime, words: &mut Args) -> anyhow::Result<()> {
    let rows = words::size(words, "ROWS")?;
    let cols = words::size(words, "COLS")?;
    let times = words::number(words, "TIMES")?;
    measure_all(rt, rows, cols, times)
}
