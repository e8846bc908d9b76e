//! How fast diffs of screens are written and read, in both versions.
use crate::paintings::letters;
use crate::words;
use anyhow::bail;
use roam_cells::{Fault, are_same_cells};
use roam_screens::{RowShot, RowShot1, Seen};
use roam_term::Term;
use roam_update::Synced;
use std::alloc::Global;
use std::env::Args;
use std::time::Instant;

fn lines(alloc: Global, rows: u16, cols: u16, end: &[u8]) -> Result<RowShot, Fault> {
    RowShot::of(alloc, &letters(alloc, rows, cols, 0, end)?)
}

// The bytes that write a letter in the style of this number.
fn letter(alloc: Global, number: u32) -> Result<String, Fault> {
    let front = number % 256;
    let back = number / 256 % 256;
    let text = format!(in alloc; "\x1B[38;5;{front};48;5;{back}ma")?;
    Ok(text)
}

// Writes a letter in each cell, each in another of so many styles.
fn write_styles(alloc: Global, term: &mut Term, cells: u32, styles: u32) -> Result<(), Fault> {
    for cell in 0..cells {
        let text = letter(alloc, cell % styles.max(1))?;
        term.feed(text.as_bytes())?;
    }
    Ok(())
}

fn styles_of(alloc: Global, term: &mut Term, cells: u32, styles: u32) -> Result<RowShot, Fault> {
    write_styles(alloc, term, cells, styles)?;
    RowShot::of(alloc, &term.shot(alloc, 0)?)
}

// A screen of so many styles.
fn styled(alloc: Global, rows: u16, cols: u16, styles: u32) -> Result<RowShot, Fault> {
    let mut term = Term::new(alloc, rows, cols, 0)?;
    styles_of(alloc, &mut term, u32::from(rows) * u32::from(cols), styles)
}

// The text of a diff, written so often.
fn written<S: Synced>(alloc: Global, base: &S, shot: &S, times: u32) -> Result<Vec<u8>, Fault> {
    let mut out = Vec::new(alloc);
    for _ in 0..times {
        out.clear();
        shot.write_change(alloc, base, &mut out)?;
    }
    Ok(out)
}

// The screen that a text makes of a base, made so often.
fn applied<S: Synced>(alloc: Global, base: &S, text: &[u8], times: u32) -> Result<S, Fault> {
    let mut made = base.copy(alloc)?;
    for _ in 0..times {
        made = base.copy(alloc)?;
        made.apply(alloc, text)?;
    }
    Ok(made)
}

// Returns true if two screens of one size have the same cells.
fn is_same<S: Seen>(one: &S, other: &S) -> bool {
    if one.rows() != other.rows() {
        return false;
    }
    for i in 0..one.rows() {
        if !are_same_cells(one.row(i), other.row(i)) {
            return false;
        }
    }
    true
}

fn report<S: Synced + Seen>(
    rt: &HostRuntime,
    name: &str,
    version: u32,
    base: &S,
    shot: &S,
    times: u32,
) -> anyhow::Result<()> {
    let cells = u32::from(shot.rows()) * u32::from(shot.cols());
    let start = Instant::now(rt)?;
    let text = written(rt.alloc(), base, shot, times)?;
    let wrote = start.elapsed(rt)?.as_micros();
    let start = Instant::now(rt)?;
    let made = applied(rt.alloc(), base, &text, times)?;
    let read = start.elapsed(rt)?.as_micros();
    if !is_same(&made, shot) {
        bail!("the text makes another screen");
    }
    let bytes = text.len();
    println!(rt; "{version} {name} {cells} {times} {wrote} {read} {bytes}")?;
    Ok(())
}

// Reports a diff in version 1, if both screens have one, and in version 2.
fn report_both(
    rt: &HostRuntime,
    name: &str,
    base: &RowShot,
    shot: &RowShot,
    times: u32,
) -> anyhow::Result<()> {
    if shot.rows() <= 100 && shot.cols() <= 250 {
        let old_base = RowShot1::of(rt.alloc(), base)?;
        let old = RowShot1::of(rt.alloc(), shot)?;
        report(rt, name, 1, &old_base, &old, times)?;
    }
    report(rt, name, 2, base, shot, times)
}

/// The diffs of a screen of lines by name, with the bytes that make them.
static CHANGES: [(&str, &[u8]); 4] = [
    ("equal", b""),
    ("cell", b"\x1B[2;3H~"),
    ("row", b"\x1B[2;1H\x1B[2K~"),
    ("scroll", b"\r\n$ ls"),
];

fn measure_lines(rt: &HostRuntime, rows: u16, cols: u16, times: u32) -> anyhow::Result<()> {
    let base = lines(rt.alloc(), rows, cols, b"")?;
    for (name, end) in CHANGES {
        let shot = lines(rt.alloc(), rows, cols, end)?;
        report_both(rt, name, &base, &shot, times)?;
    }
    Ok(())
}

fn measure_all(
    rt: &HostRuntime,
    rows: u16,
    cols: u16,
    styles: u32,
    times: u32,
) -> anyhow::Result<()> {
    measure_lines(rt, rows, cols, times)?;
    let blank = RowShot::blank(rt.alloc(), rows, cols)?;
    let shot = styled(rt.alloc(), rows, cols, styles)?;
    report_both(rt, "styles", &blank, &shot, times)
}

// Returns true if the diff from a base to a screen leads there.
fn leads<S: Synced + Seen>(alloc: Global, base: &S, shot: &S) -> Result<bool, Fault> {
    let text = written(alloc, base, shot, 1)?;
    let made = applied(alloc, base, &text, 1)?;
    Ok(is_same(&made, shot))
}

/// Writes and applies a diff of version 2.
pub fn try_once(alloc: Global) -> anyhow::Result<()> {
    let blank = RowShot::blank(alloc, 4, 8)?;
    let shot = styled(alloc, 4, 8, 3)?;
    if !leads(alloc, &blank, &shot)? {
        bail!("the text makes another screen");
    }
    Ok(())
}

/// Writes and applies each diff at the size that the words say, so often.
pub fn measure(rt: &HostRuntime, words: &mut Args) -> anyhow::Result<()> {
    let rows = words::size(words, "ROWS")?;
    let cols = words::size(words, "COLS")?.min(500);
    let styles = words::number(words, "STYLES")?;
    let times = words::number(words, "TIMES")?;
    measure_all(rt, rows, cols, styles, times)
}
