//! The texts that lead from one screen to another.
use anyhow::{Context, bail};
use roam_cells::Fault;
use roam_screens::RowShot;
use std::alloc::Global;
use std::io::{BufRead, BufReader};
use std::str::SplitWhitespace;
use test_paint::{change, moved, narrow_change, painted, screen};

fn number(words: &mut SplitWhitespace<'_>) -> anyhow::Result<u16> {
    let word = words.next().and_then(|word| word.parse::<u16>().ok());
    let number = word.context("a number is wanted")?;
    Ok(number)
}

fn bytes_of(alloc: Global, word: Option<&str>) -> anyhow::Result<Vec<u8>> {
    match word {
        None => bail!("bytes are wanted"),
        Some("-") => Ok(Vec::new(alloc)),
        Some(digits) => hex::decode(alloc, digits)
            .ok()
            .context("bytes are pairs of digits"),
    }
}

// The screen that the next three words give.
fn next_screen(alloc: Global, words: &mut SplitWhitespace<'_>) -> anyhow::Result<RowShot> {
    let rows = number(words)?;
    let cols = number(words)?;
    let bytes = bytes_of(alloc, words.next())?;
    let shot = RowShot::of(alloc, &screen(alloc, rows, cols, &bytes)?)?;
    Ok(shot)
}

// Prints a text in digits, or why there is none.
fn print(rt: &HostRuntime, text: Result<Vec<u8>, Fault>) -> anyhow::Result<()> {
    let digits = hex::encode(rt.alloc(), &text?)?;
    println!(rt; "{}", digits.as_str())?;
    Ok(())
}

/// The texts to print.
#[derive(Clone, Copy)]
pub enum Texts {
    /// The diff of version 2, that of version 1 between the screens as version 1 shows them, and the painting.
    Hop,
    /// The painting with moved rows, and the one without.
    Moved,
}

fn tell_hop(rt: &HostRuntime, old: &RowShot, new: &RowShot) -> anyhow::Result<()> {
    print(rt, change(rt.alloc(), old, new))?;
    print(rt, narrow_change(rt.alloc(), old, new))?;
    print(rt, painted(rt.alloc(), old, new))
}

fn tell_moved(rt: &HostRuntime, old: &RowShot, new: &RowShot) -> anyhow::Result<()> {
    print(rt, moved(rt.alloc(), old, new))?;
    print(rt, painted(rt.alloc(), old, new))
}

fn tell(rt: &HostRuntime, line: &str, texts: Texts) -> anyhow::Result<()> {
    let mut words = line.split_whitespace();
    let old = next_screen(rt.alloc(), &mut words)?;
    let new = next_screen(rt.alloc(), &mut words)?;
    match texts {
        Texts::Hop => tell_hop(rt, &old, &new),
        Texts::Moved => tell_moved(rt, &old, &new),
    }
}

/// Prints texts that lead from one screen to another, each as a line of hexadecimal digits. Each line `ROWS COLS HEX ROWS COLS HEX` of
/// standard input has two screens: their sizes and the bytes that make them, `-` for none.
pub fn tell_all(rt: &HostRuntime, texts: Texts) -> anyhow::Result<()> {
    let alloc = rt.alloc();
    for line in BufReader::new(alloc, rt.reader())?.lines(alloc) {
        let line = line?;
        tell(rt, &line, texts)?;
    }
    Ok(())
}
