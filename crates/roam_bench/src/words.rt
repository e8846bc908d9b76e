//! The words of the command line, read one by one.
use anyhow::{Context, bail};
use std::env::Args;

/// The next word as a number, whose name is for the refusal.
pub fn number(words: &mut Args, name: &str) -> anyhow::Result<u32> {
    let word = words.next().context("a word is missing")?;
    let Some(number) = word.parse::<u32>().ok() else {
        bail!("{name} is no number");
    };
    Ok(number)
}

/// The next word as a number of rows or columns.
pub fn size(words: &mut Args, name: &str) -> anyhow::Result<u16> {
    let number = number(words, name)?;
    u16::try_from(number).ok().context("a size is above 65535")
}
