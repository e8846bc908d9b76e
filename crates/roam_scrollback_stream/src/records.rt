//! The records about rows.
ghost use Rattle.std.specs.Prelude.{◌≡◌, ◌++◌, ◌==◌, [], codes, decimal, length, OnOk, if◌then◌else◌};
ghost use Rattle.roam_scrollback_stream.specs.Records.{back_text, brought_text, cleared_text, lost_text, named_text, rows_text, screen_text};

use itoa::{Buffer, Integer};
use roam_scrollback::LeftLines;
use std::alloc::AllocError;

fn push_number<I: Integer>(out: &mut Vec<u8>, word: &str, number: I) -> Result<(), AllocError>
    ensures text { OnOk result (out.new.items ≡ out.old.items ++ (word.now ++ I.text number)) }
{
    out.extend_from_slice(word.as_bytes())?;
    out.extend_from_slice(Buffer::new().format(number).as_bytes())
}

// The line of a record, and the bytes of lines behind it.
fn push_lines(
    out: &mut Vec<u8>,
    word: &str,
    number: u16,
    lines: &LeftLines,
) -> Result<(), AllocError>
    ensures text { OnOk result (out.new.items ≡ out.old.items ++ (word.now ++ decimal number ++ codes " " ++ decimal lines.now.count
        ++ codes " " ++ decimal (length lines.now.text) ++ codes "\n" ++ lines.now.text)) }
{
    push_number(out, word, number)?;
    push_number(out, " ", lines.count())?;
    push_number(out, " ", lines.text().len())?;
    out.extend_from_slice(b"\n")?;
    out.extend_from_slice(lines.text())
}

/// Rows left a terminal of this number.
pub fn push_rows(out: &mut Vec<u8>, number: u16, lines: &LeftLines) -> Result<(), AllocError>
    ensures text { OnOk result (out.new.items ≡ out.old.items ++ rows_text number lines.now) }
{
    if lines.count() == 0 {
        return Ok(());
    }
    push_lines(out, "rows ", number, lines)
}

/// More rows left than there was memory for.
pub fn push_lost(out: &mut Vec<u8>, number: u16, lines: &LeftLines) -> Result<(), AllocError>
    ensures text { OnOk result (out.new.items ≡ out.old.items ++ lost_text number lines.now) }
{
    if lines.lost() == 0 {
        return Ok(());
    }
    push_number(out, "lost ", number)?;
    push_number(out, " ", lines.lost())?;
    out.extend_from_slice(b"\n")
}

/// Appends the record that the earlier rows are erased, if they are.
pub fn push_cleared(out: &mut Vec<u8>, number: u16, cleared: bool) -> Result<(), AllocError>
    ensures text { OnOk result (out.new.items ≡ out.old.items ++ cleared_text number cleared) }
{
    if !cleared {
        return Ok(());
    }
    push_number(out, "cleared ", number)?;
    out.extend_from_slice(b"\n")
}

/// The rows of a screen.
pub fn push_screen(out: &mut Vec<u8>, number: u16, lines: &LeftLines) -> Result<(), AllocError>
    ensures text { OnOk result (out.new.items ≡ out.old.items ++ screen_text number lines.now) }
{
    push_lines(out, "screen ", number, lines)
}

/// Writes a record of a word and a terminal.
pub fn push_named(out: &mut Vec<u8>, word: &str, number: u16) -> Result<(), AllocError>
    ensures text { OnOk result (out.new.items ≡ out.old.items ++ named_text word.now number) }
{
    push_number(out, word, number)?;
    out.extend_from_slice(b"\n")
}

/// Withdraws the newest rows that were reported.
pub fn push_back(out: &mut Vec<u8>, number: u16, back: usize) -> Result<(), AllocError>
    ensures text { OnOk result (out.new.items ≡ out.old.items ++ back_text number back) }
{
    if back == 0 {
        return Ok(());
    }
    push_number(out, "back ", number)?;
    push_number(out, " ", back)?;
    out.extend_from_slice(b"\n")
}

/// Writes the text that brings another terminal to the new size.
pub fn push_text(out: &mut Vec<u8>, number: u16, text: &[u8]) -> Result<(), AllocError>
    ensures text { OnOk result (out.new.items ≡ out.old.items ++ brought_text number text.now) }
{
    push_number(out, "text ", number)?;
    push_number(out, " ", text.len())?;
    out.extend_from_slice(b"\n")?;
    out.extend_from_slice(text)
}
