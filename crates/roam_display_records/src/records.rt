//! The records for a front end, and their text.
ghost use Rattle.std.specs.Prelude.{◌≡◌, ◌++◌, ◌∷◌, IfOk, IsOkUnless, codes};
ghost use Rattle.roam_display_records.specs.Records.{carrying, line_of, numbered, paired, text_of};

use roam_cells::Fault;
use std::alloc::Global;

/// A record that a front end reads from the stream of its terminal.
#[derive(Clone, Copy, Debug)]
pub enum Record<'a> {
    /// Records come from here on.
    Events,

    /// Later paintings have so many rows and columns.
    Size(u16, u16),

    /// The part that is shown from here on begins at this row and this column of the screen, both from 0.
    Place(u16, u16),

    /// This leads the terminal from its screen to another one.
    Paint(&'a [u8]),

    /// This opens the terminal, whatever it shows, and leads it to a screen.
    Anew(&'a [u8]),

    /// A screen that was asked for, cell by cell.
    Screen(&'a [u8]),

    /// Nothing was heard of the server for so many seconds.
    Silent(u64),

    /// It was heard again.
    Heard,

    /// The line of this number, from 1, isn't taken, for this reason; the stream ends.
    Refused(u64, &'a str),

    /// So many lines are taken, and all their acts are acknowledged.
    Taken(u64),

    /// There is no room for one terminal more; the stream ends.
    Full,
}

// A line: a word with a number.
fn numbered(alloc: Global, word: &str, number: u64) -> Result<Vec<u8>, Fault>
    ensures text { IfOk result (λ text. text.items ≡ line_of (numbered word.now number)) }
    ensures fault { IsOkUnless result Fault.OutOfMemory }
{
    let text = format!(in alloc; "{word} {number}\n")?;
    Ok(text.into_bytes())
}

// A line: a word with two numbers.
fn paired(alloc: Global, word: &str, first: u16, second: u16) -> Result<Vec<u8>, Fault>
    ensures text { IfOk result (λ text. text.items ≡ line_of (paired word.now first second)) }
    ensures fault { IsOkUnless result Fault.OutOfMemory }
{
    let text = format!(in alloc; "{word} {first} {second}\n")?;
    Ok(text.into_bytes())
}

// Returns a line with the number of bytes behind it, and these bytes.
fn carrying(alloc: Global, word: &str, bytes: &[u8]) -> Result<Vec<u8>, Fault>
    ensures text { IfOk result (λ text. text.items ≡ carrying word.now bytes.now) }
    ensures fault { IsOkUnless result Fault.OutOfMemory }
{
    let mut text = numbered(alloc, word, bytes.len() as u64)?;
    text.extend_from_slice(bytes)?;
    Ok(text)
}

// The line of a refusal.
fn refused(alloc: Global, line: u64, words: &str) -> Result<Vec<u8>, Fault>
    ensures text { IfOk result (λ text. text.items ≡ line_of (numbered (codes "refused") line ++ 0x20 ∷ words.now)) }
    ensures fault { IsOkUnless result Fault.OutOfMemory }
{
    let text = format!(in alloc; "refused {line} {words}\n")?;
    Ok(text.into_bytes())
}

// Returns a text as bytes.
fn literal(alloc: Global, text: &str) -> Result<Vec<u8>, Fault>
    ensures text { IfOk result (λ bytes. bytes.items ≡ text.now) }
    ensures fault { IsOkUnless result Fault.OutOfMemory }
{
    Ok(Vec::from_slice(alloc, text.as_bytes())?)
}

/// Returns the text of a record: its line, and the bytes behind it. `OutOfMemory`.
pub fn record_text(alloc: Global, told: Record<'_>) -> Result<Vec<u8>, Fault>
    ensures text { IfOk result (λ text. text.items ≡ text_of told.entry) }
    ensures fault { IsOkUnless result Fault.OutOfMemory }
{
    match told {
        Record::Events => literal(alloc, "\nevents\n"),
        Record::Size(rows, cols) => paired(alloc, "size", rows, cols),
        Record::Place(row, col) => paired(alloc, "part", row, col),
        Record::Paint(text) => carrying(alloc, "paint", text),
        Record::Anew(text) => carrying(alloc, "anew", text),
        Record::Screen(text) => carrying(alloc, "screen", text),
        Record::Silent(seconds) => numbered(alloc, "silent", seconds),
        Record::Heard => literal(alloc, "heard\n"),
        Record::Refused(line, words) => refused(alloc, line, words),
        Record::Taken(lines) => numbered(alloc, "taken", lines),
        Record::Full => literal(alloc, "full\n"),
    }
}
