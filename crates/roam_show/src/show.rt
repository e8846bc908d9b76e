//! `roam show`: feeds the bytes of a reader to a terminal, and writes its screen and its answers.
ghost use Rattle.std.specs.Prelude.{◌≡◌, ◌≢◌, ◌⊎◌, ◌↔◌, ◌++◌, ℕ, List, [], OnOk, IfOk, IfErr, IsErrOf, IsOkUnless, map, codes, decimal, if◌then◌else◌, string_bytes};
ghost use Rattle.std.specs.Io.KnownBytes.{Consumes, IsAtEnd, Appends, Keeps};
ghost use Rattle.roam_text.specs.Log.{Item, Byte};
ghost use Rattle.roam_term.specs.Terminal.{reports};
ghost use Rattle.roam_term.specs.Stands.{Stands, IsTermSize};
ghost use Rattle.roam_show.specs.ShowText.{row_line, screen_text, output_line, show_text};
ghost use Rattle.roam_term.specs.Limits.{pane_lines};

use itoa::{Buffer, Integer};
use roam_cells::Fault;
use roam_faults::RunFault;
use roam_screens::{Seen, row_text};
use roam_term::laws::nothing_read_answers_nothing;
use roam_term::{MOST_LINES, MOST_PIECE, Term};
use std::alloc::{AllocError, Global};
use std::io::{Read, Write};

/// How many reads a run makes at most; the end has to be seen within them.
pub const MOST_READS: u32 = 16_777_216;

// Reads to the end and feeds each piece; the terminal's answers go into `report`.
fn feed_all<R: Read>(
    alloc: Global,
    term: &mut Term,
    report: &mut Vec<u8>,
    reader: &mut R,
) -> Result<(), RunFault>
    requires waiting { term.old.waiting ≡ [] }
    requires report { (rows cols lines : ℕ) → report.old.items ≡ reports rows cols lines [] }
    ensures fed { OnOk result ((log : List ℕ) × Consumes (R.remaining reader.old) (R.remaining reader.new) log
        × IsAtEnd (R.remaining reader.new)
        × ((rows cols lines : ℕ) → Stands term.old rows cols lines [] →
        (Stands term.new rows cols lines (map Byte log)) × (report.new.items ≡ reports rows cols lines (map Byte log)))) }
    ensures err { IfErr result (λ e. (e ≡ RunFault.Read) ⊎ (e ≡ RunFault.Core Fault.OutOfMemory)) }
{
    let mut piece = [0u8; MOST_PIECE];
    for _ in 0..MOST_READS {
        let Ok(count) = reader.read(&mut piece) else {
            return Err(RunFault::Read);
        };
        if count == 0 {
            return Ok(());
        }
        term.feed(&piece[..count])?;
        take_report(alloc, term, report)?;
    }
    Err(RunFault::Read)
}

// Moves the terminal's answers to the end of the report.
fn take_report(alloc: Global, term: &mut Term, report: &mut Vec<u8>) -> Result<(), Fault>
    ensures waiting { OnOk result (term.new.waiting ≡ []) }
    ensures report { OnOk result (report.new.items ≡ report.old.items ++ term.old.waiting) }
    ensures stands { (rows cols lines : ℕ) (log : List Item) → Stands term.old rows cols lines log → Stands term.new rows cols lines log }
    ensures fault { IsOkUnless result Fault.OutOfMemory }
{
    let mut out = vec![in alloc; 0u8; term.output_len()]?;
    let count = term.copy_output(&mut out);
    term.take_output(count);
    report.extend_from_slice(&out)?;
    Ok(())
}

// Adds a row between bars.
fn push_row(text: &mut String, row: &[char]) -> Result<(), AllocError>
    ensures text { OnOk result (string_bytes text.new ≡ string_bytes text.old ++ row_line row.now) }
{
    text.push('|')?;
    for c in row {
        text.push(*c)?;
    }
    text.push_str("|\n")
}

/// Adds a word, a number in decimal and the end of a line.
pub fn push_numbered<I: Integer>(text: &mut String, word: &str, number: I) -> Result<(), AllocError>
    ensures text { OnOk result (string_bytes text.new ≡ string_bytes text.old ++ (word.now ++ I.text number ++ codes "\n")) }
{
    push_number(text, word, number)?;
    text.push('\n')
}

/// Adds a word and a number in decimal.
pub fn push_number<I: Integer>(text: &mut String, word: &str, number: I) -> Result<(), AllocError>
    ensures text { OnOk result (string_bytes text.new ≡ string_bytes text.old ++ (word.now ++ I.text number)) }
{
    text.push_str(word)?;
    text.push_str(Buffer::new().format(number))
}

// Adds the cursor's line.
fn push_cursor(text: &mut String, row: u16, col: u16, visible: bool) -> Result<(), AllocError>
    ensures text { OnOk result (string_bytes text.new ≡ string_bytes text.old ++ (codes "cursor " ++ decimal row ++ codes " " ++ decimal col
        ++ (if visible then codes " shown\n" else codes " hidden\n"))) }
{
    push_number(text, "cursor ", row)?;
    push_number(text, " ", col)?;
    text.push_str(if visible { " shown\n" } else { " hidden\n" })
}

/// Adds the text of a screen: each row between bars, then the cursor's line, from row and column 1. `OutOfMemory`.
pub fn push_screen<S: Seen>(alloc: Global, text: &mut String, shot: &S) -> Result<(), Fault>
    ensures text { OnOk result (string_bytes text.new ≡ string_bytes text.old ++ screen_text (S.screen shot.now)) }
    ensures fault { IsOkUnless result Fault.OutOfMemory }
{
    for row in 0..shot.rows() {
        let chars = row_text(alloc, shot, row)?;
        push_row(text, &chars)?;
    }
    let (row, col) = shot.cursor();
    push_cursor(text, row, col, shot.visible())?;
    Ok(())
}

// Adds the line of the terminal's answers.
fn push_output(alloc: Global, text: &mut String, report: &[u8]) -> Result<(), AllocError>
    ensures text { OnOk result (string_bytes text.new ≡ string_bytes text.old ++ output_line report.now) }
{
    if report.is_empty() {
        return text.push_str("output -\n");
    }
    let digits = hex::encode(alloc, report)?;
    text.push_str("output ")?;
    text.push_str(digits.as_str())?;
    text.push('\n')
}

// Returns the text of a terminal's screen and of its answers.
fn text_of(alloc: Global, term: &Term, report: &[u8]) -> Result<String, Fault>
    ensures text { IfOk result (λ text. (rows cols : ℕ) (log : List ℕ) → Stands term.now rows cols pane_lines (map Byte log) →
        report.now ≡ reports rows cols pane_lines (map Byte log) → string_bytes text ≡ show_text rows cols log) }
    ensures fault { IsOkUnless result Fault.OutOfMemory }
{
    let shot = term.shot(alloc, 0)?;
    let mut text = String::new(alloc);
    push_screen(alloc, &mut text, &shot)?;
    push_output(alloc, &mut text, report)?;
    Ok(text)
}

// Feeds a fresh terminal with all bytes of the reader, and returns the text of its screen and of its answers.
fn text_after<R: Read>(alloc: Global, term: &mut Term, reader: &mut R) -> Result<String, RunFault>
    requires waiting { term.old.waiting ≡ [] }
    ensures text { IfOk result (λ text. (log : List ℕ) × Consumes (R.remaining reader.old) (R.remaining reader.new) log
        × IsAtEnd (R.remaining reader.new)
        × ((rows cols : ℕ) → Stands term.old rows cols pane_lines [] → string_bytes text ≡ show_text rows cols log)) }
    ensures err { IfErr result (λ e. (e ≡ RunFault.Read) ⊎ (e ≡ RunFault.Core Fault.OutOfMemory)) }
{
    nothing_read_answers_nothing();
    let mut report = Vec::new(alloc);
    feed_all(alloc, term, &mut report, reader)?;
    Ok(text_of(alloc, term, &report)?)
}

// The text for all bytes of a reader.
fn text_shown<R: Read>(
    alloc: Global,
    rows: u16,
    cols: u16,
    reader: &mut R,
) -> Result<String, RunFault>
    ensures text { IfOk result (λ text. (log : List ℕ) × Consumes (R.remaining reader.old) (R.remaining reader.new) log
        × IsAtEnd (R.remaining reader.new) × (string_bytes text ≡ show_text rows cols log)) }
    ensures size { OnOk result (IsTermSize rows cols pane_lines) }
    ensures bad_size { IsErrOf result (RunFault.Core Fault.BadSize) ↔ (¬ IsTermSize rows cols pane_lines) }
    ensures faults { (fault : Fault) → IsErrOf result (RunFault.Core fault) → (fault ≡ Fault.BadSize) ⊎ (fault ≡ Fault.OutOfMemory) }
{
    let mut term = Term::new(alloc, rows, cols, MOST_LINES)?;
    text_after(alloc, &mut term, reader)
}

/// Feeds a terminal of this size with all bytes of the reader. Writes its screen, row by row between bars, its cursor, and its answers in
/// hexadecimal. `BadSize` outside 2 to 200 rows and 4 to 500 columns, `OutOfMemory`; `Read` if the reader fails or hasn't ended after
/// 16,777,216 reads; `Write` if the writer fails.
pub fn run_show<R: Read, W: Write>(
    alloc: Global,
    rows: u16,
    cols: u16,
    reader: &mut R,
    writer: &mut W,
) -> Result<(), RunFault>
    // The reader came to its end, and the output is the text for all bytes read.
    ensures shown { OnOk result ((log : List ℕ) × Consumes (R.remaining reader.old) (R.remaining reader.new) log
        × IsAtEnd (R.remaining reader.new)
        × Appends (W.contents writer.old) (W.contents writer.new) (show_text rows cols log)) }
    ensures size { OnOk result (IsTermSize rows cols pane_lines) }
    ensures bad_size { IsErrOf result (RunFault.Core Fault.BadSize) ↔ (¬ IsTermSize rows cols pane_lines) }
    // No other fault of the terminal comes, but want of memory.
    ensures faults { (fault : Fault) → IsErrOf result (RunFault.Core fault) → (fault ≡ Fault.BadSize) ⊎ (fault ≡ Fault.OutOfMemory) }
    ensures unwritten { IfErr result (λ e. e ≢ RunFault.Write → Keeps (W.contents writer.old) (W.contents writer.new)) }
{
    let text = text_shown(alloc, rows, cols, reader)?;
    if writer.write_all(text.as_bytes()).is_err() {
        return Err(RunFault::Write);
    }
    match writer.flush() {
        Ok(()) => Ok(()),
        Err(_) => Err(RunFault::Write),
    }
}
