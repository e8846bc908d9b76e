//! The lines that report the news of a session.
ghost use Rattle.std.specs.Prelude.{◌≡◌, ◌++◌, ◌<◌, IfOk, OnOk, IsOkUnless, string_bytes};
ghost use Rattle.roam_pane_protocol.specs.Known.{is_same};
ghost use Rattle.roam_pane_protocol.specs.Lines.{Line, Here, Gone, Focus, Clients, Watchers, line_text, lines_text, lines_for, count_to_tell, lines_of_counts, lines_between};

use crate::pane_list::{ListedPane, PaneList};
use roam_acts::limits::PANES_END;
use roam_cells::Fault;
use std::alloc::Global;

/// How many client instances that edit a server keeps at most.
const MOST_CLIENTS: u16 = 64;

/// How many client instances that watch a server keeps at most.
const MOST_WATCHERS: u16 = 16;

// Returns true if two panes are equal, at one place and of one size.
fn is_same(one: ListedPane, other: ListedPane) -> bool
    ensures same { result ≡ is_same one other }
{
    one.generation == other.generation
        && one.row == other.row
        && one.col == other.col
        && one.rows == other.rows
        && one.cols == other.cols
}

// Adds the line of a pane that is there.
fn push_here(alloc: Global, text: &mut String, pane: u8, now: ListedPane) -> Result<(), Fault>
    ensures line { OnOk result (string_bytes text.new ≡ string_bytes text.old ++ line_text (Here pane now)) }
    ensures fault { IsOkUnless result Fault.OutOfMemory }
{
    let line = format!(in alloc;
        "{pane} {} {} {} {} {}\n",
        now.row, now.col, now.rows, now.cols, now.generation
    )?;
    text.push_str(line.as_str())?;
    Ok(())
}

// Adds the line of a pane that is gone.
fn push_gone(alloc: Global, text: &mut String, pane: u8) -> Result<(), Fault>
    ensures line { OnOk result (string_bytes text.new ≡ string_bytes text.old ++ line_text (Gone pane)) }
    ensures fault { IsOkUnless result Fault.OutOfMemory }
{
    let line = format!(in alloc; "{pane} gone\n")?;
    text.push_str(line.as_str())?;
    Ok(())
}

// Adds the line of the focus.
fn push_focus(alloc: Global, text: &mut String, pane: u8) -> Result<(), Fault>
    ensures line { OnOk result (string_bytes text.new ≡ string_bytes text.old ++ line_text (Focus pane)) }
    ensures fault { IsOkUnless result Fault.OutOfMemory }
{
    let line = format!(in alloc; "focus {pane}\n")?;
    text.push_str(line.as_str())?;
    Ok(())
}

// Adds the line of how many client instances that edit are kept.
fn push_clients(alloc: Global, text: &mut String, count: u16) -> Result<(), Fault>
    ensures line { OnOk result (string_bytes text.new ≡ string_bytes text.old ++ line_text (Clients count)) }
    ensures fault { IsOkUnless result Fault.OutOfMemory }
{
    let line = format!(in alloc; "clients {count} of {MOST_CLIENTS}\n")?;
    text.push_str(line.as_str())?;
    Ok(())
}

// Adds the line of how many client instances that watch are kept.
fn push_watchers(alloc: Global, text: &mut String, count: u16) -> Result<(), Fault>
    ensures line { OnOk result (string_bytes text.new ≡ string_bytes text.old ++ line_text (Watchers count)) }
    ensures fault { IsOkUnless result Fault.OutOfMemory }
{
    let line = format!(in alloc; "watchers {count} of {MOST_WATCHERS}\n")?;
    text.push_str(line.as_str())?;
    Ok(())
}

// Returns the number to report: a known one that was not reported before.
fn count_to_tell(told: Option<u16>, now: Option<u16>) -> Option<u16>
    ensures count { result ≡ count_to_tell told now }
{
    match (told, now) {
        (_, None) => None,
        (None, Some(now)) => Some(now),
        (Some(told), Some(now)) if told == now => None,
        (Some(_), Some(now)) => Some(now),
    }
}

// Appends the news of the numbers of client instances.
fn push_counts(
    alloc: Global,
    text: &mut String,
    told: &PaneList,
    now: &PaneList,
) -> Result<(), Fault>
    ensures lines { OnOk result (string_bytes text.new ≡ string_bytes text.old ++ lines_text (lines_of_counts told.now now.now)) }
    ensures fault { IsOkUnless result Fault.OutOfMemory }
{
    if let Some(count) = count_to_tell(told.clients(), now.clients()) {
        push_clients(alloc, text, count)?;
    }
    if let Some(count) = count_to_tell(told.watchers(), now.watchers()) {
        push_watchers(alloc, text, count)?;
    }
    Ok(())
}

// Appends the news of a pane. A pane of another generation is another pane: the old one is gone first.
fn push_pane(
    alloc: Global,
    text: &mut String,
    pane: u8,
    told: Option<ListedPane>,
    now: Option<ListedPane>,
) -> Result<(), Fault>
    ensures lines { OnOk result (string_bytes text.new ≡ string_bytes text.old ++ lines_text (lines_for pane told now)) }
    ensures fault { IsOkUnless result Fault.OutOfMemory }
{
    match (told, now) {
        (None, None) => Ok(()),
        (Some(_), None) => push_gone(alloc, text, pane),
        (None, Some(is)) => push_here(alloc, text, pane, is),
        (Some(was), Some(is)) => {
            if is_same(was, is) {
                return Ok(());
            }
            if was.generation != is.generation {
                push_gone(alloc, text, pane)?;
            }
            push_here(alloc, text, pane, is)
        }
    }
}

/// Returns the lines between the list that a subscriber knows and the present one. For each pane in the order of their numbers: `P ROW COL
/// ROWS COLS GENERATION` if it was made, moved or resized, and `P gone` if it was closed. Then `focus P` if another is in focus, then
/// `clients N of 64` and `watchers N of 16` if those numbers changed. `OutOfMemory`.
pub fn lines_between(alloc: Global, told: &PaneList, now: &PaneList) -> Result<String, Fault>
    ensures lines { IfOk result (λ text. string_bytes text ≡ lines_text (lines_between told.now now.now)) }
    ensures fault { IsOkUnless result Fault.OutOfMemory }
{
    let mut text = String::new(alloc);
    for pane in 1..PANES_END {
        push_pane(alloc, &mut text, pane, told.get(pane), now.get(pane))?;
    }
    if told.focus() != now.focus() {
        push_focus(alloc, &mut text, now.focus())?;
    }
    push_counts(alloc, &mut text, told, now)?;
    Ok(text)
}
