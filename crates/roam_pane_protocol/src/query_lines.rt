//! The lines that report new questions.
ghost use Rattle.std.specs.Prelude.{◌≡◌, ◌++◌, IfOk, OnOk, IsOkUnless, string_bytes};
ghost use Rattle.roam_pane_metadata.specs.Asking.{newest};
ghost use Rattle.roam_pane_metadata.specs.declared.queries.Query.TheVariants.{AnsiMode, PrivateMode};
ghost use Rattle.roam_pane_protocol.specs.MetadataLines.{word_if};
ghost use Rattle.roam_pane_protocol.specs.Queries.{query_lines, query_text, query_texts, asked_in, query_words, state_words};

use crate::metadata_lines::word_if;
use crate::query_list::{QueryPane, asked_in};
use roam_cells::Fault;
use roam_pane_metadata::{ModeState, Query};
use std::alloc::Global;

fn state_words(state: ModeState) -> &'static str
    ensures words { result.now ≡ state_words state }
{
    match state {
        ModeState::Unknown => " unknown",
        ModeState::Set => " set",
        ModeState::Reset => "",
    }
}

// Returns a word, followed by another one if that is wanted.
fn words_with(
    alloc: Global,
    word: &'static str,
    is_wanted: bool,
    other: &'static str,
) -> Result<String, Fault>
    ensures words { IfOk result (λ text. string_bytes text ≡ word.now ++ word_if is_wanted other.now) }
    ensures fault { IsOkUnless result Fault.OutOfMemory }
{
    let more = word_if(is_wanted, other);
    let words = format!(in alloc; "{word}{more}")?;
    Ok(words)
}

fn mode_words(alloc: Global, number: u16, state: ModeState) -> Result<String, Fault>
    ensures words { IfOk result (λ text. string_bytes text ≡ query_words (PrivateMode number state)) }
    ensures fault { IsOkUnless result Fault.OutOfMemory }
{
    let state = state_words(state);
    let words = format!(in alloc; "mode {number}{state}")?;
    Ok(words)
}

fn ansi_mode_words(alloc: Global, number: u16, state: ModeState) -> Result<String, Fault>
    ensures words { IfOk result (λ text. string_bytes text ≡ query_words (AnsiMode number state)) }
    ensures fault { IsOkUnless result Fault.OutOfMemory }
{
    let state = state_words(state);
    let words = format!(in alloc; "ansi-mode {number}{state}")?;
    Ok(words)
}

fn query_words(alloc: Global, query: Query) -> Result<String, Fault>
    ensures words { IfOk result (λ text. string_bytes text ≡ query_words query) }
    ensures fault { IsOkUnless result Fault.OutOfMemory }
{
    match query {
        Query::Foreground { by_bell } => words_with(alloc, "foreground", by_bell, " bell"),
        Query::Background { by_bell } => words_with(alloc, "background", by_bell, " bell"),
        Query::Frames { is_set } => words_with(alloc, "frames", is_set, " set"),
        Query::Pastes { is_set } => words_with(alloc, "pastes", is_set, " set"),
        Query::PrivateMode { number, state } => mode_words(alloc, number, state),
        Query::AnsiMode { number, state } => ansi_mode_words(alloc, number, state),
        Query::Size => words_with(alloc, "size", false, ""),
        Query::Version => words_with(alloc, "version", false, ""),
    }
}

// Adds the line of a question.
fn push_line(
    alloc: Global,
    text: &mut Vec<u8>,
    pane: u8,
    generation: u64,
    query: Query,
) -> Result<(), Fault>
    ensures line { OnOk result (text.new.items ≡ text.old.items ++ query_text pane generation query) }
    ensures fault { IsOkUnless result Fault.OutOfMemory }
{
    let words = query_words(alloc, query)?;
    let line = format!(in alloc; "query {pane} {generation} {words}\n")?;
    text.extend_from_slice(line.as_bytes())?;
    Ok(())
}

// The last so many of some questions.
fn newest(count: u64, last: &[Query]) -> &[Query]
    ensures newest { result.now ≡ newest count last.now }
{
    let count = count.min(last.len() as u64) as usize;
    last.split_at(last.len() - count).1
}

// Adds the lines of some questions.
fn push_lines(
    alloc: Global,
    text: &mut Vec<u8>,
    pane: u8,
    generation: u64,
    queries: &[Query],
) -> Result<(), Fault>
    ensures lines { OnOk result (text.new.items ≡ text.old.items ++ query_texts pane generation queries.now) }
    ensures fault { IsOkUnless result Fault.OutOfMemory }
{
    let mut at = 0;
    while at < queries.len() {
        push_line(alloc, text, pane, generation, queries[at])?;
        at += 1;
    }
    Ok(())
}

/// Appends a line `query P GENERATION WHAT` for each question of a pane's program that wasn't reported, of the last ones that are kept, in
/// their order. A generation of which nothing was reported counts as one without any. `OutOfMemory`.
pub fn push_queries(
    alloc: Global,
    text: &mut Vec<u8>,
    pane: u8,
    told: Option<QueryPane>,
    now: Option<QueryPane>,
    last: &[Query],
) -> Result<(), Fault>
    ensures lines { OnOk result (text.new.items ≡ text.old.items ++ query_lines pane told now last.now) }
    ensures fault { IsOkUnless result Fault.OutOfMemory }
{
    let Some(now) = now else {
        return Ok(());
    };
    let count = now.asked.saturating_sub(asked_in(now.generation, told));
    push_lines(alloc, text, pane, now.generation, newest(count, last))
}
