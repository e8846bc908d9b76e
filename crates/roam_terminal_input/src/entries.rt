//! The request of a line of an outer terminal.
ghost use Rattle.std.specs.Prelude.{◌≡◌, ◌≢◌, ◌⊎◌, ◌+◌, ◌<◌, ◌≤◌, ◌++◌, ◌∷◌, [], List, true, length, None, IfErr, IfOk, IsErrOf, IfSome, ◌-◌, MatchResult, OnOk, OnErr, IsTrue, ◌↔◌, codes};
ghost use Rattle.std.specs.List.{All};
ghost use Rattle.roam_acts.specs.declared.acts.Act.{Act as ActOf};
ghost use Rattle.roam_acts.specs.Acts.{IsInRange};
ghost use Rattle.roam_terminal_input.specs.Keys.{AreLinesOf, IsLineOf};
ghost use Rattle.roam_terminal_input.specs.Entries.{IsNoBareWord, Says, acts_in, begins_separator, cut_of, predicting_line, is_pasted, most_cuts, needs_memory, parts_of};
ghost use Rattle.roam_terminal_input.specs.declared.entries.Entry.{Entry as EntryOf};
ghost use Rattle.roam_terminal_input.specs.declared.entries.Predicting.{Predicting as PredictingOf};
ghost use Rattle.roam_terminal_input.specs.declared.showings.Showing.{Showing as ShowingOf};
ghost use Rattle.roam_terminal_input.specs.Showings.{IsShowing, showing_text};

use crate::showings::{Showing, read_showing};
use roam_acts::{Act, read_act};
use roam_cells::Fault;
use std::alloc::Global;

/// How many times a line is cut at most: it has one act more.
const MOST_CUTS: u8 = 63;

/// The beginning of a line of pasted acts.
const PASTE: &[u8] = b"paste ; ";

/// How many bytes a separator has.
const SEPARATOR: usize = 3;

/// When an outer terminal is shown what its keys are predicted to show.
#[derive(Clone, Copy, Debug, PartialEq, Eq)]
pub enum Predicting {
    /// As soon as there is anything to show.
    Always,

    /// If input takes long to be shown.
    Adaptive,

    /// Never.
    Never,
}

/// The request of a line of an outer terminal.
#[derive(Drop)]
pub enum Entry {
    /// These acts are typed, 1 to 64, with nothing between them.
    Acts(Vec<Act>),

    /// These acts are typed likewise, without predictions.
    Paste(Vec<Act>),

    /// The terminal gets records from now on; only the first line asks for that.
    Events,

    /// The terminal's screen isn't known any more: it is painted anew.
    Repaint,

    /// The terminal is read-only: none of its acts is taken. Only the first line asks for that, or the second behind `events`.
    Watch,

    /// Predictions of its keys are shown from now on, or aren't any more.
    Prediction(Predicting),

    /// The screen is asked for, cell by cell.
    Look,

    /// The same, with the style of each cell.
    LookStyled,

    /// The part of the screen to show.
    Show(Showing),

    /// The client instance ends.
    End,
}

// Returns true if the text begins with ` ; `.
fn begins_separator(text: &[u8]) -> bool
    ensures begins { result ≡ begins_separator text.now }
    ensures within { result ≡ true → 3 ≤ length text.now }
{
    text.len() >= SEPARATOR && text[0] == b' ' && text[1] == b';' && text[2] == b' '
}

// Returns the place of the first ` ; `.
fn cut_of(text: &[u8]) -> Option<usize>
    ensures cut { result ≡ cut_of text.now }
    ensures within { IfSome result (λ at. at + 3 ≤ length text.now) }
{
    for at in 0..text.len() {
        if begins_separator(text.split_at(at).1) {
            return Some(at);
        }
    }
    None
}

// Returns the first part of a text with at most so many cuts, and the text behind its separator, if there is one.
fn first_part(text: &[u8], cuts: u8) -> (&[u8], Option<&[u8]>)
    ensures some { IfSome result.1 (λ rest. (0 < cuts) × (parts_of cuts text.now ≡ result.0.now ∷ parts_of (cuts - 1) rest.now)) }
    ensures none { result.1 ≡ None → parts_of cuts text.now ≡ result.0.now ∷ [] }
{
    if cuts == 0 {
        return (text, None);
    }
    match cut_of(text) {
        Some(at) => (text.split_at(at).0, Some(text.split_at(at + SEPARATOR).1)),
        None => (text, None),
    }
}

// Appends the act of a text. `BadAct` if it spells none, `OutOfMemory`.
fn push_act(acts: &mut Vec<Act>, text: &[u8]) -> Result<(), Fault>
    ensures found { OnOk result ((act : ActOf) × IsLineOf text.now act × IsInRange act × (acts.new.items ≡ acts.old.items ++ act ∷ [])) }
    ensures only { (act : ActOf) → IsLineOf text.now act
        → MatchResult result (λ _. acts.new.items ≡ acts.old.items ++ act ∷ []) (λ fault. fault ≡ Fault.OutOfMemory) }
    ensures fault { IfErr result (λ fault. (fault ≡ Fault.BadAct) ⊎ (fault ≡ Fault.OutOfMemory)) }
{
    let act = read_act(text)?;
    acts.push(act)?;
    Ok(())
}

// Appends the acts of a text with at most so many cuts. `BadAct` if a part spells none, `OutOfMemory`.
fn push_acts(acts: &mut Vec<Act>, text: &[u8], cuts: u8) -> Result<(), Fault>
    ensures found { OnOk result ((more : List ActOf) × AreLinesOf (parts_of cuts text.now) more × All IsInRange more
        × (acts.new.items ≡ acts.old.items ++ more)) }
    ensures only { (more : List ActOf) → AreLinesOf (parts_of cuts text.now) more
        → MatchResult result (λ _. acts.new.items ≡ acts.old.items ++ more) (λ fault. fault ≡ Fault.OutOfMemory) }
    ensures fault { IfErr result (λ fault. (fault ≡ Fault.BadAct) ⊎ (fault ≡ Fault.OutOfMemory)) }
{
    let (first, rest) = first_part(text, cuts);
    push_act(acts, first)?;
    match rest {
        Some(rest) => push_acts(acts, rest, cuts - 1),
        None => Ok(()),
    }
}

// Returns when to show predictions, if a line says so.
fn read_predicting(line: &[u8]) -> Option<Predicting>
    ensures found { IfSome result (λ predicting. line.now ≡ predicting_line predicting) }
    ensures none { result ≡ None → (predicting : PredictingOf) → line.now ≢ predicting_line predicting }
{
    if line == b"predict always".as_slice() {
        return Some(Predicting::Always);
    }
    if line == b"predict adaptive".as_slice() {
        return Some(Predicting::Adaptive);
    }
    if line == b"predict never".as_slice() {
        return Some(Predicting::Never);
    }
    None
}

// Returns the request of a line with one word, or with one of the two about a screen.
fn read_word(line: &[u8]) -> Option<Entry>
    ensures found { IfSome result (λ entry. Says line.now entry × (acts_in entry ≡ [])) }
    ensures none { result ≡ None → IsNoBareWord line.now }
{
    if line == b"events".as_slice() {
        return Some(Entry::Events);
    }
    if line == b"repaint".as_slice() {
        return Some(Entry::Repaint);
    }
    if line == b"watch".as_slice() {
        return Some(Entry::Watch);
    }
    if line == b"look".as_slice() {
        return Some(Entry::Look);
    }
    if line == b"look sgr".as_slice() {
        return Some(Entry::LookStyled);
    }
    if line == b"end".as_slice() {
        return Some(Entry::End);
    }
    None
}

// Returns true if a line begins with `paste ; `.
fn is_pasted(line: &[u8]) -> bool
    ensures pasted { result ≡ is_pasted line.now }
    ensures within { result ≡ true → 8 ≤ length line.now }
{
    line.len() >= PASTE.len() && line.split_at(PASTE.len()).0 == PASTE
}

// The acts of a line, 1 to 64 of them.
fn read_acts(alloc: Global, line: &[u8]) -> Result<Vec<Act>, Fault>
    ensures found { IfOk result (λ acts. AreLinesOf (parts_of 63 line.now) acts.items × All IsInRange acts.items) }
    ensures only { (all : List ActOf) → AreLinesOf (parts_of 63 line.now) all
        → MatchResult result (λ acts. acts.items ≡ all) (λ fault. fault ≡ Fault.OutOfMemory) }
    ensures fault { IfErr result (λ fault. (fault ≡ Fault.BadAct) ⊎ (fault ≡ Fault.OutOfMemory)) }
{
    let mut acts = Vec::new(alloc);
    push_acts(&mut acts, line, MOST_CUTS)?;
    Ok(acts)
}

/// Returns the request of a line without its end. `BadAct` if there is none, `OutOfMemory`.
pub fn read_entry(alloc: Global, line: &[u8]) -> Result<Entry, Fault>
    // The result has this line.
    ensures found { IfOk result (λ entry. Says line.now entry) }
    // A request with this line is the result.
    ensures only { (entry : EntryOf) → Says line.now entry → MatchResult result (λ e. Says line.now e) (λ f. f ≡ Fault.OutOfMemory) }
    ensures in_range { IfOk result (λ entry. All IsInRange (acts_in entry)) }
    // Memory is refused for acts alone.
    ensures memory { IsErrOf result Fault.OutOfMemory → (entry : EntryOf) → Says line.now entry → needs_memory entry ≡ true }
    ensures fault { IfErr result (λ fault. (fault ≡ Fault.BadAct) ⊎ (fault ≡ Fault.OutOfMemory)) }
{
    if let Some(entry) = read_word(line) {
        return Ok(entry);
    }
    if let Some(predicting) = read_predicting(line) {
        return Ok(Entry::Prediction(predicting));
    }
    if let Some(showing) = read_showing(line) {
        return Ok(Entry::Show(showing));
    }
    if is_pasted(line) {
        let acts = read_acts(alloc, line.split_at(PASTE.len()).1)?;
        return Ok(Entry::Paste(acts));
    }
    let acts = read_acts(alloc, line)?;
    Ok(Entry::Acts(acts))
}
