//! The terminals of panes by their numbers: the output of their programs, and the bytes queued for them.
ghost use Rattle.std.specs.Prelude.{◌≡◌, ◌⊎◌, ◌↔◌, ◌+◌, ◌-◌, ◌<◌, ◌≤◌, ◌++◌, ℕ, List, Option, Some, None, length, IfOk, IfErr, IsOk, IsErrOf, OnOk, OnErr};
ghost use Rattle.std.specs.Option.{option_map, option_copied};
ghost use Rattle.roam_session.specs.Refusals.{bytes_refused, none_refused, fault_of};
ghost use Rattle.roam_session.specs.Stands.{ArePlaced, IsPlaced, term_at, waiting_at};
ghost use Rattle.roam_layout.specs.Rects.{rect_in};
ghost use Rattle.roam_layout.specs.Layouts.{panes};
ghost use Rattle.roam_term.specs.Stands.{IsAccepted};
ghost use Rattle.roam_session.specs.Queues.{ChangesAt, IsFed, IsKeyed, IsDrained, IsWithin, IsCopied, key_refused};
ghost use Rattle.roam_term.specs.Limits.{most_output, longest_piece};

use crate::marks::touch_pane;
use roam_acts::Key;
use roam_cells::Fault;
use roam_layout::Layout;
use roam_term::{MOST_OUTPUT, Term};

// Gives bytes to the terminal of a pane, and marks the rows that it changes.
fn read(
    term: &mut Term,
    pane: u8,
    piece: &[u8],
    layout: &Layout,
    marks: &mut [bool; 200],
) -> Result<(), Fault>
    requires placed { IsPlaced (rect_in pane (panes layout.now)) (Some term.old) }
    ensures ok { IsOk result ↔ IsAccepted term.old.waiting piece.now }
    ensures fed { OnOk result (IsFed piece.now layout.now pane marks.old marks.new term.old term.new) }
    ensures err { OnErr result (term.new ≡ term.old) }
    ensures same { OnErr result (marks.new ≡ marks.old) }
    ensures too_long { IsErrOf result Fault.TooLong ↔ (longest_piece < length piece.now) }
    ensures faults { IfErr result (λ e. (e ≡ Fault.TooLong) ⊎ (e ≡ Fault.Busy)) }
{
    match term.feed(piece) {
        Ok(()) => {
            touch_pane(marks, layout, pane, term);
            term.clear_marks();
            Ok(())
        }
        Err(fault) => Err(fault),
    }
}

/// Gives a pane bytes of its program. Refuses `NoPane`, `TooLong` and `Busy`, in this order, and takes no memory.
pub fn feed(
    terms: &mut Vec<Option<Term>>,
    pane: u8,
    piece: &[u8],
    layout: &Layout,
    marks: &mut [bool; 200],
) -> Result<(), Fault>
    requires placed { ArePlaced layout.now terms.old.items }
    ensures fault { fault_of result ≡ bytes_refused piece.now (waiting_at terms.old.items pane) }
    ensures fed { OnOk result (ChangesAt pane (IsFed piece.now layout.now pane marks.old marks.new) terms.old.items terms.new.items) }
    ensures err { OnErr result (terms.new.items ≡ terms.old.items) }
    ensures same { OnErr result (marks.new ≡ marks.old) }
{
    let number = usize::from(pane);
    if terms.len() <= number {
        return Err(Fault::NoPane);
    }
    match &mut terms[number] {
        None => Err(Fault::NoPane),
        Some(term) => read(term, pane, piece, layout, marks),
    }
}

/// Queues a key's bytes in a pane. `Busy` if they don't fit. It takes no memory.
pub fn type_key(terms: &mut Vec<Option<Term>>, pane: u8, key: &Key) -> Result<(), Fault>
    ensures fault { fault_of result ≡ key_refused key.now (term_at terms.old.items pane) }
    ensures keyed { OnOk result (ChangesAt pane (IsKeyed key.now) terms.old.items terms.new.items) }
    ensures err { OnErr result (terms.new.items ≡ terms.old.items) }
{
    let pane = usize::from(pane);
    if terms.len() <= pane {
        return Ok(());
    }
    match &mut terms[pane] {
        None => Ok(()),
        Some(term) => term.key(key),
    }
}

/// Takes the first n bytes that wait in a pane. Refuses `NoPane`, and takes no memory.
pub fn drain(terms: &mut Vec<Option<Term>>, pane: u8, n: usize) -> Result<(), Fault>
    requires within { IsWithin n (waiting_at terms.old.items pane) }
    ensures fault { fault_of result ≡ none_refused (waiting_at terms.old.items pane) }
    ensures drained { OnOk result (ChangesAt pane (IsDrained n) terms.old.items terms.new.items) }
    ensures err { OnErr result (terms.new.items ≡ terms.old.items) }
{
    let pane = usize::from(pane);
    if terms.len() <= pane {
        return Err(Fault::NoPane);
    }
    match &mut terms[pane] {
        None => Err(Fault::NoPane),
        Some(term) => {
            term.take_output(n);
            Ok(())
        }
    }
}

// The terminal of a pane that is there.
fn term_of(terms: &[Option<Term>], pane: u8) -> Option<&Term>
    ensures term { option_copied result ≡ term_at terms.now pane }
{
    match terms.get(usize::from(pane)) {
        Some(Some(term)) => Some(term),
        _ => None,
    }
}

/// How many bytes wait in a pane that is there.
pub fn output_len(terms: &[Option<Term>], pane: u8) -> Option<usize>
    ensures len { result ≡ option_map (λ (waiting : List ℕ). length waiting) (waiting_at terms.now pane) }
{
    Some(term_of(terms, pane)?.output_len())
}

/// How many more bytes may wait in a pane that is there.
pub fn room(terms: &[Option<Term>], pane: u8) -> Option<usize>
    ensures room { result ≡ option_map (λ (waiting : List ℕ). most_output - length waiting) (waiting_at terms.now pane) }
{
    Some(MOST_OUTPUT - term_of(terms, pane)?.output_len())
}

/// Copies the first bytes queued in a pane, as many as fit, and returns their number. `NoPane`.
pub fn copy_output(terms: &[Option<Term>], pane: u8, out: &mut [u8]) -> Result<usize, Fault>
    ensures fault { fault_of result ≡ none_refused (waiting_at terms.now pane) }
    ensures bytes { IfOk result (λ n. IsCopied n out.old out.new (waiting_at terms.now pane)) }
    ensures within { IfOk result (λ n. n ≤ length out.old) }
    ensures err { OnErr result (out.new ≡ out.old) }
{
    let term = term_of(terms, pane).ok_or(Fault::NoPane)?;
    Ok(term.copy_output(out))
}
