//! The meaning of control sequences to programs, if this project's profile reads them otherwise.
ghost use Rattle.std.specs.Prelude.{◌≡◌, ◌++◌, true, OnOk};
ghost use Rattle.roam_normalize.specs.Meanings.{are_numbers, are_parameters, bare_kind, clearing, full_kind, has_columns, has_three, kind_of, text_of, whole};

use crate::renditions::{is_changed, push_spelled_out};
use std::alloc::{AllocError, Global};

/// Which meaning a control sequence has.
#[derive(Clone, Copy)]
pub enum Kind {
    AsItStands,
    /// CSI s.
    SaveCursor,
    /// CSI u.
    RestoreCursor,
    /// It sets or resets DECCOLM.
    Columns,
    /// SGR that has to be spelled out.
    Rendition,
}

// Returns true if 3 is one of the numbers.
fn has_three(numbers: &[u8]) -> bool
    ensures three { result ≡ has_three true numbers.now }
{
    let mut anew = true;
    let mut at = 0;
    while at < numbers.len() {
        let ends = at + 1 == numbers.len() || numbers[at + 1] == b';';
        if anew && numbers[at] == b'3' && ends {
            return true;
        }
        anew = numbers[at] == b';';
        at += 1;
    }
    false
}

fn are_numbers(bytes: &[u8]) -> bool
    ensures numbers { result ≡ are_numbers bytes.now }
{
    let mut at = 0;
    while at < bytes.len() {
        if !(b'0' <= bytes[at] && bytes[at] < b':' || bytes[at] == b';') {
            return false;
        }
        at += 1;
    }
    true
}

fn are_parameters(bytes: &[u8]) -> bool
    ensures parameters { result ≡ are_parameters bytes.now }
{
    let mut at = 0;
    while at < bytes.len() {
        if !(b'0' <= bytes[at] && bytes[at] < b'<') {
            return false;
        }
        at += 1;
    }
    true
}

fn has_columns(body: &[u8]) -> bool
    ensures columns { result ≡ has_columns body.now }
{
    match body {
        [mark, numbers @ ..] => *mark == b'?' && are_numbers(numbers) && has_three(numbers),
        [] => false,
    }
}

fn bare_kind(last: u8) -> Kind
    ensures kind { result ≡ bare_kind last }
{
    match last {
        b's' => Kind::SaveCursor,
        b'u' => Kind::RestoreCursor,
        _ => Kind::AsItStands,
    }
}

fn full_kind(body: &[u8], last: u8) -> Kind
    ensures kind { result ≡ full_kind body.now last }
{
    if (last == b'h' || last == b'l') && has_columns(body) {
        return Kind::Columns;
    }
    if last == b'm' && are_parameters(body) && is_changed(body) {
        return Kind::Rendition;
    }
    Kind::AsItStands
}

/// Returns the meaning of a control sequence, given the bytes between CSI and its final byte, and that byte.
pub fn kind_of(body: &[u8], last: u8) -> Kind
    ensures kind { result ≡ kind_of body.now last }
{
    if body.is_empty() {
        bare_kind(last)
    } else {
        full_kind(body, last)
    }
}

fn push_whole(out: &mut Vec<u8>, body: &[u8], last: u8) -> Result<(), AllocError>
    ensures out { OnOk result (out.new.items ≡ out.old.items ++ whole body.now last) }
{
    out.extend_from_slice(b"\x1B[")?;
    out.extend_from_slice(body)?;
    out.push(last)?;
    Ok(())
}

fn push_columns(out: &mut Vec<u8>, body: &[u8], last: u8) -> Result<(), AllocError>
    ensures out { OnOk result (out.new.items ≡ out.old.items ++ (whole body.now last ++ clearing)) }
{
    push_whole(out, body, last)?;
    out.extend_from_slice(b"\x1B[r\x1B[2J\x1B[H")?;
    Ok(())
}

/// Appends the meaning of a control sequence of this kind. `AllocError`; a part may be appended then.
pub fn push_text(
    alloc: Global,
    out: &mut Vec<u8>,
    kind: Kind,
    body: &[u8],
    last: u8,
) -> Result<(), AllocError>
    ensures out { OnOk result (out.new.items ≡ out.old.items ++ text_of kind body.now last) }
{
    match kind {
        Kind::AsItStands => push_whole(out, body, last)?,
        Kind::SaveCursor => out.extend_from_slice(b"\x1B7")?,
        Kind::RestoreCursor => out.extend_from_slice(b"\x1B8")?,
        Kind::Columns => push_columns(out, body, last)?,
        Kind::Rendition => push_spelled_out(alloc, out, body)?,
    }
    Ok(())
}
