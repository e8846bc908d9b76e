//! Acts as bytes, in both directions.
ghost use Rattle.std.specs.Prelude.{◌≡◌, ℕ, ◌+◌, ◌<◌, ◌≤◌, ◌++◌, ◌⊎◌, List, length, take, Some, None, IfOk, OnOk, OnErr, IfErr, IsErrOf, IsOkUnless, IsSome, MatchOption, MatchResult};
ghost use Rattle.std.specs.List.{All};
ghost use Rattle.roam_acts.specs.Acts.{IsAct, IsInRange};
ghost use Rattle.roam_acts.specs.Kinds.{kind_of, width_of};
ghost use Rattle.roam_acts.specs.Bytes.{act_text, acts_text, fields_of, BeginsWithAct};
ghost use Rattle.roam_acts.specs.Reading.{act_of_fields, acts_in, first_act};

use crate::acts::Act;
use crate::keys::{entry, numbered};
use crate::kinds::Kind;
use byteorder::{BigEndian, ByteOrder};
use roam_cells::{Fault, Reason};
use roam_keys::Key;
use std::alloc::{AllocError, Global};

// The bytes that follow an act's tag, and zeros up to four.
fn fields_of(act: Act) -> [u8; 4]
    ensures fields { take (width_of (kind_of act)) result ≡ fields_of act }
{
    let mut fields = [0u8; 4];
    match act {
        Act::Key(Key::Char(c)) => BigEndian::write_u32(&mut fields, c as u32),
        Act::Key(key) => fields[0] = entry(key).0,
        Act::Focus(pane) => fields[0] = pane,
        Act::Grow(by) | Act::View(by) => BigEndian::write_i16(&mut fields, by),
        Act::Size(rows, cols) => {
            BigEndian::write_u16(&mut fields, rows);
            BigEndian::write_u16(&mut fields[2..], cols);
        }
        Act::SplitRight | Act::SplitDown | Act::Close | Act::Next => {}
    }
    fields
}

// Appends one act's text; after an error a part of it may be there.
fn write_act(act: Act, out: &mut Vec<u8>) -> Result<(), AllocError>
    ensures written { OnOk result (out.new.items ≡ out.old.items ++ act_text act) }
    ensures before { (n : ℕ) → n ≤ length out.old.items → take n out.new.items ≡ take n out.old.items }
{
    let (tag, width, _) = Kind::of(act).entry();
    let fields = fields_of(act);
    out.push(tag)?;
    out.extend_from_slice(fields.as_slice().split_at(width).0)?;
    Ok(())
}

/// Adds the text of these acts at the end of `out`. `OutOfMemory` leaves `out` as it was.
pub fn write_acts(acts: &[Act], out: &mut Vec<u8>) -> Result<(), Fault>
    ensures written { OnOk result (out.new.items ≡ out.old.items ++ acts_text acts.now) }
    ensures err { OnErr result (out.new.items ≡ out.old.items) }
    ensures fault { IsOkUnless result Fault.OutOfMemory }
{
    let start = out.as_slice().len();
    for act in acts {
        if write_act(*act, out).is_err() {
            out.truncate(start);
            return Err(Fault::OutOfMemory);
        }
    }
    Ok(())
}

// The act of a kind whose tag these bytes follow, in its ranges or not.
fn act_of_fields(kind: Kind, fields: &[u8]) -> Option<Act>
    requires whole { width_of kind ≤ length fields.now }
    ensures act { result ≡ act_of_fields kind fields.now }
{
    let act = match kind {
        Kind::Char => Act::Key(Key::Char(char::from_u32(BigEndian::read_u32(fields))?)),
        Kind::Named => Act::Key(numbered(fields[0])?),
        Kind::SplitRight => Act::SplitRight,
        Kind::SplitDown => Act::SplitDown,
        Kind::Close => Act::Close,
        Kind::Focus => Act::Focus(fields[0]),
        Kind::Next => Act::Next,
        Kind::Grow => Act::Grow(BigEndian::read_i16(fields)),
        Kind::Size => Act::Size(
            BigEndian::read_u16(fields),
            BigEndian::read_u16(fields.split_at(2).1),
        ),
        Kind::View => Act::View(BigEndian::read_i16(fields)),
    };
    Some(act)
}

// Returns the act at the front, and the rest behind it.
fn first_act(bytes: &[u8]) -> Option<(Act, &[u8])>
    ensures act { MatchOption result (first_act bytes.now ≡ None) (λ p. first_act bytes.now ≡ Some (p.0, p.1.now)) }
{
    let (tag, rest) = bytes.split_first()?;
    let kind = Kind::tagged(*tag)?;
    let (_, width, _) = kind.entry();
    if rest.len() < width {
        return None;
    }
    let (fields, rest) = rest.split_at(width);
    let act = act_of_fields(kind, fields)?;
    if act.in_range() {
        Some((act, rest))
    } else {
        None
    }
}

// Returns the acts that fill the bytes, `count` of them.
fn acts_in(alloc: Global, count: usize, bytes: &[u8]) -> Result<Vec<Act>, Fault>
    ensures acts { MatchResult result (λ v. acts_in count bytes.now ≡ Some v.items)
        (λ e. (e ≡ Fault.OutOfMemory) ⊎ ((e ≡ Fault.BadDatagram Reason.Length) × (acts_in count bytes.now ≡ None))) }
    ensures memory { IsErrOf result Fault.OutOfMemory → 0 < count }
    ensures first { IsErrOf result Fault.OutOfMemory → IsSome (first_act bytes.now) }
{
    let mut acts = Vec::new(alloc);
    let mut rest = bytes;
    for _ in 0..count {
        let Some((act, more)) = first_act(rest) else {
            return Err(Fault::BadDatagram(Reason::Length));
        };
        acts.push(act)?;
        rest = more;
    }
    if !rest.is_empty() {
        return Err(Fault::BadDatagram(Reason::Length));
    }
    Ok(acts)
}

/// Returns the acts of a text that has exactly `count` of them and nothing after. `BadDatagram(Length)` if the bytes are no such text.
/// `OutOfMemory` only if they begin with the text of an act in its ranges, and never for a count of 0.
pub fn read_acts(alloc: Global, count: usize, bytes: &[u8]) -> Result<Vec<Act>, Fault>
    // The acts read have this text.
    ensures found { IfOk result (λ v. (length v.items ≡ count) × All IsAct v.items × (bytes.now ≡ acts_text v.items)) }
    ensures in_range { IfOk result (λ v. All IsInRange v.items) }
    // The acts with this text are read.
    ensures only { (acts : List Act) → length acts ≡ count → All IsAct acts → bytes.now ≡ acts_text acts
        → MatchResult result (λ v. v.items ≡ acts) (λ e. e ≡ Fault.OutOfMemory) }
    ensures fault { IfErr result (λ e. (e ≡ Fault.OutOfMemory) ⊎ (e ≡ Fault.BadDatagram Reason.Length)) }
    ensures memory { IsErrOf result Fault.OutOfMemory → 0 < count }
    ensures begins { IsErrOf result Fault.OutOfMemory → BeginsWithAct bytes.now }
{
    acts_in(alloc, count, bytes)
}
