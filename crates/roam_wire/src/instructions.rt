//! Instructions in both directions: a diff of the screen for a client, acts for the server.
ghost use Rattle.std.specs.Prelude.{◌≡◌, ◌++◌, ◌⊎◌, IfOk, IfErr, IsErrOf, IsOkUnless, MatchResult};
ghost use Rattle.std.specs.List.{All};
ghost use Rattle.roam_acts.specs.Acts.{IsInRange};
ghost use Rattle.roam_wire.specs.Instructions.{DownValue, down_value, down_text, IsDown, IsDownText, UpValue, up_value, up_text, IsUp, IsUpOf, HasActs, reason_for};

use byteorder::{BigEndian, ByteOrder};
use roam_acts::limits::{MOST_ACTS, NUMBER_LIMIT};
use roam_acts::{Act, read_acts, write_acts};
use roam_cells::{Fault, Reason};
use std::alloc::Global;

// The number of bytes before a diff.
pub(crate) const DOWN: usize = 32;

// The number of bytes before the acts.
const UP: usize = 18;

/// An instruction to a client: how its screen changes, and which of its acts were taken. Each number is below 2^62.
#[derive(Debug, Drop)]
pub struct Down {
    /// The number of the screen that the diff is written against, at most `new`.
    pub old: u64,

    /// The number of the screen that the diff leads to.
    pub new: u64,

    /// The lowest number of a screen that may still be written against, at most `old`.
    pub floor: u64,

    /// How many of the client's acts were taken.
    pub acked: u64,

    /// The text of the diff.
    pub change: Vec<u8>,
}

/// An instruction to the server: the screen that the client has, and the acts that were typed.
#[derive(Debug, Drop)]
pub struct Up {
    /// The number of the newest screen that the client has, below 2^62.
    pub acked: u64,

    /// The number of the first act, from 1 and below 2^62.
    pub first: u64,

    /// At most 64 acts, numbered one after the other.
    pub acts: Vec<Act>,
}

/// The instruction to a client that the bytes spell. `BadDatagram(Short)` for fewer than 32 bytes, `BadDatagram(Length)` for others
/// that spell none; `OutOfMemory` only for bytes that spell one.
pub fn read_down(alloc: Global, bytes: &[u8]) -> Result<Down, Fault>
    // The bytes read are this text.
    ensures found { IfOk result (λ d. IsDown (down_value d) × (bytes.now ≡ down_text (down_value d))) }
    // This text is read.
    ensures only { (d : DownValue) → IsDown d → bytes.now ≡ down_text d
        → MatchResult result (λ read. down_value read ≡ d) (λ e. e ≡ Fault.OutOfMemory) }
    ensures fault { IfErr result (λ e. (e ≡ Fault.OutOfMemory) ⊎ (e ≡ Fault.BadDatagram (reason_for 32 bytes.now))) }
    ensures memory { IsErrOf result Fault.OutOfMemory → IsDownText bytes.now }
{
    if bytes.len() < DOWN {
        return Err(Fault::BadDatagram(Reason::Short));
    }
    let old = BigEndian::read_u64(bytes);
    let new = BigEndian::read_u64(bytes.split_at(8).1);
    let floor = BigEndian::read_u64(bytes.split_at(16).1);
    let acked = BigEndian::read_u64(bytes.split_at(24).1);
    if floor > old || old > new || new >= NUMBER_LIMIT || acked >= NUMBER_LIMIT {
        return Err(Fault::BadDatagram(Reason::Length));
    }
    let change = Vec::from_slice(alloc, bytes.split_at(DOWN).1)?;
    Ok(Down {
        old,
        new,
        floor,
        acked,
        change,
    })
}

/// The text of an instruction to a client. `OutOfMemory`. That its numbers are within their limits is the caller's condition.
pub fn write_down(alloc: Global, down: &Down) -> Result<Vec<u8>, Fault>
    requires limits { IsDown (down_value down.now) }
    ensures written { IfOk result (λ v. v.items ≡ down_text (down_value down.now)) }
    ensures fault { IsOkUnless result Fault.OutOfMemory }
{
    let mut head = [0u8; DOWN];
    BigEndian::write_u64(&mut head, down.old);
    BigEndian::write_u64(&mut head[8..], down.new);
    BigEndian::write_u64(&mut head[16..], down.floor);
    BigEndian::write_u64(&mut head[24..], down.acked);
    let mut text = Vec::from_slice(alloc, &head)?;
    text.extend_from_slice(down.change.as_slice())?;
    Ok(text)
}

/// Returns the instruction to the server that the bytes spell. `BadDatagram(Short)` for fewer than 18 bytes, `BadDatagram(Length)` for
/// others that spell none, and for acts of a read-only instance; `OutOfMemory` only if there are acts to read.
pub fn read_up(alloc: Global, bytes: &[u8], watches: bool) -> Result<Up, Fault>
    // The bytes read are this text.
    ensures found { IfOk result (λ u. IsUpOf watches (up_value u) × (bytes.now ≡ up_text (up_value u))) }
    ensures in_range { IfOk result (λ u. All IsInRange u.acts.items) }
    // This text is read.
    ensures only { (u : UpValue) → IsUpOf watches u → bytes.now ≡ up_text u
        → MatchResult result (λ read. up_value read ≡ u) (λ e. e ≡ Fault.OutOfMemory) }
    ensures fault { IfErr result (λ e. (e ≡ Fault.OutOfMemory) ⊎ (e ≡ Fault.BadDatagram (reason_for 18 bytes.now))) }
    ensures memory { IsErrOf result Fault.OutOfMemory → HasActs watches bytes.now }
{
    if bytes.len() < UP {
        return Err(Fault::BadDatagram(Reason::Short));
    }
    let acked = BigEndian::read_u64(bytes);
    let first = BigEndian::read_u64(bytes.split_at(8).1);
    let count = BigEndian::read_u16(bytes.split_at(16).1) as usize;
    if acked >= NUMBER_LIMIT || first == 0 || first >= NUMBER_LIMIT || count > MOST_ACTS {
        return Err(Fault::BadDatagram(Reason::Length));
    }
    // A read-only instance has no acts, so this is checked before any act is read.
    if watches && count != 0 {
        return Err(Fault::BadDatagram(Reason::Length));
    }
    let acts = read_acts(alloc, count, bytes.split_at(UP).1)?;
    Ok(Up { acked, first, acts })
}

/// The text of an instruction to the server. `OutOfMemory`. That its numbers and its acts are within their limits is the caller's
/// condition.
pub fn write_up(alloc: Global, up: &Up) -> Result<Vec<u8>, Fault>
    requires limits { IsUp (up_value up.now) }
    ensures written { IfOk result (λ v. v.items ≡ up_text (up_value up.now)) }
    ensures fault { IsOkUnless result Fault.OutOfMemory }
{
    let mut head = [0u8; UP];
    BigEndian::write_u64(&mut head, up.acked);
    BigEndian::write_u64(&mut head[8..], up.first);
    BigEndian::write_u16(&mut head[16..], up.acts.len() as u16);
    let mut text = Vec::from_slice(alloc, &head)?;
    write_acts(up.acts.as_slice(), &mut text)?;
    Ok(text)
}
