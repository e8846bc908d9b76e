//! The front of some bytes.
ghost use Rattle.std.specs.Prelude.{◌≡◌, ◌≤◌, ◌<◌, ◌+◌, ◌-◌, ◌⊎◌, ◌++◌, ◌==◌, false, cond, suc, length, take, drop, slice_index, OnOk};
ghost use Rattle.roam_normalize.specs.Found.{AreStill, IsFound, IsScan, is_plain, is_still, with_bytes};
ghost use Rattle.roam_normalize.specs.Renditions.{may_change};
ghost use Rattle.roam_normalize.specs.Normalized.{GoesThrough, is_body, is_final, most_body, scan};
ghost use Rattle.roam_normalize.specs.Titles.{IsLength};

use crate::meanings::{Kind, kind_of};
use crate::renditions::{MOST_SEMICOLONS, is_pair};
use crate::titles::title_at;
use memchr::memchr2;

/// The most bytes of a control sequence between CSI and its final byte that are looked at.
pub const MOST_BODY: usize = 255;

/// The most bytes that are kept back.
pub const MOST_HELD: usize = 257;

/// ESC (ECMA-48, 5.3).
pub(crate) const ESCAPE: u8 = 0x1B;

/// The first byte of the characters U+0080 to U+00BF, the soft hyphen among them (The Unicode Standard, Table 3-6).
const LEAD: u8 = 0xC2;

/// The second byte of the soft hyphen.
const SOFT_HYPHEN: u8 = 0xAD;

/// How many bytes are looked at one by one before they are searched.
const NEAR: usize = 16;

/// The scan of the bytes behind ESC and 5B.
#[derive(Clone, Copy)]
pub enum Scanned {
    /// The beginning of a control sequence.
    Unfinished,
    Neither,
    /// So many bytes and a final byte.
    Sequence(usize),
}

/// The front.
#[derive(Clone, Copy)]
pub enum Found {
    /// Nothing, or bytes whose meaning may still change.
    Held,
    /// So many bytes that go through as they are.
    Same(usize),
    /// The soft hyphen.
    Hyphen,
    /// A title, which goes out as nothing, with so many bytes.
    Titled(usize),
    /// A control sequence of this kind, with so many bytes between CSI and its final byte.
    Changed(Kind, usize),
}

#[inline]
fn is_body(byte: u8) -> bool
    ensures body { result ≡ is_body byte }
{
    0x20 <= byte && byte < 0x40
}

#[inline]
fn is_final(byte: u8) -> bool
    ensures last { result ≡ is_final byte }
{
    0x40 <= byte && byte < 0x7F
}

// Returns the number of bytes allowed between CSI and a final byte, at most those that are looked at.
fn body_run(bytes: &[u8]) -> usize
    ensures within { result ≤ length bytes.now }
    ensures few { result ≤ most_body }
    ensures scan { scan most_body bytes.now ≡ with_bytes (take result bytes.now) (scan (most_body - result) (drop result bytes.now)) }
    ensures stops { result < length bytes.now → (most_body ≤ result) ⊎ (is_body (slice_index bytes.now result) ≡ false) }
{
    let mut at = 0;
    while at < bytes.len() && at < MOST_BODY && is_body(bytes[at]) {
        at += 1;
    }
    at
}

fn scan(bytes: &[u8]) -> Scanned
    ensures scanned { IsScan result bytes.now }
{
    let at = body_run(bytes);
    if at == bytes.len() {
        return Scanned::Unfinished;
    }
    if is_final(bytes[at]) {
        Scanned::Sequence(at)
    } else {
        Scanned::Neither
    }
}

#[inline]
fn is_plain(byte: u8) -> bool
    ensures plain { result ≡ is_plain byte }
{
    b'0' <= byte && byte < b':' || byte == b';'
}

#[inline]
fn counted(byte: u8, semicolons: usize) -> usize
    requires few { semicolons ≤ most_body }
    ensures count { result ≡ cond (byte == 0x3B) (suc semicolons) semicolons }
{
    if byte == b';' {
        semicolons + 1
    } else {
        semicolons
    }
}

// Returns the number of digits and semicolons behind ESC and 5B; 0 if a rendition with them may need spelling out. Most control sequences
// have nothing else, so this first look decides.
#[inline]
fn plain_body(rest: &[u8]) -> usize
    ensures within { result ≤ length rest.now }
    ensures scan { scan most_body rest.now ≡ with_bytes (take result rest.now) (scan (most_body - result) (drop result rest.now)) }
    ensures first { 0 < result → slice_index rest.now 0 < 0x3C }
    ensures glance { 0 < result → may_change 0 0 (take result rest.now) ≡ false }
{
    let mut before = 0;
    let mut semicolons = 0;
    let mut at = 0;
    while at < rest.len() && at < MOST_BODY && is_plain(rest[at]) {
        if is_pair(before, rest[at]) {
            return 0;
        }
        semicolons = counted(rest[at], semicolons);
        before = rest[at];
        at += 1;
    }
    if semicolons > MOST_SEMICOLONS { 0 } else { at }
}

// Returns the front of bytes that begin with ESC and 5B.
fn sequence_found(bytes: &[u8]) -> Found
    requires some { 2 ≤ length bytes.now }
    requires escape { slice_index bytes.now 0 ≡ 0x1B }
    requires bracket { slice_index bytes.now 1 ≡ 0x5B }
    ensures found { IsFound result bytes.now }
{
    let rest = &bytes[2..];
    let plain = plain_body(rest);
    if plain > 0 && plain < rest.len() && is_final(rest[plain]) {
        return Found::Same(plain + 3);
    }
    match scan(rest) {
        Scanned::Unfinished => Found::Held,
        Scanned::Neither => Found::Same(1),
        Scanned::Sequence(count) => match kind_of(&rest[..count], rest[count]) {
            Kind::AsItStands => Found::Same(count + 3),
            kind => Found::Changed(kind, count),
        },
    }
}

// Returns the front of bytes that begin with ESC and 6B.
fn title_found(bytes: &[u8]) -> Found
    requires some { 2 ≤ length bytes.now }
    requires escape { slice_index bytes.now 0 ≡ 0x1B }
    requires letter { slice_index bytes.now 1 ≡ 0x6B }
    ensures found { IsFound result bytes.now }
{
    match title_at(&bytes[2..]) {
        None => Found::Held,
        Some(title) => Found::Titled(title.letters + title.end + 2),
    }
}

/// Returns the front of some bytes.
pub fn find(bytes: &[u8]) -> Found
    ensures found { IsFound result bytes.now }
{
    match bytes {
        [] | [ESCAPE] | [LEAD] => Found::Held,
        [ESCAPE, b'[', ..] => sequence_found(bytes),
        [ESCAPE, b'k', ..] => title_found(bytes),
        [LEAD, SOFT_HYPHEN, ..] => Found::Hyphen,
        _ => Found::Same(1),
    }
}

#[inline]
fn is_still(byte: u8) -> bool
    ensures still { result ≡ is_still byte }
{
    byte != ESCAPE && byte != LEAD
}

// How many bytes come before the first ESC or C2, of those that are near: between two renditions there are few.
#[inline]
fn near_run(bytes: &[u8]) -> usize
    ensures within { result ≤ length bytes.now }
    ensures still { AreStill (take result bytes.now) }
{
    let mut at = 0;
    while at < bytes.len() && at < NEAR && is_still(bytes[at]) {
        at += 1;
    }
    at
}

// How many come before it.
#[inline]
fn far_run(bytes: &[u8]) -> usize
    ensures within { result ≤ length bytes.now }
    ensures still { AreStill (take result bytes.now) }
{
    match memchr2(ESCAPE, LEAD, bytes) {
        Some(at) => at,
        None => bytes.len(),
    }
}

/// How many bytes come before the first ESC or C2.
#[inline]
pub fn still_run(bytes: &[u8]) -> usize
    ensures within { result ≤ length bytes.now }
    ensures still { AreStill (take result bytes.now) }
{
    let near = near_run(bytes);
    if near < NEAR {
        return near;
    }
    near + far_run(&bytes[near..])
}

/// Returns the number of bytes that the front takes; 0 if it is kept back.
pub fn front_length(bytes: &[u8]) -> usize
    ensures within { result ≤ length bytes.now }
    ensures length { IsLength result bytes.now }
{
    match find(bytes) {
        Found::Held => 0,
        Found::Same(count) | Found::Titled(count) => count,
        Found::Hyphen => 2,
        Found::Changed(_, count) => count + 3,
    }
}

// Returns the number of first bytes that pass unchanged; 0 if there are none.
fn same_front(bytes: &[u8]) -> usize
    ensures within { result ≤ length bytes.now }
    ensures same { GoesThrough (take result bytes.now) (drop result bytes.now) }
{
    match find(bytes) {
        Found::Same(count) => count,
        Found::Held | Found::Hyphen | Found::Titled(_) | Found::Changed(..) => 0,
    }
}

/// How many bytes at the front go through as they are.
pub fn same_run(bytes: &[u8]) -> usize
    ensures within { result ≤ length bytes.now }
    ensures same { GoesThrough (take result bytes.now) (drop result bytes.now) }
{
    let mut at = 0;
    while at < bytes.len() {
        at += still_run(&bytes[at..]);
        let same = same_front(&bytes[at..]);
        if same == 0 {
            return at;
        }
        at += same;
    }
    at
}
