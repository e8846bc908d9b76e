//! Bytes at the front of a piece that say nothing beside the screen, and needn't be read.
ghost use Rattle.std.specs.Prelude.{◌≡◌, ◌≤◌, ◌<◌, length, take};
ghost use Rattle.roam_pane_metadata.specs.Silence.{AreStill, IsPlainSequence, SaysNothing, is_final, is_number, is_still};

use memchr::memchr3;

/// ESC, the first byte of each control sequence and control string in 7 bits (ECMA-48, 5.3).
const ESCAPE: u8 = 0x1B;

/// BEL (ECMA-48, 8.3.3).
const BELL: u8 = 0x07;

/// The first byte of each C1 control in UTF-8, and of the characters U+00A0 to U+00BF (The Unicode Standard, Table 3-6).
const C1_LEAD: u8 = 0xC2;

/// How many bytes are looked at one by one before they are searched.
const NEAR: usize = 16;

fn is_number(byte: u8) -> bool
    ensures number { result ≡ is_number byte }
{
    0x30 <= byte && byte < 0x3C
}

// Returns true if a byte ends a control sequence that counts only with a private marker or an intermediate byte.
fn is_final(byte: u8) -> bool
    ensures last { result ≡ is_final byte }
{
    0x40 <= byte && byte < 0x7F && byte != b'h' && byte != b'l' && byte != b't'
}

#[inline]
fn is_still(byte: u8) -> bool
    ensures still { result ≡ is_still byte }
{
    byte != ESCAPE && byte != BELL && byte != C1_LEAD
}

// How many bytes come before the first ESC, BEL or C2, of those that are near: between two renditions there are few.
#[inline]
fn near_run(piece: &[u8]) -> usize
    ensures within { result ≤ length piece.now }
    ensures still { AreStill (take result piece.now) }
{
    let mut at = 0;
    while at < piece.len() && at < NEAR && is_still(piece[at]) {
        at += 1;
    }
    at
}

// How many come before it.
#[inline]
fn far_run(piece: &[u8]) -> usize
    ensures within { result ≤ length piece.now }
    ensures still { AreStill (take result piece.now) }
{
    match memchr3(ESCAPE, BELL, C1_LEAD, piece) {
        Some(at) => at,
        None => piece.len(),
    }
}

// The same, near or far.
#[inline]
fn still_run(piece: &[u8]) -> usize
    ensures within { result ≤ length piece.now }
    ensures still { AreStill (take result piece.now) }
{
    let near = near_run(piece);
    if near < NEAR {
        return near;
    }
    near + far_run(&piece[near..])
}

// Returns the length of a whole control sequence at the front that has neither a private marker nor an intermediate byte, as all SGR; 0 if
// there is none.
#[inline]
fn plain_sequence(piece: &[u8]) -> usize
    ensures within { result ≤ length piece.now }
    ensures plain { 0 < result → IsPlainSequence (take result piece.now) }
{
    if piece.len() < 3 || piece[0] != ESCAPE || piece[1] != b'[' {
        return 0;
    }
    let mut at = 2;
    while at < piece.len() && is_number(piece[at]) {
        at += 1;
    }
    if at < piece.len() && is_final(piece[at]) {
        at + 1
    } else {
        0
    }
}

/// Returns how many bytes at the front of a piece are silent, if no character, sequence or string is unfinished before them: bytes behind
/// them say the same without them.
pub fn silent_run(piece: &[u8]) -> usize
    ensures within { result ≤ length piece.now }
    ensures silent { SaysNothing (take result piece.now) }
{
    let mut at = 0;
    while at < piece.len() {
        let still = at + still_run(&piece[at..]);
        let sequence = plain_sequence(&piece[still..]);
        at = still + sequence;
        if sequence == 0 {
            return at;
        }
    }
    at
}
