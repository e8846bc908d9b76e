//! Datagrams to a client that lead to no new screen.
ghost use Rattle.std.specs.Prelude.{◌≡◌, ◌≢◌, ◌≤◌, false, drop, length, ◌==◌};
ghost use Rattle.byteorder.specs.Endian.{big_number};
ghost use Rattle.roam_wire.specs.Datagrams.{DatagramValue, IsDatagram, datagram_text};
ghost use Rattle.roam_wire.specs.Instructions.{DownValue, IsDown, down_text};
ghost use Rattle.roam_wire.specs.Unchanging.{is_unchanging};

use crate::headers::{HEADER, Header};
use crate::instructions::DOWN;
use byteorder::{BigEndian, ByteOrder};

// Returns true if the first two numbers of these bytes are equal.
fn is_twice_one_number(bytes: &[u8]) -> bool
    requires whole { 32 ≤ length bytes.now }
    ensures twice { result ≡ (big_number 8 bytes.now == big_number 8 (drop 8 bytes.now)) }
{
    BigEndian::read_u64(bytes) == BigEndian::read_u64(bytes.split_at(8).1)
}

/// Returns true if a datagram contains a whole instruction to a client whose diff leads from a screen to that same screen. It needs no
/// memory.
pub fn is_unchanging(bytes: &[u8]) -> bool
    ensures unchanging { (d : DatagramValue) (u : DownValue) → IsDatagram d → IsDown u → bytes.now ≡ datagram_text d
        → d.payload ≡ down_text u → result ≡ is_unchanging d u }
    // One of several fragments may bring a new screen, whatever its bytes.
    ensures part { (d : DatagramValue) → IsDatagram d → bytes.now ≡ datagram_text d → d.count ≢ 1 → result ≡ false }
{
    if bytes.len() < HEADER + DOWN {
        return false;
    }
    let header = Header::read(bytes);
    let (_, payload) = bytes.split_at(HEADER);
    header.count == 1 && is_twice_one_number(payload)
}
