//! The header of a datagram as plain numbers, and the tests on them in the order of their reasons.
ghost use Rattle.std.specs.Prelude.{◌≡◌, ◌≤◌, length};
ghost use Rattle.roam_wire.specs.Headers.{header_at, is_bad_length, is_bad_fragment, fragment_fault, checked_header};

use crate::cutting::FRAGMENT;
use crate::datagrams::Kind;
use crate::versions::Version;
use byteorder::{BigEndian, ByteOrder};
use roam_acts::limits::NUMBER_LIMIT;
use roam_cells::Reason;

// The two letters at the front, RM.
pub(crate) const MAGIC: u16 = 0x524D;

// How many bytes a header has.
pub(crate) const HEADER: usize = 42;

// The numbers of a datagram's first 42 bytes, whatever they are.
#[derive(Clone, Copy)]
pub(crate) struct Header {
    pub magic: u16,
    pub version: u8,
    pub kind: u8,
    pub session: u64,
    pub client: u64,
    pub number: u64,
    pub id: u64,
    pub index: u16,
    pub count: u16,
    pub len: u16,
}

impl Header {
    // The numbers at their places.
    pub(crate) fn read(bytes: &[u8]) -> Header
        requires whole { 42 ≤ length bytes.now }
        ensures header { result ≡ header_at bytes.now }
    {
        Header {
            magic: BigEndian::read_u16(bytes),
            version: bytes[2],
            kind: bytes[3],
            session: BigEndian::read_u64(bytes.split_at(4).1),
            client: BigEndian::read_u64(bytes.split_at(12).1),
            number: BigEndian::read_u64(bytes.split_at(20).1),
            id: BigEndian::read_u64(bytes.split_at(28).1),
            index: BigEndian::read_u16(bytes.split_at(36).1),
            count: BigEndian::read_u16(bytes.split_at(38).1),
            len: BigEndian::read_u16(bytes.split_at(40).1),
        }
    }

    fn has_bad_length(&self, rest: usize) -> bool
        ensures test { result ≡ is_bad_length self.now rest }
    {
        let len = self.len as usize;
        len == 0 || len > FRAGMENT || len != rest
    }

    fn has_bad_fragment(&self, version: Version) -> bool
        ensures test { result ≡ is_bad_fragment version self.now }
    {
        if self.count == 0
            || self.count as usize > version.most_fragments()
            || self.index >= self.count
        {
            return true;
        }
        if self.index + 1 < self.count && self.len as usize != FRAGMENT {
            return true;
        }
        self.number == 0 || self.number >= NUMBER_LIMIT || self.id == 0 || self.id >= NUMBER_LIMIT
    }

    // The first fault after the direction, before this many bytes.
    fn fragment_fault(&self, version: Version, rest: usize) -> Option<Reason>
        ensures fault { result ≡ fragment_fault version self.now rest }
    {
        if self.has_bad_length(rest) {
            Some(Reason::Length)
        } else if self.has_bad_fragment(version) {
            Some(Reason::Fragment)
        } else {
            None
        }
    }

    // Returns the version and the direction of the header before this many bytes, or the first fault.
    pub(crate) fn check(&self, rest: usize) -> Result<(Version, Kind), Reason>
        ensures checked { result ≡ checked_header self.now rest }
    {
        if self.magic != MAGIC {
            return Err(Reason::Magic);
        }
        let Some(version) = Version::numbered(self.version) else {
            return Err(Reason::Version);
        };
        let Some(kind) = Kind::tagged(version, self.kind) else {
            return Err(Reason::Kind);
        };
        match self.fragment_fault(version, rest) {
            Some(fault) => Err(fault),
            None => Ok((version, kind)),
        }
    }
}
