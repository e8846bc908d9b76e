//! Datagrams in both directions: a header of 42 bytes and one fragment of an instruction.
ghost use Rattle.std.specs.Prelude.{◌≡◌, ◌++◌, IfOk, IsOkUnless, MatchResult};
ghost use Rattle.roam_wire.specs.Datagrams.{DatagramValue, datagram_value, datagram_text, IsDatagram, tag_of};
ghost use Rattle.roam_wire.specs.Headers.{datagram_at, Gives, kind_tagged};

use crate::headers::{HEADER, Header, MAGIC};
use crate::versions::Version;
use byteorder::{BigEndian, ByteOrder};
use roam_cells::{Fault, Reason};
use std::alloc::Global;

/// Where a datagram goes, and whether it comes from an instance that only watches.
#[derive(Clone, Copy, Debug, PartialEq, Eq)]
pub enum Kind {
    /// From the server to a client.
    ToClient,

    /// From a client to the server.
    ToServer,

    /// From a client that only watches to the server, in version 2 alone.
    FromWatcher,
}

impl Kind {
    // Returns the byte of this direction.
    fn tag(self) -> u8
        ensures tag { result ≡ tag_of self }
    {
        match self {
            Kind::ToClient => 1,
            Kind::ToServer => 2,
            Kind::FromWatcher => 3,
        }
    }

    // Returns the direction of a byte in a version.
    pub(crate) fn tagged(version: Version, tag: u8) -> Option<Kind>
        ensures kind { result ≡ kind_tagged version tag }
    {
        match (version, tag) {
            (_, 1) => Some(Kind::ToClient),
            (_, 2) => Some(Kind::ToServer),
            (Version::Two, 3) => Some(Kind::FromWatcher),
            _ => None,
        }
    }
}

/// One fragment of an instruction, and whom it is for.
#[derive(Debug, Drop)]
pub struct Datagram {
    /// The version of the format.
    pub version: Version,

    /// Where it goes.
    pub kind: Kind,

    /// The id of the session.
    pub session: u64,

    /// The id of the client's instance.
    pub client: u64,

    /// The number of the datagram among those of the instance in this direction, from 1 and below 2^62.
    pub number: u64,

    /// The id of the instruction that this is a fragment of, from 1 and below 2^62.
    pub id: u64,

    /// The fragment's place among the fragments of the instruction, from 0.
    pub index: u16,

    /// How many fragments the instruction has, 1 to 1,024, in version 2 to 4,096.
    pub count: u16,

    /// The fragment, 1 to 1,200 bytes; each fragment before the last has 1,200.
    pub payload: Vec<u8>,
}

/// The datagram that the bytes spell. `BadDatagram` with the first reason of these: `Short` (fewer than 42 bytes), `Magic`, `Version`,
/// `Kind`, `Length`, `Fragment`; `OutOfMemory`.
pub fn read_datagram(alloc: Global, bytes: &[u8]) -> Result<Datagram, Fault>
    // The bytes read are this text.
    ensures found { IfOk result (λ d. IsDatagram (datagram_value d) × (bytes.now ≡ datagram_text (datagram_value d))) }
    // This text is read.
    ensures only { (d : DatagramValue) → IsDatagram d → bytes.now ≡ datagram_text d
        → MatchResult result (λ read. datagram_value read ≡ d) (λ e. e ≡ Fault.OutOfMemory) }
    // Which reason it is.
    ensures fault { Gives datagram_value (datagram_at bytes.now) result }
{
    if bytes.len() < HEADER {
        return Err(Fault::BadDatagram(Reason::Short));
    }
    let header = Header::read(bytes);
    let (_, payload) = bytes.split_at(HEADER);
    match header.check(payload.len()) {
        Err(reason) => Err(Fault::BadDatagram(reason)),
        Ok((version, kind)) => Ok(Datagram {
            version,
            kind,
            session: header.session,
            client: header.client,
            number: header.number,
            id: header.id,
            index: header.index,
            count: header.count,
            payload: Vec::from_slice(alloc, payload)?,
        }),
    }
}

/// The text of a datagram. `OutOfMemory`. That its numbers are within their limits is the caller's condition.
pub fn write_datagram(alloc: Global, datagram: &Datagram) -> Result<Vec<u8>, Fault>
    requires limits { IsDatagram (datagram_value datagram.now) }
    ensures written { IfOk result (λ v. v.items ≡ datagram_text (datagram_value datagram.now)) }
    ensures fault { IsOkUnless result Fault.OutOfMemory }
{
    let mut head = [0u8; HEADER];
    BigEndian::write_u16(&mut head, MAGIC);
    head[2] = datagram.version.number();
    head[3] = datagram.kind.tag();
    BigEndian::write_u64(&mut head[4..], datagram.session);
    BigEndian::write_u64(&mut head[12..], datagram.client);
    BigEndian::write_u64(&mut head[20..], datagram.number);
    BigEndian::write_u64(&mut head[28..], datagram.id);
    BigEndian::write_u16(&mut head[36..], datagram.index);
    BigEndian::write_u16(&mut head[38..], datagram.count);
    BigEndian::write_u16(&mut head[40..], datagram.payload.len() as u16);
    let mut text = Vec::with_capacity(alloc, HEADER + datagram.payload.len())?;
    text.extend_from_slice(&head)?;
    text.extend_from_slice(datagram.payload.as_slice())?;
    Ok(text)
}
