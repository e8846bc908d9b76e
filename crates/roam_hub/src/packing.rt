//! The datagrams of an instruction.
ghost use Rattle.std.specs.Prelude.{◌≡◌, ◌+◌, ◌≤◌, ◌<◌, ◌^◌, ◌⊎◌, length, map, true, false, ◌||◌, IfOk, IfErr, IsOkUnless};
ghost use Rattle.roam_wire.specs.Cutting.{AreSendable, fragments_of, texts_of};
ghost use Rattle.roam_wire.specs.Datagrams.{IsDatagram, datagram_text};
ghost use Rattle.roam_wire.specs.Versions.{most_bytes};
ghost use Rattle.roam_wire.specs.declared.datagrams.Kind.TheVariants.{FromWatcher};
ghost use Rattle.roam_wire.specs.declared.versions.Version.TheVariants.{Two};
ghost use Rattle.roam_model.specs.Moments.{is_spent};
ghost use Rattle.roam_model.specs.Texts.{datagram_with, datagrams_of};
ghost use Rattle.roam_acts.specs.Limits.{number_limit};

use roam_acts::limits::NUMBER_LIMIT;
use roam_cells::Fault;
use roam_wire::{Datagram, Kind, Version, cut, write_datagram};
use std::alloc::Global;

/// The addressees of an instruction's datagrams, and their first numbers.
#[derive(Clone, Copy)]
pub(crate) struct Heading {
    pub version: Version,
    pub kind: Kind,
    pub session: u64,
    pub client: u64,
    /// How many datagrams went there before.
    pub before: u64,
    /// The instruction's id.
    pub id: u64,
}

// The text of the datagram with the fragment of an index.
fn datagram(
    alloc: Global,
    heading: Heading,
    index: u16,
    count: u16,
    payload: Vec<u8>,
) -> Result<Vec<u8>, Fault>
    requires limits { IsDatagram (datagram_with heading.version heading.kind heading.session heading.client heading.before heading.id
        count (index, payload.items)) }
    ensures written { IfOk result (λ text. text.items ≡ datagram_text (datagram_with heading.version heading.kind heading.session
        heading.client heading.before heading.id count (index, payload.items))) }
    ensures fault { IsOkUnless result Fault.OutOfMemory }
{
    let datagram = Datagram {
        version: heading.version,
        kind: heading.kind,
        session: heading.session,
        client: heading.client,
        number: heading.before + u64::from(index) + 1,
        id: heading.id,
        index,
        count,
        payload,
    };
    write_datagram(alloc, &datagram)
}

// The texts of the datagrams with these fragments, in their order.
fn datagrams(
    alloc: Global,
    heading: Heading,
    fragments: Vec<Vec<u8>>,
) -> Result<Vec<Vec<u8>>, Fault>
    requires sendable { AreSendable heading.version (texts_of fragments.items) }
    requires kind { heading.kind ≡ FromWatcher → heading.version ≡ Two }
    requires session { heading.session < 2 ^ 64 }
    requires client { heading.client < 2 ^ 64 }
    requires low { 1 ≤ heading.id }
    requires high { heading.id < number_limit }
    requires numbers { heading.before + length fragments.items < number_limit }
    ensures written { IfOk result (λ all. texts_of all.items ≡ map datagram_text (datagrams_of heading.version heading.kind
        heading.session heading.client heading.before heading.id (texts_of fragments.items))) }
    ensures fault { IsOkUnless result Fault.OutOfMemory }
{
    let count = fragments.len() as u16;
    let mut all = Vec::with_capacity(alloc, fragments.len())?;
    for fragment in fragments {
        let index = all.len() as u16;
        all.push(datagram(alloc, heading, index, count, fragment)?)?;
    }
    Ok(all)
}

/// Returns the texts of the datagrams that carry an instruction's text, in their order. `Spent` exactly if the instruction's id or the
/// number of the last of them would be 2^62; `OutOfMemory`.
pub(crate) fn packed(alloc: Global, heading: Heading, text: &[u8]) -> Result<Vec<Vec<u8>>, Fault>
    requires short { length text.now ≤ most_bytes heading.version }
    requires kind { heading.kind ≡ FromWatcher → heading.version ≡ Two }
    requires session { heading.session < 2 ^ 64 }
    requires client { heading.client < 2 ^ 64 }
    requires low { 1 ≤ heading.id }
    requires before { heading.before < number_limit }
    ensures written { IfOk result (λ all. texts_of all.items ≡ map datagram_text (datagrams_of heading.version heading.kind
        heading.session heading.client heading.before heading.id (fragments_of text.now))) }
    ensures fit { IfOk result (λ _. (is_spent heading.id || is_spent (heading.before + length (fragments_of text.now))) ≡ false) }
    ensures fault { IfErr result (λ fault. (fault ≡ Fault.OutOfMemory) ⊎ ((fault ≡ Fault.Spent)
        × ((is_spent heading.id || is_spent (heading.before + length (fragments_of text.now))) ≡ true))) }
{
    let fragments = cut(alloc, text, heading.version)?;
    if heading.id >= NUMBER_LIMIT || heading.before + fragments.len() as u64 >= NUMBER_LIMIT {
        return Err(Fault::Spent);
    }
    Ok(datagrams(alloc, heading, fragments)?)
}
