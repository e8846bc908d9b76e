//! Cutting: a text in fragments that fit into datagrams.
ghost use Rattle.std.specs.Prelude.{◌≡◌, ◌<◌, ◌⊎◌, ◌↔◌, length, IfOk, IfErr, IsErrOf};
ghost use Rattle.roam_wire.specs.Cutting.{AreSendable, joined_fragments, fragments_of, texts_of};
ghost use Rattle.roam_wire.specs.Versions.{most_bytes};

use crate::versions::Version;
use roam_cells::Fault;
use std::alloc::{AllocError, Global};

// How many bytes a fragment has at most, and each before the last.
pub(crate) const FRAGMENT: usize = 1200;

// The fragments of a text of any length.
fn fragments_of(alloc: Global, text: &[u8]) -> Result<Vec<Vec<u8>>, AllocError>
    ensures fragments { IfOk result (λ fragments. texts_of fragments.items ≡ fragments_of text.now) }
{
    let mut fragments = Vec::new(alloc);
    let mut rest = text;
    while !rest.is_empty() {
        let (fragment, more) = rest.split_at(FRAGMENT.min(rest.len()));
        fragments.push(Vec::from_slice(alloc, fragment)?)?;
        rest = more;
    }
    Ok(fragments)
}

/// Returns the fragments in which a text is sent: 1,200 bytes each, and the rest; an empty text has none. `TooLong` exactly if there would
/// be more than the version allows, 1,024 or 4,096, `OutOfMemory`.
pub fn cut(alloc: Global, text: &[u8], version: Version) -> Result<Vec<Vec<u8>>, Fault>
    ensures fragments { IfOk result (λ fragments. texts_of fragments.items ≡ fragments_of text.now) }
    ensures joined { IfOk result (λ fragments. joined_fragments (texts_of fragments.items) ≡ text.now) }
    ensures sendable { IfOk result (λ fragments. AreSendable version (texts_of fragments.items)) }
    ensures too_long { IsErrOf result Fault.TooLong ↔ (most_bytes version < length text.now) }
    ensures fault { IfErr result (λ e. (e ≡ Fault.OutOfMemory) ⊎ (e ≡ Fault.TooLong)) }
{
    if text.len() > version.most_bytes() {
        return Err(Fault::TooLong);
    }
    Ok(fragments_of(alloc, text)?)
}
