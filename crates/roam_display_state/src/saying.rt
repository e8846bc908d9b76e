//! Records for a terminal, added to the bytes that wait for it.
ghost use Rattle.std.specs.Prelude.{◌≡◌, ◌++◌, OnErr, OnOk, IsOkUnless};
ghost use Rattle.roam_display_records.specs.Records.{text_of};

use roam_cells::Fault;
use roam_display_records::{Record, record_text};
use roam_stream_framing::Outbox;
use std::alloc::Global;

/// Adds a record to `waiting`.
///
/// # Errors
///
/// `OutOfMemory`: nothing was added.
pub fn say(alloc: Global, waiting: &mut Outbox, told: Record<'_>) -> Result<(), Fault>
    ensures said { OnOk result (waiting.new ≡ waiting.old ++ text_of told.entry) }
    ensures err { OnErr result (waiting.new ≡ waiting.old) }
    ensures fault { IsOkUnless result Fault.OutOfMemory }
{
    let text = record_text(alloc, told)?;
    waiting.push(&text)
}
