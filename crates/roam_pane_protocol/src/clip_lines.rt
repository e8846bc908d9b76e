//! The lines that report new clipboard texts.
ghost use Rattle.std.specs.Prelude.{◌≡◌, ◌++◌, OnOk, IsOkUnless};
ghost use Rattle.roam_pane_protocol.specs.Clips.{clip_lines, clip_text, clip_texts, clips_in};

use crate::clip_list::{ClipPane, clips_in};
use roam_cells::Fault;
use std::alloc::Global;

// Adds the line of a text, which is the last of so many.
fn push_line(
    alloc: Global,
    text: &mut Vec<u8>,
    pane: u8,
    now: &ClipPane,
    clip: &[u8],
) -> Result<(), Fault>
    ensures line { OnOk result (text.new.items ≡ text.old.items
        ++ clip_text clip.now (record { pane = pane; generation = now.now.generation; count = now.now.clips })) }
    ensures fault { IsOkUnless result Fault.OutOfMemory }
{
    let generation = now.generation;
    let head = format!(in alloc; "clip {pane} {generation} ")?;
    text.extend_from_slice(head.as_bytes())?;
    text.extend_from_slice(clip)?;
    text.extend_from_slice(b"\n")?;
    Ok(())
}

/// Appends the line `clip P GENERATION BASE64` if the program of a pane has set another clipboard text; this is the last, in base64, or
/// nothing. A generation of which nothing was reported counts as one without any. `OutOfMemory`.
pub fn push_clip(
    alloc: Global,
    text: &mut Vec<u8>,
    pane: u8,
    told: Option<ClipPane>,
    now: Option<ClipPane>,
    clip: &[u8],
) -> Result<(), Fault>
    ensures lines { OnOk result (text.new.items ≡ text.old.items ++ clip_texts clip.now (clip_lines pane told now)) }
    ensures fault { IsOkUnless result Fault.OutOfMemory }
{
    let Some(now) = now else {
        return Ok(());
    };
    if clips_in(now.generation, told) == now.clips {
        return Ok(());
    }
    push_line(alloc, text, pane, &now, clip)
}
