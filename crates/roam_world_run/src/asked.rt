//! The questions of a script to a world: the screen of a client instance, the session's face, the bytes queued for a pane's program.

ghost use Rattle.std.specs.Prelude.{◌≡◌, ◌++◌, Some, true, IfOk, IfSome, IfNone, OnOk, IsOkUnless, string_bytes};
ghost use Rattle.roam_session.specs.Refusals.{output_at};
ghost use Rattle.roam_model.specs.Worlds.{World as WorldOf};
ghost use Rattle.roam_simulation.specs.Worlds.{Stands};
ghost use Rattle.roam_world_script.specs.Lines.{value_of};
ghost use Rattle.roam_world_run.specs.Asked.{asked_in, asks_nothing, bytes_line, face_text, slot_text, waiting_text};

use crate::replies::number_of;
use roam_cells::Fault;
use roam_show::{push_numbered, push_screen};
use roam_simulation::World;
use roam_world_script::Line;
use std::alloc::{AllocError, Global};

// Adds the number and the screen that the instance in a slot shows.
fn push_shown(alloc: Global, text: &mut String, world: &World, slot: u8) -> Result<(), Fault>
    ensures text { OnOk result ((w : WorldOf) → Stands world.now w
        → string_bytes text.new ≡ string_bytes text.old ++ slot_text w.clients (w.slots slot)) }
    ensures fault { IsOkUnless result Fault.OutOfMemory }
{
    let Some(client) = world.client(slot as usize) else {
        text.push_str("refused\n")?;
        return Ok(());
    };
    let (number, shot) = client.shown();
    push_numbered(text, "state ", number)?;
    push_screen(alloc, text, &shot)
}

// Adds the session's face.
fn push_face(alloc: Global, text: &mut String, world: &World) -> Result<(), Fault>
    ensures text { OnOk result ((w : WorldOf) → Stands world.now w → string_bytes text.new ≡ string_bytes text.old ++ face_text w) }
    ensures fault { IsOkUnless result Fault.OutOfMemory }
{
    let face = world.server().face(alloc)?;
    push_screen(alloc, text, &face)
}

// Appends bytes in hexadecimal, or a dash if there are none.
fn push_bytes(alloc: Global, text: &mut String, bytes: &[u8]) -> Result<(), AllocError>
    ensures text { OnOk result (string_bytes text.new ≡ string_bytes text.old ++ bytes_line bytes.now) }
{
    if bytes.is_empty() {
        return text.push_str("-\n");
    }
    let digits = hex::encode(alloc, bytes)?;
    text.push_str(digits.as_str())?;
    text.push('\n')
}

// Adds the bytes that wait for the program of a pane.
fn push_waiting(alloc: Global, text: &mut String, world: &World, pane: u8) -> Result<(), Fault>
    ensures text { OnOk result ((w : WorldOf) → Stands world.now w
        → string_bytes text.new ≡ string_bytes text.old ++ waiting_text (output_at w.server.size w.server.log pane)) }
    ensures fault { IsOkUnless result Fault.OutOfMemory }
{
    let server = world.server();
    let len = server.output_len(pane).unwrap_or(0);
    let mut bytes = vec![in alloc; 0u8; len]?;
    match server.output(pane, &mut bytes) {
        Ok(_) => {
            push_bytes(alloc, text, &bytes)?;
            Ok(())
        }
        Err(fault) => {
            push_numbered(text, "E", number_of(fault))?;
            Ok(())
        }
    }
}

/// Returns the text of a line's question to a world; `None` if it asks none.
pub(crate) fn asked(alloc: Global, world: &World, line: &Line) -> Result<Option<String>, Fault>
    ensures asked { IfOk result (λ o. IfSome o (λ text. (w : WorldOf) → Stands world.now w
        → asked_in w (value_of line.now) ≡ Some (string_bytes text))) }
    ensures none { IfOk result (λ o. IfNone o (asks_nothing (value_of line.now) ≡ true)) }
    ensures fault { IsOkUnless result Fault.OutOfMemory }
{
    let mut text = String::new(alloc);
    match *line {
        Line::Show(slot) => {
            push_shown(alloc, &mut text, world, slot)?;
            Ok(Some(text))
        }
        Line::Face => {
            push_face(alloc, &mut text, world)?;
            Ok(Some(text))
        }
        Line::Output(pane) => {
            push_waiting(alloc, &mut text, world, pane)?;
            Ok(Some(text))
        }
        _ => Ok(None),
    }
}
