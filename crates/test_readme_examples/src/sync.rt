//! A caller of `roam_sync`, as its README shows it (`tools/worked_callers`).

// README: begin
use roam_cells::Fault;
use roam_screens::RowShot;
use roam_sync::{Receiver, Sender, Step};
use std::alloc::Global;

/// Returns true if a receiver has the newest screen of a sender after one delivered instruction, and the sender knows it.
pub fn is_brought_up(
    alloc: Global,
    sender: &mut Sender<RowShot>,
    receiver: &mut Receiver<RowShot>,
) -> Result<bool, Fault> {
    let instruction = sender.instruction(alloc)?;
    sender.sent(250);
    let step = receiver.take(
        alloc,
        instruction.old,
        instruction.new,
        instruction.floor,
        &instruction.change,
    )?;
    let (number, _) = receiver.newest();
    sender.acked(number);
    Ok(step == Step::New && sender.len() == 1)
}
// README: end
