//! A caller of `roam_acts`, as its README shows it (`tools/worked_callers`).

// README: begin
ghost use Rattle.std.specs.Prelude.{◌≡◌, OnErr};

use roam_acts::{ActSender, read_act};
use roam_cells::Fault;

/// Adds the act of a line to those that wait to be sent. `BadAct`, `Busy`, `Spent`, `OutOfMemory` leave the sender as it was.
pub fn type_line(sender: &mut ActSender, line: &[u8]) -> Result<(), Fault>
    ensures err { OnErr result (sender.new ≡ sender.old) }
{
    let act = read_act(line)?;
    sender.typed(act)
}
// README: end
