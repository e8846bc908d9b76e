//! A caller of `roam_controls`, as its README shows it (`tools/worked_callers`).

// README: begin
ghost use Rattle.std.specs.Prelude.{◌≡◌};
ghost use Rattle.roam_text.specs.Dispatched.{function_of};
ghost use Rattle.roam_controls.specs.Commands.{command_of};

use roam_controls::{Command, command_of};
use roam_text::{Dispatch, Reader};

/// Returns the command of a dispatched function, with the parameters that the reader lends.
pub fn requested(reader: &Reader, dispatch: Dispatch) -> Command
    ensures command { result ≡ command_of (function_of dispatch reader.now.parameters reader.now.intermediates) }
{
    command_of(dispatch, reader.parameters(), reader.intermediates())
}
// README: end
