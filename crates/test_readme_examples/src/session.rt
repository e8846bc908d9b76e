//! A caller of `roam_session`, as its README shows it (`tools/worked_callers`).

// README: begin
ghost use Rattle.std.specs.Prelude.{◌≡◌, List, IfOk};
ghost use Rattle.roam_session.specs.Sessions.{SessionSize, Entry};
ghost use Rattle.roam_session.specs.Faces.{face};
ghost use Rattle.roam_session.specs.Stands.{Stands};

use roam_cells::Fault;
use roam_screens::RowShot;
use roam_session::Session;
use std::alloc::Global;

/// Returns the face of a session after its first pane wrote `hi`.
pub fn greeted(alloc: Global, session: &mut Session) -> Result<RowShot, Fault>
    ensures face { IfOk result (λ shot. (size : SessionSize) (log : List Entry) → Stands session.new size log → shot ≡ face size log) }
{
    session.pane_bytes(1, b"hi")?;
    session.face(alloc)
}
// README: end
