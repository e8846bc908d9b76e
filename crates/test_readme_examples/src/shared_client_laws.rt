//! A caller of `roam_shared_client_laws`, as its README shows it (`tools/worked_callers`).

// README: begin
use roam_outer_terminal::Duplex;
use roam_shared_client_laws::laws::{lines_are_typed, paintings_lead};

/// Both laws, of terminals at the other end of such streams.
pub fn both_laws<S: Duplex>() {
    lines_are_typed::<S>();
    paintings_lead::<S>();
}
// README: end
