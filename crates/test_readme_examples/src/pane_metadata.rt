//! A caller of `roam_pane_metadata`, as its README shows it (`tools/worked_callers`).

// README: begin
use roam_pane_metadata::{Metadata, Tracking};

/// Returns true if a front end has to ask its outer terminal for the mouse, after one more piece of the program in the pane in focus.
pub fn wants_the_mouse(metadata: &mut Metadata, piece: &[u8]) -> bool {
    metadata.feed(piece);
    !matches!(metadata.settings().tracking, Tracking::Off)
}
// README: end
