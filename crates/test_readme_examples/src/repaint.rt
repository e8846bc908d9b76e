//! A caller of `roam_repaint`, as its README shows it (`tools/worked_callers`).

// README: begin
use roam_cells::{Fault, Style};
use roam_repaint::{Ending, push_repaint};
use roam_screens::Shot;
use std::alloc::Global;

/// Returns the text that paints a screen over another one, and leaves the default style and wrapping lines.
pub fn text_over(alloc: Global, screen: &Shot) -> Result<Vec<u8>, Fault> {
    let mut text = Vec::new(alloc);
    let ending = Ending {
        pending: false,
        style: Style::default(),
        wraps: true,
    };
    push_repaint(alloc, &mut text, screen, ending)?;
    Ok(text)
}
// README: end
