//! Laws of the definitions, each the contract of a function without a body.
ghost use Rattle.roam_repaint.specs.Repainted.{TextIsRead, TextRepaints};

/// The effect of the text of a screen on a terminal, and the reading of the text.
pub fn text_repaints()
    ensures repaints { TextRepaints }
    ensures read { TextIsRead }
{}
