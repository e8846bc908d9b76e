//! Laws of the definitions, each the contract of a function that does nothing when it runs.
ghost use Rattle.roam_terminal_input.specs.Lines.{FirstIsEnded};

/// If the first line is whole, the bytes are the line, its end and the rest.
pub fn first_is_ended()
    ensures ended { FirstIsEnded }
{}
