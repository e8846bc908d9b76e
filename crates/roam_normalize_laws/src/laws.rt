//! Laws of the definitions, each the contract of a function that does nothing when it runs.
ghost use Rattle.roam_normalize_laws.specs.Sense.{LineFormMeansItsValue, SpelledOutMeansTheSame};

/// SGR with any number of parameters, none with a colon, sets the same style when it is spelled out as it would set without the terminal's
/// limit of sixteen parameters (ECMA-48, 8.3.117). No parameter may select 58 or 59. As a value of 38 or 48, either may occur.
pub fn spelled_out_means_the_same()
    ensures same { SpelledOutMeansTheSame }
{}

/// SGR `4:n` sets the underline exactly if n is not 0, and nothing else of the style.
pub fn a_line_is_shown_unless_its_form_is_zero()
    ensures underline { LineFormMeansItsValue }
{}
