//! Laws of the definitions, each the contract of a function that does nothing when it runs.
ghost use Rattle.roam_display_records.specs.Taken.{NeverTooEarly};

/// No line is reported as taken before all its acts, and those of the lines before it, are acknowledged.
pub fn none_too_early()
    ensures early { NeverTooEarly }
{}
