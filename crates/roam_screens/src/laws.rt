//! Laws of narrowing, each the contract of a function without a body.
ghost use Rattle.std.specs.Prelude.{◌≡◌};
ghost use Rattle.roam_screens.specs.Screenshot.{Screenshot, IsScreenshot};
ghost use Rattle.roam_screens.specs.Narrow.{IsOldScreenshot, narrow};

/// A screen as one of version 1 is one, and one of version 1 stays as it is.
#[tactic(auto, using(crate::proofs::Narrowed::narrowed, crate::proofs::Narrowed::stays))]
pub fn narrowing()
    ensures old { (s : Screenshot) → IsScreenshot s → IsOldScreenshot (narrow s) }
    ensures stays { (s : Screenshot) → IsOldScreenshot s → narrow s ≡ s }
{}
