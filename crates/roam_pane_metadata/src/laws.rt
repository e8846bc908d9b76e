//! Laws of the definitions, each the contract of a function without a body.
ghost use Rattle.std.specs.Prelude.{◌≡◌, ◌≤◌, ◌+◌, ℕ, false, List, [], ◌∷◌, ◌++◌, length, map, None};
ghost use Rattle.std.specs.List.{flat_map};
ghost use Rattle.roam_text.specs.Log.{Byte};
ghost use Rattle.roam_text.specs.Strings.{strings_of};
ghost use Rattle.roam_text.specs.declared.functions.Function.TheVariants.{Csi};
ghost use Rattle.roam_pane_metadata.specs.declared.settings.Settings.{Settings};
ghost use Rattle.roam_pane_metadata.specs.Settings.{heard, reset_settings, settings_of};
ghost use Rattle.roam_pane_metadata.specs.ScreenModes.{fresh_modes, modes_of};
ghost use Rattle.roam_pane_metadata.specs.Queries.{asked_after, by_functions, by_strings, queries_of};
ghost use Rattle.roam_pane_metadata.specs.Texts.{Said};
ghost use Rattle.roam_pane_metadata.specs.Emissions.{TakesBack, after_emission, resets_of, spoken_of, string_in, emitted_after, emitted_by, emissions_of};
ghost use Rattle.roam_pane_metadata.specs.Metadata.{MetadataView, Stands};
ghost use Rattle.roam_pane_metadata.specs.Silence.{AreStill, SaysNothing};

/// RIS, ESC 63, resets all settings of a program and all modes of its screen, whatever is unfinished before it; the bells that rang are
/// still reported (ECMA-48, 8.3.105). It is emitted behind all earlier emissions, and there is no title then. All other texts stay.
pub fn a_reset_resets()
    ensures reset { (bytes : List ℕ) → settings_of (bytes ++ 0x1B ∷ 0x63 ∷ []) ≡ reset_settings (settings_of bytes) }
    ensures modes { (bytes : List ℕ) → modes_of (bytes ++ 0x1B ∷ 0x63 ∷ []) ≡ fresh_modes }
    ensures uttered { (bytes : List ℕ) → emissions_of (bytes ++ 0x1B ∷ 0x63 ∷ []) ≡ emissions_of bytes ++ TakesBack ∷ [] }
    ensures title { (metadata : MetadataView) (bytes : List ℕ) → Stands metadata (bytes ++ 0x1B ∷ 0x63 ∷ [])
        → metadata.texts.said.title ≡ None }
    ensures stays { (s : Said) → record (after_emission s TakesBack) { title = s.title; titles = s.titles } ≡ s }
{}

/// DECSTR, CSI ! p, makes the keypad numeric (DEC VT220, section 4.12). It leaves all else that a program sets outside its screen, and takes
/// nothing back.
pub fn a_soft_reset_resets_the_keypad_alone()
    ensures soft { (s : Settings) (params : List ℕ)
        → heard s (Csi None (record { items = params }) (record { items = 0x21 ∷ [] }) 0x70) ≡ record s { application_keypad = false } }
    ensures uttered { (params : List ℕ)
        → emitted_by (Csi None (record { items = params }) (record { items = 0x21 ∷ [] }) 0x70) ≡ [] }
{}

/// Bytes without ESC, BEL and C2 are silent, if nothing is unfinished before them, even if a character is unfinished after them.
pub fn still_bytes_say_nothing()
    ensures silent { (bytes : List ℕ) → AreStill bytes → SaysNothing bytes }
{}

/// The count of bells only grows.
pub fn bells_only_grow()
    ensures grow { (bytes more : List ℕ) → (settings_of bytes).bells ≤ (settings_of (bytes ++ more)).bells }
{}

/// The questions of the bytes are those of the control functions and of the control strings, and nothing else. Those of a front come first.
pub fn each_query_is_asked_once()
    ensures once { (bytes : List ℕ) → length (queries_of bytes) ≡ length (by_functions bytes) + length (by_strings bytes) }
    ensures front { (bytes more : List ℕ) → queries_of (bytes ++ more) ≡ queries_of bytes ++ asked_after bytes more }
{}

/// The control strings among the emissions are those of the bytes, in order; all other emissions are resets, one for each RIS. The
/// emissions of a front come first.
pub fn each_string_is_emitted_once()
    ensures strings { (bytes : List ℕ) → flat_map string_in (emissions_of bytes) ≡ strings_of (map Byte bytes) }
    ensures once { (bytes : List ℕ) → length (emissions_of bytes) ≡ length (resets_of bytes) + length (spoken_of bytes) }
    ensures front { (bytes more : List ℕ) → emissions_of (bytes ++ more) ≡ emissions_of bytes ++ emitted_after bytes more }
{}
