//! The settings of a program's functions outside its screen.
ghost use Rattle.std.specs.Prelude.{◌≡◌, List, ℕ, [], ◌∷◌};
ghost use Rattle.std.specs.List.{fold};
ghost use Rattle.roam_text.specs.Dispatched.{function_of};
ghost use Rattle.roam_pane_metadata.specs.Emissions.{is_reset};
ghost use Rattle.roam_pane_metadata.specs.Settings.{counted, fresh_settings, granted, heard, keypad_after, keys_asked, keys_disabled, mode_set, reset_settings, shape_asked, wish_of, with_tracking};

use roam_text::Dispatch;

/// Which reports of the mouse a program asks for (xterm, mouse tracking).
#[derive(Clone, Copy)]
pub enum Tracking {
    Off,
    /// 1000: buttons that are pressed and released.
    Buttons,
    /// 1002: motion while a button is pressed, too.
    Drags,
    /// 1003: all motion, too.
    Motion,
}

/// The settings of a program outside its screen, and its count of bells.
#[derive(Clone, Copy)]
pub struct Settings {
    /// Which reports of the mouse it asks for: 1000, 1002, 1003.
    pub tracking: Tracking,
    /// True if it asks for reports in SGR form: 1006.
    pub sgr_reports: bool,
    /// True if it asks for reports of the focus: 1004.
    pub focus_reports: bool,
    /// True if it asks for bracketed paste: 2004.
    pub bracketed_paste: bool,
    /// True if it shows the alternate screen: 47, 1047, 1049.
    pub alternate_screen: bool,
    /// True if it asks for the application codes of the keypad: DECKPAM. DECKPNM, DECSTR and RIS reset it.
    pub application_keypad: bool,
    /// The value of modifyOtherKeys: 0, 1 or 2 (xterm, XTMODKEYS).
    pub other_keys: u8,
    /// The shape of the cursor, 0 to 6, 0 if it asks for none (DECSCUSR).
    pub shape: u8,
    /// How many bells it rang, all of them, up to 2^64 - 1.
    pub bells: u64,
}

/// The request of a control sequence outside the screen.
#[derive(Clone, Copy)]
pub enum Wish {
    Nothing,
    /// DECSET, CSI ? h.
    SetModes,
    /// DECRST, CSI ? l.
    ResetModes,
    /// SM, CSI h.
    SetAnsiModes,
    /// RM, CSI l.
    ResetAnsiModes,
    /// XTMODKEYS, CSI > m.
    Keys,
    /// XTMODKEYS off, CSI > n.
    PlainKeys,
    /// DECSCUSR, CSI SP q.
    Shape,
    /// DECSTR, CSI ! p.
    SoftReset,
}

/// Returns the settings of a program that has written nothing.
pub fn fresh_settings() -> Settings
    ensures fresh { result ≡ fresh_settings }
{
    Settings {
        tracking: Tracking::Off,
        sgr_reports: false,
        focus_reports: false,
        bracketed_paste: false,
        alternate_screen: false,
        application_keypad: false,
        other_keys: 0,
        shape: 0,
        bells: 0,
    }
}

fn with_tracking(on: bool, tracking: Tracking, settings: Settings) -> Settings
    ensures settings { result ≡ with_tracking on tracking settings }
{
    Settings {
        tracking: if on { tracking } else { Tracking::Off },
        ..settings
    }
}

fn mode_set(on: bool, settings: Settings, mode: u16) -> Settings
    ensures settings { result ≡ mode_set on settings mode }
{
    match mode {
        1000 => with_tracking(on, Tracking::Buttons, settings),
        1002 => with_tracking(on, Tracking::Drags, settings),
        1003 => with_tracking(on, Tracking::Motion, settings),
        1004 => Settings {
            focus_reports: on,
            ..settings
        },
        1006 => Settings {
            sgr_reports: on,
            ..settings
        },
        2004 => Settings {
            bracketed_paste: on,
            ..settings
        },
        47 | 1047 | 1049 => Settings {
            alternate_screen: on,
            ..settings
        },
        _ => settings,
    }
}

fn modes_set(on: bool, settings: Settings, modes: &[u16]) -> Settings
    ensures settings { result ≡ fold (mode_set on) settings modes.now }
{
    let mut all = settings;
    let mut at = 0;
    while at < modes.len() {
        all = mode_set(on, all, modes[at]);
        at += 1;
    }
    all
}

fn keys_asked(numbers: &[u16], before: u8) -> u8
    ensures keys { result ≡ keys_asked numbers.now before }
{
    match numbers {
        [0 | 4] => 0,
        [4, 1, ..] => 1,
        [4, 2, ..] => 2,
        [4, _, ..] => 0,
        _ => before,
    }
}

pub(crate) fn wish_of(mark: Option<u8>, inter: &[u8], last: u8) -> Wish
    ensures wish { result ≡ wish_of mark inter.now last }
{
    match (mark, inter, last) {
        (Some(b'?'), [], b'h') => Wish::SetModes,
        (Some(b'?'), [], b'l') => Wish::ResetModes,
        (None, [], b'h') => Wish::SetAnsiModes,
        (None, [], b'l') => Wish::ResetAnsiModes,
        (Some(b'>'), [], b'm') => Wish::Keys,
        (Some(b'>'), [], b'n') => Wish::PlainKeys,
        (None, [b' '], b'q') => Wish::Shape,
        (None, [b'!'], b'p') => Wish::SoftReset,
        _ => Wish::Nothing,
    }
}

fn keys_disabled(numbers: &[u16], before: u8) -> u8
    ensures keys { result ≡ keys_disabled numbers.now before }
{
    match numbers {
        [4, ..] => 0,
        _ => before,
    }
}

fn shape_asked(numbers: &[u16], before: u8) -> u8
    ensures shape { result ≡ shape_asked numbers.now before }
{
    match numbers {
        [number, ..] if *number < 7 => *number as u8,
        _ => before,
    }
}

fn granted(wish: Wish, params: &[u16], settings: Settings) -> Settings
    ensures settings { result ≡ granted wish params.now settings }
{
    match wish {
        Wish::Nothing | Wish::SetAnsiModes | Wish::ResetAnsiModes => settings,
        Wish::SetModes => modes_set(true, settings, params),
        Wish::ResetModes => modes_set(false, settings, params),
        Wish::Keys => Settings {
            other_keys: keys_asked(params, settings.other_keys),
            ..settings
        },
        Wish::PlainKeys => Settings {
            other_keys: keys_disabled(params, settings.other_keys),
            ..settings
        },
        Wish::Shape => Settings {
            shape: shape_asked(params, settings.shape),
            ..settings
        },
        Wish::SoftReset => Settings {
            application_keypad: false,
            ..settings
        },
    }
}

// Returns true if the keypad sends application codes after an escape sequence.
fn keypad_after(inter: &[u8], last: u8, before: bool) -> bool
    ensures keypad { result ≡ keypad_after inter.now last before }
{
    match (inter, last) {
        ([], b'=') => true,
        ([], b'>') => false,
        _ => before,
    }
}

fn reset_settings(settings: Settings) -> Settings
    ensures settings { result ≡ reset_settings settings }
{
    Settings {
        bells: settings.bells,
        ..fresh_settings()
    }
}

fn ring(settings: Settings) -> Settings
    ensures settings { result ≡ record settings { bells = counted settings.bells } }
{
    Settings {
        bells: settings.bells.saturating_add(1),
        ..settings
    }
}

/// Returns true if a function is RIS; the reader lends its intermediate bytes.
pub fn is_reset(dispatch: Dispatch, inter: &[u8]) -> bool
    ensures reset { (params : List ℕ) → result ≡ is_reset (function_of dispatch params inter.now) }
{
    match dispatch {
        Dispatch::Esc { last } => inter.is_empty() && last == b'c',
        _ => false,
    }
}

/// Returns the settings after a function; the reader lends its parameters and intermediate bytes.
pub fn heard(settings: Settings, dispatch: Dispatch, params: &[u16], inter: &[u8]) -> Settings
    ensures heard { result ≡ heard settings (function_of dispatch params.now inter.now) }
{
    match dispatch {
        Dispatch::C0(7) => ring(settings),
        Dispatch::Esc { last: b'c' } if inter.is_empty() => reset_settings(settings),
        Dispatch::Esc { last } => Settings {
            application_keypad: keypad_after(inter, last, settings.application_keypad),
            ..settings
        },
        Dispatch::Csi { mark, last } => granted(wish_of(mark, inter, last), params, settings),
        _ => settings,
    }
}
