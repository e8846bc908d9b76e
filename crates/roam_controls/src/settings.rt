//! Settings: modes, renditions, margins, the guard, the keypad; and the functions that ask for them.
ghost use Rattle.std.specs.Prelude.{◌≡◌};
ghost use Rattle.roam_controls.specs.Settings.{c1_setting, cleared_of, setting_of, private_setting, guard_of, quoted_setting, exclaimed_setting, escape_setting};

use crate::parameters::{first, first_count, second};

/// The setting to change. Margins are rows from 1; a bottom margin of 0 is the last row.
#[derive(Clone, Copy)]
pub enum Setting {
    Mode(bool),
    PrivateMode(bool),
    Rendition,
    Margins(u16, u16),
    Guard(bool),
    Keypad(bool),
    /// DECSC and DECRC.
    Save,
    Restore,
    /// DECSTR and RIS.
    SoftReset,
    Reset,
    /// HTS, and TBC of the cursor's column and of all.
    SetStop,
    ClearStop,
    ClearStops,
}

/// The setting that a C1 control asks for.
pub fn c1_setting(code: u8) -> Option<Setting>
    ensures setting { result ≡ c1_setting code }
{
    match code {
        // HTS
        0x88 => Some(Setting::SetStop),
        _ => None,
    }
}

fn cleared_of(param: u16) -> Option<Setting>
    ensures setting { result ≡ cleared_of param }
{
    match param {
        0 => Some(Setting::ClearStop),
        3 => Some(Setting::ClearStops),
        _ => None,
    }
}

/// The setting that a control sequence with this final byte asks for.
pub fn setting_of(params: &[u16], last: u8) -> Option<Setting>
    ensures setting { result ≡ setting_of params.now last }
{
    match last {
        // SGR
        b'm' => Some(Setting::Rendition),
        // SM
        b'h' => Some(Setting::Mode(true)),
        // RM
        b'l' => Some(Setting::Mode(false)),
        // DECSTBM
        b'r' => Some(Setting::Margins(first_count(params), second(params))),
        // TBC
        b'g' => cleared_of(first(params)),
        _ => None,
    }
}

/// The setting that a control sequence with the private marker `?` asks for.
pub fn private_setting(last: u8) -> Option<Setting>
    ensures setting { result ≡ private_setting last }
{
    match last {
        // DECSET
        b'h' => Some(Setting::PrivateMode(true)),
        // DECRST
        b'l' => Some(Setting::PrivateMode(false)),
        _ => None,
    }
}

fn guard_of(param: u16) -> Option<Setting>
    ensures setting { result ≡ guard_of param }
{
    match param {
        0 | 2 => Some(Setting::Guard(false)),
        1 => Some(Setting::Guard(true)),
        _ => None,
    }
}

/// The setting that a control sequence with the intermediate byte `"` asks for.
pub fn quoted_setting(params: &[u16], last: u8) -> Option<Setting>
    ensures setting { result ≡ quoted_setting params.now last }
{
    match last {
        // DECSCA
        b'q' => guard_of(first(params)),
        _ => None,
    }
}

/// The setting that a control sequence with the intermediate byte `!` asks for.
pub fn exclaimed_setting(last: u8) -> Option<Setting>
    ensures setting { result ≡ exclaimed_setting last }
{
    match last {
        // DECSTR
        b'p' => Some(Setting::SoftReset),
        _ => None,
    }
}

/// The setting that an escape sequence asks for.
pub fn escape_setting(last: u8) -> Option<Setting>
    ensures setting { result ≡ escape_setting last }
{
    match last {
        // DECSC
        b'7' => Some(Setting::Save),
        // DECRC
        b'8' => Some(Setting::Restore),
        // DECKPAM
        b'=' => Some(Setting::Keypad(true)),
        // DECKPNM
        b'>' => Some(Setting::Keypad(false)),
        // RIS
        b'c' => Some(Setting::Reset),
        _ => None,
    }
}
