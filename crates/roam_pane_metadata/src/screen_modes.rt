//! The modes of a program's screen, which it may ask for.
ghost use Rattle.std.specs.Prelude.{◌≡◌};
ghost use Rattle.std.specs.List.{fold};
ghost use Rattle.roam_text.specs.Dispatched.{function_of};
ghost use Rattle.roam_pane_metadata.specs.ScreenModes.{ansi_mode_set, escaped, fresh_modes, kept_and_shown, modes_after, modes_granted, origin_restored, origin_saved, private_mode_set, soft_reset_modes};

use crate::settings::{Wish, wish_of};
use roam_text::Dispatch;

/// The modes of a program's screen, and whether an update is open.
#[derive(Clone, Copy)]
pub struct ScreenModes {
    /// IRM, 4.
    pub insert: bool,
    /// LNM, 20.
    pub newline: bool,
    /// DECCKM, 1.
    pub cursor_keys: bool,
    /// DECSCNM, 5.
    pub reverse_screen: bool,
    /// DECOM, 6.
    pub origin: bool,
    /// DECAWM, 7.
    pub autowrap: bool,
    /// DECTCEM, 25.
    pub cursor_visible: bool,
    /// A synchronized update, 2026.
    pub update: bool,
    /// True if the alternate screen is shown: 47, 1047, 1049.
    pub is_alternate: bool,
    /// DECOM as DECSC kept it for the main screen; false if it kept none.
    pub main_origin: bool,
    /// DECOM as DECSC kept it for the alternate screen; false if it kept none.
    pub alternate_origin: bool,
}

/// Returns the modes of a program that has written nothing.
pub fn fresh_modes() -> ScreenModes
    ensures fresh { result ≡ fresh_modes }
{
    ScreenModes {
        insert: false,
        newline: false,
        cursor_keys: false,
        reverse_screen: false,
        origin: false,
        autowrap: true,
        cursor_visible: true,
        update: false,
        is_alternate: false,
        main_origin: false,
        alternate_origin: false,
    }
}

fn origin_saved(modes: ScreenModes) -> ScreenModes
    ensures modes { result ≡ origin_saved modes }
{
    if modes.is_alternate {
        ScreenModes {
            alternate_origin: modes.origin,
            ..modes
        }
    } else {
        ScreenModes {
            main_origin: modes.origin,
            ..modes
        }
    }
}

fn origin_restored(modes: ScreenModes) -> ScreenModes
    ensures modes { result ≡ origin_restored modes }
{
    ScreenModes {
        origin: if modes.is_alternate {
            modes.alternate_origin
        } else {
            modes.main_origin
        },
        ..modes
    }
}

// Returns the modes after 1049 is set or reset.
fn kept_and_shown(on: bool, modes: ScreenModes) -> ScreenModes
    ensures modes { result ≡ kept_and_shown on modes }
{
    match (on, modes.is_alternate) {
        (true, false) => ScreenModes {
            main_origin: modes.origin,
            is_alternate: true,
            ..modes
        },
        (false, true) => ScreenModes {
            origin: modes.main_origin,
            is_alternate: false,
            ..modes
        },
        _ => modes,
    }
}

fn private_mode_set(on: bool, modes: ScreenModes, mode: u16) -> ScreenModes
    ensures modes { result ≡ private_mode_set on modes mode }
{
    let mut all = modes;
    match mode {
        1 => all.cursor_keys = on,
        5 => all.reverse_screen = on,
        6 => all.origin = on,
        7 => all.autowrap = on,
        25 => all.cursor_visible = on,
        47 | 1047 => all.is_alternate = on,
        1049 => all = kept_and_shown(on, modes),
        2026 => all.update = on,
        _ => {}
    }
    all
}

fn private_modes_set(on: bool, before: ScreenModes, modes: &[u16]) -> ScreenModes
    ensures modes { result ≡ fold (private_mode_set on) before modes.now }
{
    let mut all = before;
    let mut at = 0;
    while at < modes.len() {
        all = private_mode_set(on, all, modes[at]);
        at += 1;
    }
    all
}

fn ansi_mode_set(on: bool, modes: ScreenModes, mode: u16) -> ScreenModes
    ensures modes { result ≡ ansi_mode_set on modes mode }
{
    match mode {
        4 => ScreenModes {
            insert: on,
            ..modes
        },
        20 => ScreenModes {
            newline: on,
            ..modes
        },
        _ => modes,
    }
}

fn ansi_modes_set(on: bool, before: ScreenModes, modes: &[u16]) -> ScreenModes
    ensures modes { result ≡ fold (ansi_mode_set on) before modes.now }
{
    let mut all = before;
    let mut at = 0;
    while at < modes.len() {
        all = ansi_mode_set(on, all, modes[at]);
        at += 1;
    }
    all
}

fn soft_reset_modes(modes: ScreenModes) -> ScreenModes
    ensures modes { result ≡ soft_reset_modes modes }
{
    ScreenModes {
        insert: false,
        cursor_keys: false,
        origin: false,
        cursor_visible: true,
        main_origin: false,
        alternate_origin: false,
        ..modes
    }
}

// Returns the modes after an escape sequence.
fn escaped(inter: &[u8], last: u8, modes: ScreenModes) -> ScreenModes
    ensures modes { result ≡ escaped inter.now last modes }
{
    match (inter, last) {
        ([], b'c') => fresh_modes(),
        ([], b'7') => origin_saved(modes),
        ([], b'8') => origin_restored(modes),
        _ => modes,
    }
}

fn modes_granted(wish: Wish, params: &[u16], modes: ScreenModes) -> ScreenModes
    ensures modes { result ≡ modes_granted wish params.now modes }
{
    match wish {
        Wish::SetModes => private_modes_set(true, modes, params),
        Wish::ResetModes => private_modes_set(false, modes, params),
        Wish::SetAnsiModes => ansi_modes_set(true, modes, params),
        Wish::ResetAnsiModes => ansi_modes_set(false, modes, params),
        Wish::SoftReset => soft_reset_modes(modes),
        _ => modes,
    }
}

/// Returns the modes after a function, whose parameters and intermediate bytes the reader lends.
pub fn modes_after(
    modes: ScreenModes,
    dispatch: Dispatch,
    params: &[u16],
    inter: &[u8],
) -> ScreenModes
    ensures modes { result ≡ modes_after modes (function_of dispatch params.now inter.now) }
{
    match dispatch {
        Dispatch::Esc { last } => escaped(inter, last, modes),
        Dispatch::Csi { mark, last } => modes_granted(wish_of(mark, inter, last), params, modes),
        _ => modes,
    }
}
