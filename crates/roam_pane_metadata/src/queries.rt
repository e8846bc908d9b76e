//! Questions of a program that its screen can't answer.
ghost use Rattle.std.specs.Prelude.{◌≡◌};
ghost use Rattle.std.specs.Option.{option_to_list};
ghost use Rattle.roam_text.specs.Dispatched.{function_of};
ghost use Rattle.roam_pane_metadata.specs.Queries.{ansi_mode_state, asked, asked_by, colour_asked, is_bell, mode_asked, mode_state, query_form_of, query_in, state_of, tracking_mode};

use crate::screen_modes::ScreenModes;
use crate::settings::{Settings, Tracking};
use roam_text::{Dispatch, StringEnd};

/// The state of a mode, as DECRPM reports it (VT510).
#[derive(Clone, Copy)]
pub enum ModeState {
    /// The terminal has no such mode: 0.
    Unknown,
    /// It is set: 1.
    Set,
    /// It is reset: 2.
    Reset,
}

/// A question of a program to its terminal.
#[derive(Clone, Copy, Default)]
pub enum Query {
    /// The colour of text that has none of its own, OSC 10; whether BEL ended it, by which the answer ends too.
    Foreground { by_bell: bool },
    /// The colour behind text, OSC 11.
    Background { by_bell: bool },
    /// DECRQM of 2026: is an update open? With the state at that time.
    Frames { is_set: bool },
    /// DECRQM of 2004: are pastes bracketed? With the state at that time.
    Pastes { is_set: bool },
    /// DECRQM of another private mode, by its number, with the state at that time.
    PrivateMode { number: u16, state: ModeState },
    /// DECRQM of a mode of ECMA-48, by its number, with the state at that time.
    AnsiMode { number: u16, state: ModeState },
    /// The size of the text area in characters, CSI 18 t.
    Size,
    /// The terminal's name, XTVERSION.
    #[default]
    Version,
}

/// The form of a control sequence's question.
#[derive(Clone, Copy)]
pub enum QueryForm {
    Nothing,
    /// The state of a private mode, DECRQM.
    Mode,
    /// The state of a mode of ECMA-48, DECRQM.
    AnsiForm,
    /// A report on the window, CSI t.
    Window,
    /// The terminal's name, XTVERSION.
    Name,
}

fn query_form_of(mark: Option<u8>, inter: &[u8], last: u8) -> QueryForm
    ensures query { result ≡ query_form_of mark inter.now last }
{
    match (mark, inter, last) {
        (None, [], b't') => QueryForm::Window,
        (None, [b'$'], b'p') => QueryForm::AnsiForm,
        (Some(b'>'), [], b'q') => QueryForm::Name,
        (Some(b'?'), [b'$'], b'p') => QueryForm::Mode,
        _ => QueryForm::Nothing,
    }
}

fn state_of(is_set: bool) -> ModeState
    ensures state { result ≡ state_of is_set }
{
    if is_set {
        ModeState::Set
    } else {
        ModeState::Reset
    }
}

// Returns the private mode that asked for these reports of the mouse; 0 if none did.
fn tracking_mode(tracking: Tracking) -> u16
    ensures mode { result ≡ tracking_mode tracking }
{
    match tracking {
        Tracking::Off => 0,
        Tracking::Buttons => 1000,
        Tracking::Drags => 1002,
        Tracking::Motion => 1003,
    }
}

fn mode_state(settings: &Settings, modes: &ScreenModes, mode: u16) -> ModeState
    ensures state { result ≡ mode_state settings.now modes.now mode }
{
    match mode {
        1 => state_of(modes.cursor_keys),
        5 => state_of(modes.reverse_screen),
        6 => state_of(modes.origin),
        7 => state_of(modes.autowrap),
        25 => state_of(modes.cursor_visible),
        1000 => state_of(tracking_mode(settings.tracking) == 1000),
        1002 => state_of(tracking_mode(settings.tracking) == 1002),
        1003 => state_of(tracking_mode(settings.tracking) == 1003),
        1004 => state_of(settings.focus_reports),
        1006 => state_of(settings.sgr_reports),
        47 | 1047 | 1049 => state_of(settings.alternate_screen),
        _ => ModeState::Unknown,
    }
}

fn ansi_mode_state(modes: &ScreenModes, mode: u16) -> ModeState
    ensures state { result ≡ ansi_mode_state modes.now mode }
{
    match mode {
        4 => state_of(modes.insert),
        20 => state_of(modes.newline),
        _ => ModeState::Unknown,
    }
}

fn mode_asked(settings: &Settings, modes: &ScreenModes, mode: u16) -> Query
    ensures asked { result ≡ mode_asked settings.now modes.now mode }
{
    match mode {
        2004 => Query::Pastes {
            is_set: settings.bracketed_paste,
        },
        2026 => Query::Frames {
            is_set: modes.update,
        },
        _ => Query::PrivateMode {
            number: mode,
            state: mode_state(settings, modes, mode),
        },
    }
}

fn asked(
    query_form: QueryForm,
    params: &[u16],
    settings: &Settings,
    modes: &ScreenModes,
) -> Option<Query>
    ensures asked { result ≡ asked query_form params.now settings.now modes.now }
{
    match (query_form, params) {
        (QueryForm::Mode, [mode]) => Some(mode_asked(settings, modes, *mode)),
        (QueryForm::AnsiForm, [mode]) => Some(Query::AnsiMode {
            number: *mode,
            state: ansi_mode_state(modes, *mode),
        }),
        (QueryForm::Window, [18, ..]) => Some(Query::Size),
        (QueryForm::Name, [0]) => Some(Query::Version),
        _ => None,
    }
}

/// Returns the question of a function under these settings and modes; the reader lends its parameters and intermediate bytes.
pub fn asked_by(
    settings: &Settings,
    modes: &ScreenModes,
    dispatch: Dispatch,
    params: &[u16],
    inter: &[u8],
) -> Option<Query>
    ensures asked { option_to_list result ≡ asked_by settings.now modes.now (function_of dispatch params.now inter.now) }
{
    match dispatch {
        Dispatch::Csi { mark, last } => asked(
            query_form_of(mark, inter, last),
            params,
            settings,
            modes,
        ),
        _ => None,
    }
}

fn colour_asked(digit: char, by_bell: bool) -> Option<Query>
    ensures asked { result ≡ colour_asked digit by_bell }
{
    match digit {
        '0' => Some(Query::Foreground { by_bell }),
        '1' => Some(Query::Background { by_bell }),
        _ => None,
    }
}

/// The question of an operating system command, by its text.
pub fn query_in(by_bell: bool, text: &[char]) -> Option<Query>
    ensures question { result ≡ query_in by_bell text.now }
{
    match text {
        ['1', digit, ';', '?'] => colour_asked(*digit, by_bell),
        _ => None,
    }
}

/// Returns true if BEL ended a control string.
pub fn is_bell(ending: StringEnd) -> bool
    ensures bell { result ≡ is_bell ending }
{
    matches!(ending, StringEnd::Bell)
}
