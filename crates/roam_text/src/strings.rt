//! The control strings of a pane's bytes, which the terminal skips (ECMA-48, 5.6). They have a reader of their own, so that a terminal,
//! which needs none of them, pays for none.
ghost use Rattle.std.specs.Prelude.{◌≡◌};
ghost use Rattle.roam_text.specs.Strings.{string_kind};
ghost use Rattle.roam_text.specs.StringPhases.{moved_by, moved_by_c1, moved_from_ground, moved_by_upper, moved_in_escape_sequence, moved_in_control_sequence, moved_in_control_string, moved_after_escape, broken_off};

use crate::kinds::{Kind, kind_of};

/// Which control string it is, by the C1 control that opens it (ECMA-48, 5.6).
#[derive(Clone, Copy)]
pub enum StringKind {
    /// DCS, 90.
    DeviceControl,
    /// SOS, 98.
    StartOfString,
    /// OSC, 9D.
    SystemCommand,
    /// PM, 9E.
    PrivacyMessage,
    /// APC, 9F.
    ApplicationProgram,
}

/// How a control string ended that counts.
#[derive(Clone, Copy)]
pub enum StringEnd {
    /// At BEL, an operating system command alone (xterm).
    Bell,
    /// At ST as one character, 9C.
    Terminator,
    /// At ST as ESC 5C.
    EscapedTerminator,
}

/// The effect of a character on the control strings.
#[derive(Clone, Copy)]
pub enum StringStep {
    Nothing,
    /// A string of this kind was opened; an open one before it doesn't count.
    Opened(StringKind),
    /// The one that is open has this character more.
    Added(char),
    /// The one that was open counts, and ended so.
    Ended(StringEnd),
    /// The one that was open doesn't count: CAN, SUB or another ESC ended it.
    BrokenOff,
}

/// The effects of a byte on the control strings, by the characters that it settled, at most two.
#[derive(Clone, Copy)]
pub struct StringSteps {
    pub first: StringStep,
    pub later: StringStep,
}

/// Where the next character falls.
#[derive(Clone, Copy)]
pub enum StringPhase {
    /// Outside all sequences and strings.
    Ground,
    /// After ESC, and intermediate bytes unless `bare` is true.
    InEscapeSequence { bare: bool },
    /// After CSI.
    InControlSequence,
    /// After the opening of a control string, which BEL ends too if `bell` is true.
    InControlString { kind: StringKind, bell: bool },
    /// After an ESC that ended such a string: it counts if 5C follows.
    AfterEscape { kind: StringKind },
}

/// The phase after a character, and what that did.
#[derive(Clone, Copy)]
pub struct StringMove {
    pub phase: StringPhase,
    pub step: StringStep,
}

#[inline]
fn string_kind(code: u32) -> StringKind
    ensures kind { result ≡ string_kind code }
{
    match code {
        0x98 => StringKind::StartOfString,
        0x9D => StringKind::SystemCommand,
        0x9E => StringKind::PrivacyMessage,
        0x9F => StringKind::ApplicationProgram,
        _ => StringKind::DeviceControl,
    }
}

// Returns a phase for a character that had no effect.
#[inline]
fn quietly(phase: StringPhase) -> StringMove
    ensures phase { result.phase ≡ phase }
    ensures step { result.step ≡ StringStep.Nothing }
{
    StringMove {
        phase,
        step: StringStep::Nothing,
    }
}

#[inline]
fn moved_by_c1(kind: Kind, code: u32) -> StringMove
    ensures moved { result ≡ moved_by_c1 kind code }
{
    match kind {
        Kind::StringOpening => StringMove {
            phase: StringPhase::InControlString {
                kind: string_kind(code),
                bell: false,
            },
            step: StringStep::Opened(string_kind(code)),
        },
        Kind::CommandOpening => StringMove {
            phase: StringPhase::InControlString {
                kind: StringKind::SystemCommand,
                bell: true,
            },
            step: StringStep::Opened(StringKind::SystemCommand),
        },
        Kind::SequenceIntroducer => quietly(StringPhase::InControlSequence),
        _ => quietly(StringPhase::Ground),
    }
}

#[inline]
fn moved_from_ground(kind: Kind, code: u32) -> StringMove
    ensures moved { result ≡ moved_from_ground kind code }
{
    match kind {
        Kind::Escape => quietly(StringPhase::InEscapeSequence { bare: true }),
        Kind::StringOpening | Kind::CommandOpening | Kind::SequenceIntroducer => {
            moved_by_c1(kind, code)
        }
        _ => quietly(StringPhase::Ground),
    }
}

#[inline]
fn moved_by_upper(bare: bool, last: u8) -> StringMove
    ensures moved { result ≡ moved_by_upper bare last }
{
    let code = u32::from(last) + 64;
    if bare {
        moved_by_c1(kind_of(code), code)
    } else {
        quietly(StringPhase::Ground)
    }
}

#[inline]
fn moved_in_escape_sequence(bare: bool, kind: Kind, code: u32) -> StringMove
    ensures moved { result ≡ moved_in_escape_sequence bare kind code }
{
    match kind {
        Kind::C0Control(_) | Kind::Bell | Kind::Delete => {
            quietly(StringPhase::InEscapeSequence { bare })
        }
        Kind::Intermediate(_) => quietly(StringPhase::InEscapeSequence { bare: false }),
        Kind::Upper(last) => moved_by_upper(bare, last),
        Kind::Cancel(_) => quietly(StringPhase::Ground),
        _ => moved_from_ground(kind, code),
    }
}

#[inline]
fn moved_in_control_sequence(kind: Kind, code: u32) -> StringMove
    ensures moved { result ≡ moved_in_control_sequence kind code }
{
    match kind {
        Kind::C0Control(_)
        | Kind::Bell
        | Kind::Intermediate(_)
        | Kind::Digit(_)
        | Kind::Colon
        | Kind::Separator
        | Kind::PrivateMarker(_)
        | Kind::Delete => quietly(StringPhase::InControlSequence),
        _ => moved_from_ground(kind, code),
    }
}

#[inline]
fn moved_in_control_string(string: StringKind, bell: bool, kind: Kind, c: char) -> StringMove
    ensures moved { result ≡ moved_in_control_string string bell kind c }
{
    let step = match kind {
        Kind::Escape => return quietly(StringPhase::AfterEscape { kind: string }),
        Kind::Cancel(_) => StringStep::BrokenOff,
        Kind::StringTerminator => StringStep::Ended(StringEnd::Terminator),
        Kind::Bell if bell => StringStep::Ended(StringEnd::Bell),
        _ => {
            return StringMove {
                phase: StringPhase::InControlString { kind: string, bell },
                step: StringStep::Added(c),
            };
        }
    };
    StringMove {
        phase: StringPhase::Ground,
        step,
    }
}

#[inline]
fn broken_off(step: StringStep) -> StringStep
    ensures step { result ≡ broken_off step }
{
    match step {
        StringStep::Opened(kind) => StringStep::Opened(kind),
        _ => StringStep::BrokenOff,
    }
}

#[inline]
fn moved_after_escape(kind: Kind, code: u32) -> StringMove
    ensures moved { result ≡ moved_after_escape kind code }
{
    if code == 0x5C {
        return StringMove {
            phase: StringPhase::Ground,
            step: StringStep::Ended(StringEnd::EscapedTerminator),
        };
    }
    let moved = moved_in_escape_sequence(true, kind, code);
    StringMove {
        phase: moved.phase,
        step: broken_off(moved.step),
    }
}

/// The phase after a character, and what that did.
#[inline]
pub fn moved(phase: StringPhase, c: char) -> StringMove
    ensures moved { result ≡ moved_by phase c }
{
    let code = c as u32;
    let kind = kind_of(code);
    match phase {
        StringPhase::Ground => moved_from_ground(kind, code),
        StringPhase::InEscapeSequence { bare } => moved_in_escape_sequence(bare, kind, code),
        StringPhase::InControlSequence => moved_in_control_sequence(kind, code),
        StringPhase::InControlString { kind: string, bell } => {
            moved_in_control_string(string, bell, kind, c)
        }
        StringPhase::AfterEscape { .. } => moved_after_escape(kind, code),
    }
}
