//! The command of a function, by the table of control functions.
ghost use Rattle.std.specs.Prelude.{◌≡◌};
ghost use Rattle.roam_text.specs.Dispatched.{function_of};
ghost use Rattle.roam_controls.specs.Commands.{c0_command, c1_command, marked_escape, escape_command, plain_command, marked_command, intermediate_command, sequence_command, command_of, forgets};

use crate::edits::{Edit, edit_of, hash_edit};
use crate::erasures::{Erasure, erasure_of, private_erasure};
use crate::motions::{Motion, c0_motion, c1_motion, motion_of};
use crate::parameters::first_count;
use crate::reports::{Report, private_report, report_of, secondary_report};
use crate::settings::{
    Setting, c1_setting, escape_setting, exclaimed_setting, private_setting, quoted_setting,
    setting_of,
};
use crate::shifts::{Shift, c0_shift, c1_shift, designation_of, locking_shift};
use roam_text::Dispatch;

/// The command of a function; a function that isn't listed has none.
#[derive(Clone, Copy)]
pub enum Command {
    Nothing,
    Prints(char),
    Moves(Motion),
    Erases(Erasure),
    Edits(Edit),
    Shifts(Shift),
    Sets(Setting),
    Reports(Report),
    /// The last printed character so many times more.
    Repeats(u16),
}

impl Command {
    /// Returns true if REP forgets its character by this command.
    #[inline]
    pub fn forgets(self) -> bool
        ensures forgets { result ≡ forgets self }
    {
        match self {
            Command::Prints(_) | Command::Repeats(_) => false,
            _ => true,
        }
    }
}

fn c0_command(code: u8) -> Command
    ensures command { result ≡ c0_command code }
{
    if let Some(motion) = c0_motion(code) {
        return Command::Moves(motion);
    }
    match c0_shift(code) {
        Some(shift) => Command::Shifts(shift),
        None => Command::Nothing,
    }
}

fn c1_command(code: u8) -> Command
    ensures command { result ≡ c1_command code }
{
    if let Some(motion) = c1_motion(code) {
        return Command::Moves(motion);
    }
    if let Some(shift) = c1_shift(code) {
        return Command::Shifts(shift);
    }
    match c1_setting(code) {
        Some(setting) => Command::Sets(setting),
        None => Command::Nothing,
    }
}

fn marked_escape(intermediate: u8, last: u8) -> Command
    ensures command { result ≡ marked_escape intermediate last }
{
    if let Some(shift) = designation_of(intermediate, last) {
        return Command::Shifts(shift);
    }
    match hash_edit(intermediate, last) {
        Some(edit) => Command::Edits(edit),
        None => Command::Nothing,
    }
}

fn escape_command(intermediates: &[u8], last: u8) -> Command
    ensures command { result ≡ escape_command intermediates.now last }
{
    match intermediates {
        [] => {
            if let Some(shift) = locking_shift(last) {
                return Command::Shifts(shift);
            }
            match escape_setting(last) {
                Some(setting) => Command::Sets(setting),
                None => Command::Nothing,
            }
        }
        [intermediate] => marked_escape(*intermediate, last),
        _ => Command::Nothing,
    }
}

fn plain_command(params: &[u16], last: u8) -> Command
    ensures command { result ≡ plain_command params.now last }
{
    if let Some(setting) = setting_of(params, last) {
        return Command::Sets(setting);
    }
    if let Some(motion) = motion_of(params, last) {
        return Command::Moves(motion);
    }
    if let Some(erasure) = erasure_of(params, last) {
        return Command::Erases(erasure);
    }
    if let Some(edit) = edit_of(params, last) {
        return Command::Edits(edit);
    }
    if let Some(report) = report_of(params, last) {
        return Command::Reports(report);
    }
    match last {
        // REP
        b'b' => Command::Repeats(first_count(params)),
        _ => Command::Nothing,
    }
}

fn private_command(params: &[u16], last: u8) -> Command
    ensures command { result ≡ marked_command 0x3F params.now last }
{
    if let Some(setting) = private_setting(last) {
        return Command::Sets(setting);
    }
    if let Some(erasure) = private_erasure(params, last) {
        return Command::Erases(erasure);
    }
    match private_report(params, last) {
        Some(report) => Command::Reports(report),
        None => Command::Nothing,
    }
}

fn marked_command(marker: u8, params: &[u16], last: u8) -> Command
    ensures command { result ≡ marked_command marker params.now last }
{
    match marker {
        b'?' => private_command(params, last),
        b'>' => match secondary_report(params, last) {
            Some(report) => Command::Reports(report),
            None => Command::Nothing,
        },
        _ => Command::Nothing,
    }
}

fn intermediate_command(intermediate: u8, params: &[u16], last: u8) -> Command
    ensures command { result ≡ intermediate_command intermediate params.now last }
{
    match intermediate {
        b'!' => match exclaimed_setting(last) {
            Some(setting) => Command::Sets(setting),
            None => Command::Nothing,
        },
        b'"' => match quoted_setting(params, last) {
            Some(setting) => Command::Sets(setting),
            None => Command::Nothing,
        },
        _ => Command::Nothing,
    }
}

fn sequence_command(marker: Option<u8>, params: &[u16], intermediates: &[u8], last: u8) -> Command
    ensures command { result ≡ sequence_command marker params.now intermediates.now last }
{
    match intermediates {
        [] => match marker {
            None => plain_command(params, last),
            Some(marker) => marked_command(marker, params, last),
        },
        [intermediate] => match marker {
            None => intermediate_command(*intermediate, params, last),
            Some(_) => Command::Nothing,
        },
        _ => Command::Nothing,
    }
}

/// Returns the command of a dispatched function, with the parameters and intermediate bytes that the reader lends.
pub fn command_of(dispatch: Dispatch, params: &[u16], intermediates: &[u8]) -> Command
    ensures command { result ≡ command_of (function_of dispatch params.now intermediates.now) }
{
    match dispatch {
        Dispatch::Print(c) => Command::Prints(c),
        Dispatch::C0(code) => c0_command(code),
        Dispatch::C1(code) => c1_command(code),
        Dispatch::Esc { last } => escape_command(intermediates, last),
        Dispatch::Csi { mark, last } => sequence_command(mark, params, intermediates, last),
    }
}
