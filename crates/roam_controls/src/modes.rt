//! Modes that are set.
ghost use Rattle.std.specs.Prelude.{◌≡◌};
ghost use Rattle.roam_controls.specs.Modes.{started_modes, with_mode, with_private_mode, soft_reset_modes};

/// The modes of a terminal (ECMA-48, section 7; VT220 Programmer Reference, chapter 4).
#[derive(Clone, Copy)]
pub struct Modes {
    /// IRM: printed characters push the rest of their row to the right.
    pub insert: bool,

    /// LNM: a line feed returns to the first column too.
    pub newline: bool,

    /// DECCKM: cursor keys send application sequences.
    pub cursor_keys: bool,

    /// DECSCNM: the whole screen is shown in reverse.
    pub reverse_screen: bool,

    /// DECOM: rows count from the top margin.
    pub origin: bool,

    /// DECAWM: a character after the last column goes to the next row.
    pub autowrap: bool,

    /// DECTCEM: the cursor is shown.
    pub cursor_visible: bool,

    /// Mode 2004 of xterm: pasted text comes in brackets.
    pub bracketed_paste: bool,

    /// DECKPAM: the keypad sends application sequences.
    pub application_keypad: bool,
}

impl Modes {
    /// The modes of a terminal that starts.
    pub fn new() -> Self
        ensures modes { result ≡ started_modes }
    {
        Modes {
            insert: false,
            newline: false,
            cursor_keys: false,
            reverse_screen: false,
            origin: false,
            autowrap: true,
            cursor_visible: true,
            bracketed_paste: false,
            application_keypad: false,
        }
    }

    /// Sets or resets a mode of ECMA-48 by its number; a number that isn't listed changes nothing.
    pub fn set(&mut self, on: bool, number: u16)
        ensures set { self.new ≡ with_mode on number self.old }
    {
        match number {
            4 => self.insert = on,
            20 => self.newline = on,
            _ => {}
        }
    }

    /// The modes after a soft reset: DECTCEM is set, IRM, DECOM and DECCKM are reset, the keypad is numeric, all others stay.
    pub fn soft_reset(&mut self)
        ensures reset { self.new ≡ soft_reset_modes self.old }
    {
        self.insert = false;
        self.origin = false;
        self.cursor_keys = false;
        self.cursor_visible = true;
        self.application_keypad = false;
    }

    /// Sets or resets a private mode by its number; a number that isn't listed changes nothing.
    pub fn set_private(&mut self, on: bool, number: u16)
        ensures set { self.new ≡ with_private_mode on number self.old }
    {
        match number {
            1 => self.cursor_keys = on,
            5 => self.reverse_screen = on,
            6 => self.origin = on,
            7 => self.autowrap = on,
            25 => self.cursor_visible = on,
            2004 => self.bracketed_paste = on,
            _ => {}
        }
    }
}
