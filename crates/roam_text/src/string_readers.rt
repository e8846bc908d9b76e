//! A reader of the control strings of a pane's bytes (ECMA-48, 5.6).
ghost use Rattle.std.specs.Prelude.{◌≡◌, [], ◌∷◌, ◌++◌, List, ℕ, IsTrue};
ghost use Rattle.roam_text.specs.Log.{Item, Byte, Resized, Sign, character, settled_part, unfinished_part};
ghost use Rattle.roam_text.specs.Settled.{characters_of};
ghost use Rattle.roam_text.specs.Strings.{strings_by, no_strings, after_steps};
ghost use Rattle.roam_text.specs.StringPhases.{NoStringOpen, moved_by};

use crate::decoders::{Decoder, Settled};
use crate::functions::REPLACEMENT;
use crate::strings::{StringPhase, StringStep, StringSteps, moved};
use std::marker::Model;

/// Reads the bytes that a program writes to its terminal, one at a time, and reports their effect on control strings (ECMA-48, section
/// 5.6). It keeps no text, takes no memory and can't fail.
#[derive(Drop)]
pub struct StringReader {
    decoder: Decoder,
    phase: StringPhase,
}

impl Model for StringReader {
    ghost use Rattle.roam_text.specs.StringPhases.{StringView};

    ghost Value = { StringView };

    ghost view = { λ r. record { pending = r.decoder.pending.items; phase = r.phase } };
}

impl StringReader {
    ghost use Rattle.roam_text.specs.StringPhases.{Follows};

    /// A reader that has read nothing.
    pub fn new() -> Self
        ensures follows { Follows result [] }
        ensures empty { strings_by [] ≡ no_strings }
    {
        StringReader {
            decoder: Decoder::new(),
            phase: StringPhase::Ground,
        }
    }

    // Reads one character.
    #[inline]
    fn read(&mut self, c: char) -> StringStep
        ensures pending { self.new.pending ≡ self.old.pending }
        ensures phase { self.new.phase ≡ (moved_by self.old.phase c).phase }
        ensures step { result ≡ (moved_by self.old.phase c).step }
    {
        let moved = moved(self.phase, c);
        self.phase = moved.phase;
        moved.step
    }

    /// Reads one byte, and returns its effect on the control strings. A caller keeps the kind and the characters of the open one.
    #[inline]
    pub fn next(&mut self, byte: u8) -> StringSteps
        ensures follows { (log : List Item) → Follows self.old log → Follows self.new (log ++ Byte byte ∷ []) }
        ensures strings { (log : List Item) → Follows self.old log
            → strings_by (log ++ Byte byte ∷ []) ≡ after_steps result (strings_by log) }
    {
        match self.decoder.push(byte) {
            Settled::Nothing => StringSteps {
                first: StringStep::Nothing,
                later: StringStep::Nothing,
            },
            Settled::One(c) => StringSteps {
                first: StringStep::Nothing,
                later: self.read(c),
            },
            Settled::AfterReplacement(c) => {
                let first = self.read(REPLACEMENT);
                let later = self.read(c);
                StringSteps { first, later }
            }
        }
    }

    /// Returns true if the next byte is read as if none had come before: no character, sequence or string is unfinished.
    #[inline]
    pub fn is_at_rest(&self) -> bool
        ensures rests { IsTrue result → (log : List Item) → Follows self.now log → NoStringOpen log }
    {
        matches!(self.phase, StringPhase::Ground) && self.decoder.pending.is_empty()
    }
}
