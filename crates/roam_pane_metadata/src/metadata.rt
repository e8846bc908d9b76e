//! The metadata of a pane's terminal.
ghost use Rattle.std.specs.Prelude.{◌≡◌, ◌≤◌, ◌++◌, ◌∷◌, [], List, ℕ, length, min, take, IsTrue};
ghost use Rattle.std.specs.List.{flat_map, fold};
ghost use Rattle.std.specs.Option.{option_map, option_to_list};
ghost use Rattle.roam_text.specs.Dispatched.{functions_by};
ghost use Rattle.roam_pane_metadata.specs.Settings.{fresh_settings, heard, most_counted, settings_of};
ghost use Rattle.roam_pane_metadata.specs.Queries.{asked_in, queries_of};
ghost use Rattle.roam_pane_metadata.specs.ScreenModes.{modes_after};
ghost use Rattle.roam_pane_metadata.specs.Asking.{most_kept, newest};
ghost use Rattle.roam_pane_metadata.specs.Texts.{nothing_said};
ghost use Rattle.roam_pane_metadata.specs.Emissions.{IsCounted, reset_if, emitted_by};

use crate::asking::{Asked, Head};
use crate::keeping::Texts;
use crate::queries::{Query, asked_by};
use crate::screen_modes::{ScreenModes, fresh_modes, modes_after};
use crate::settings::{Settings, fresh_settings, heard, is_reset};
use crate::silence::silent_run;
use roam_text::{Dispatched, Reader, StringReader};
use std::alloc::Global;
use std::marker::Model;

/// The metadata of a program's bytes. It is fed the pieces that the pane's terminal is fed, and can't fail: a text for which there is no
/// memory is ignored, and all else stays right.
#[derive(Drop)]
pub struct Metadata {
    reader: Reader,
    strings: StringReader,
    settings: Settings,
    texts: Texts,
    modes: ScreenModes,
    head: Head,
    asked: Asked,
}

impl Model for Metadata {
    ghost use Rattle.roam_pane_metadata.specs.Metadata.{MetadataView};

    ghost Value = { MetadataView };

    ghost view = { λ b. record {
      reader = b.reader;
      strings = b.strings;
      settings = b.settings;
      texts = b.texts;
      modes = b.modes;
      head = b.head;
      asked = b.asked;
    } };
}

// Returns the settings after the function of a byte.
fn heard_by(settings: Settings, dispatched: Dispatched, reader: &Reader) -> Settings
    ensures heard { result ≡ fold heard settings (functions_by dispatched reader.now.parameters reader.now.intermediates) }
{
    match dispatched {
        Dispatched::Nothing => settings,
        Dispatched::One(dispatch) | Dispatched::AfterReplacement(dispatch) => heard(
            settings,
            dispatch,
            reader.parameters(),
            reader.intermediates(),
        ),
    }
}

// Returns true if a byte completed RIS.
fn is_reset_by(dispatched: Dispatched, reader: &Reader) -> bool
    ensures reset { reset_if result
        ≡ flat_map emitted_by (functions_by dispatched reader.now.parameters reader.now.intermediates) }
{
    match dispatched {
        Dispatched::Nothing => false,
        Dispatched::One(dispatch) | Dispatched::AfterReplacement(dispatch) => {
            is_reset(dispatch, reader.intermediates())
        }
    }
}

// Returns the modes after the function of a byte.
fn modes_by(modes: ScreenModes, dispatched: Dispatched, reader: &Reader) -> ScreenModes
    ensures modes { result ≡ fold modes_after modes (functions_by dispatched reader.now.parameters reader.now.intermediates) }
{
    match dispatched {
        Dispatched::Nothing => modes,
        Dispatched::One(dispatch) | Dispatched::AfterReplacement(dispatch) => modes_after(
            modes,
            dispatch,
            reader.parameters(),
            reader.intermediates(),
        ),
    }
}

// Returns the question of the function that a byte completed, if there is one.
fn query_by(
    settings: &Settings,
    modes: &ScreenModes,
    dispatched: Dispatched,
    reader: &Reader,
) -> Option<Query>
    ensures asked { option_to_list result
        ≡ asked_in settings.now modes.now (functions_by dispatched reader.now.parameters reader.now.intermediates) }
{
    match dispatched {
        Dispatched::Nothing => None,
        Dispatched::One(dispatch) | Dispatched::AfterReplacement(dispatch) => asked_by(
            settings,
            modes,
            dispatch,
            reader.parameters(),
            reader.intermediates(),
        ),
    }
}

impl Metadata {
    ghost use Rattle.roam_pane_metadata.specs.Metadata.{Stands};
    ghost use Rattle.roam_pane_metadata.specs.Silence.{SaysNothing};

    /// Returns the metadata of a program that has written nothing.
    pub fn new(alloc: Global) -> Metadata
        ensures stands { Stands result [] }
        ensures fresh { result.settings ≡ fresh_settings }
        ensures nothing { result.texts.said ≡ nothing_said }
    {
        Metadata {
            reader: Reader::new(),
            strings: StringReader::new(),
            settings: fresh_settings(),
            texts: Texts::new(alloc),
            modes: fresh_modes(),
            head: Head::new(),
            asked: Asked::new(),
        }
    }

    /// Returns the settings of the program, and its count of bells.
    pub fn settings(&self) -> Settings
        ensures settings { result ≡ self.now.settings }
        ensures told { (bytes : List ℕ) → Stands self.now bytes → result ≡ settings_of bytes }
    {
        self.settings
    }

    /// The last title, if there was one and no RIS came after it: its first 200 printable characters (OSC 0 and 2).
    pub fn title(&self) -> Option<&[char]>
        ensures title { option_map (λ title. title.now) result ≡ self.now.texts.said.title }
    {
        self.texts.title()
    }

    /// How many titles there were, and how many RIS took back, up to 2^64 - 1.
    pub fn titles(&self) -> u64
        ensures titles { result ≡ self.now.texts.said.titles }
    {
        self.texts.titles()
    }

    /// The last text for the clipboard, if there was one: at most 131,072 characters of base64 (OSC 52).
    pub fn clip(&self) -> Option<&[u8]>
        ensures clip { option_map (λ clip. clip.now) result ≡ self.now.texts.said.clip }
    {
        self.texts.clip()
    }

    /// How many texts for the clipboard there were, up to 2^64 - 1.
    pub fn clips(&self) -> u64
        ensures clips { result ≡ self.now.texts.said.clips }
    {
        self.texts.clips()
    }

    /// How many questions there were, up to 2^64 - 1.
    pub fn queries_asked(&self) -> u64
        ensures count { result ≡ self.now.asked.count }
        ensures told { (bytes : List ℕ) → Stands self.now bytes → result ≡ min most_counted (length (queries_of bytes)) }
    {
        self.asked.count()
    }

    /// The last questions, sixteen at most, in the order in which they were asked.
    pub fn queries(&self) -> &[Query]
        ensures last { result.now ≡ self.now.asked.last }
        ensures told { (bytes : List ℕ) → Stands self.now bytes → result.now ≡ newest most_kept (queries_of bytes) }
    {
        self.asked.last()
    }

    // Reads one byte.
    fn read(&mut self, byte: u8)
        ensures stands { (bytes : List ℕ) → Stands self.old bytes → Stands self.new (bytes ++ byte ∷ []) }
        ensures counted { IsCounted self.old.texts.said self.new.texts.said }
    {
        let dispatched = self.reader.dispatch(byte);
        let query = query_by(&self.settings, &self.modes, dispatched, &self.reader);
        self.settings = heard_by(self.settings, dispatched, &self.reader);
        self.modes = modes_by(self.modes, dispatched, &self.reader);
        self.texts.hear(is_reset_by(dispatched, &self.reader));
        let steps = self.strings.next(byte);
        self.texts.take(steps.first);
        self.texts.take(steps.later);
        self.asked.note(query);
        let first = self.head.take(steps.first);
        let later = self.head.take(steps.later);
        self.asked.note(first);
        self.asked.note(later);
    }

    // Returns how many bytes at the front of a piece can be skipped: they are silent, and all bytes behind them say the same without them.
    fn passed(&self, piece: &[u8]) -> usize
        ensures within { result ≤ length piece.now }
        ensures stands { (bytes : List ℕ) → Stands self.now bytes → Stands self.now (bytes ++ take result piece.now) }
    {
        if self.reader.is_at_rest() && self.strings.is_at_rest() {
            silent_run(piece)
        } else {
            0
        }
    }

    /// Reads a piece of the program's output, after the pieces before it.
    pub fn feed(&mut self, piece: &[u8])
        ensures stands { (bytes : List ℕ) → Stands self.old bytes → Stands self.new (bytes ++ piece.now) }
        ensures counted { IsCounted self.old.texts.said self.new.texts.said }
    {
        let mut at = 0;
        while at < piece.len() {
            at += self.passed(&piece[at..]);
            if at < piece.len() {
                self.read(piece[at]);
                at += 1;
            }
        }
    }
}
