//! The texts that a program's control strings say, and the text of the one that is open.
ghost use Rattle.std.specs.Prelude.{◌≡◌, ◌≤◌, ◌⊎◌, true, false, List, ℕ, [], ◌∷◌, ◌++◌, length, map, IfOk, IsTrue, Option, None, Some};
ghost use Rattle.std.specs.Option.{option_map};
ghost use Rattle.roam_text.specs.Strings.{OpenString, Strings, after_step};
ghost use Rattle.roam_pane_metadata.specs.Keeping.{Ends, Keeps, Tells, collecting_of, ended_by, with_told};
ghost use Rattle.roam_pane_metadata.specs.Texts.{longest_text, nothing_said, with_clip, with_title};
ghost use Rattle.roam_pane_metadata.specs.Emissions.{IsCounted, Emission, Says, reset_if, without_title};

use crate::texts::{LONGEST_TEXT, clip_in, title_in};
use roam_text::{StringKind, StringStep};
use std::alloc::{AllocError, Global};
use std::marker::Model;

/// The collected text of the open control string.
#[derive(Clone, Copy)]
pub enum Collecting {
    /// Nothing: none is open, or one that says nothing here.
    Nothing,
    /// Its text.
    Text,
    /// Nothing any more, since the text is longer than any that counts.
    TooLong,
    /// Nothing any more, since memory was refused.
    NoMemory,
}

/// The meaning of a control string.
#[derive(Drop)]
pub enum Told {
    Nothing,
    Title(Vec<char>),
    /// A text for the clipboard, in base64.
    Clip(Vec<u8>),
    /// Nothing, since memory was refused.
    NoMemory,
}

// Returns the meaning of a text. `AllocError` if there is no memory.
fn read_text(alloc: Global, text: &[char]) -> Result<Told, AllocError>
    ensures tells { IfOk result (λ told. Tells told Collecting.Text text.now) }
{
    if let Some(title) = title_in(alloc, text)? {
        return Ok(Told::Title(title));
    }
    match clip_in(alloc, text)? {
        Some(clip) => Ok(Told::Clip(clip)),
        None => Ok(Told::Nothing),
    }
}

// Returns the meaning of the collected text.
fn told_by(alloc: Global, collecting: Collecting, text: &[char]) -> Told
    ensures tells { Tells result collecting text.now }
{
    match collecting {
        Collecting::Text => match read_text(alloc, text) {
            Ok(told) => told,
            Err(_) => Told::NoMemory,
        },
        Collecting::NoMemory => Told::NoMemory,
        Collecting::Nothing | Collecting::TooLong => Told::Nothing,
    }
}

fn collecting_of(kind: StringKind) -> Collecting
    ensures collecting { result ≡ collecting_of kind }
{
    match kind {
        StringKind::SystemCommand => Collecting::Text,
        _ => Collecting::Nothing,
    }
}

// Adds a character to the text, if it is collected, and there is room and memory.
fn add(collecting: Collecting, text: &mut Vec<char>, c: char) -> Collecting
    ensures text { result ≡ Collecting.Text → (collecting ≡ Collecting.Text) × (text.new.items ≡ text.old.items ++ c ∷ [])
        × (length text.new.items ≤ longest_text) }
    ensures nothing { result ≡ Collecting.Nothing → collecting ≡ Collecting.Nothing }
    ensures too_long { result ≡ Collecting.TooLong
        → (collecting ≡ Collecting.TooLong) ⊎ ((collecting ≡ Collecting.Text) × (longest_text ≤ length text.old.items)) }
    ensures no_memory { result ≡ Collecting.NoMemory → (collecting ≡ Collecting.NoMemory) ⊎ (collecting ≡ Collecting.Text) }
{
    match collecting {
        Collecting::Text if text.len() >= LONGEST_TEXT => Collecting::TooLong,
        Collecting::Text => match text.push(c) {
            Ok(()) => Collecting::Text,
            Err(_) => Collecting::NoMemory,
        },
        Collecting::Nothing | Collecting::TooLong | Collecting::NoMemory => collecting,
    }
}

/// The stored texts, and the collected text of the open control string.
#[derive(Drop)]
pub struct Texts {
    alloc: Global,
    title: Option<Vec<char>>,
    titles: u64,
    clip: Option<Vec<u8>>,
    clips: u64,
    collecting: Collecting,
    text: Vec<char>,
}

impl Model for Texts {
    ghost use Rattle.std.specs.Option.{option_map};
    ghost use Rattle.roam_pane_metadata.specs.Keeping.{TextsView};

    ghost Value = { TextsView };

    ghost view = { λ t. record {
      said = record {
        title = option_map (λ title. title.items) t.title;
        titles = t.titles;
        clip = option_map (λ clip. clip.items) t.clip;
        clips = t.clips;
      };
      collecting = t.collecting;
      text = t.text.items;
    } };
}

impl Texts {
    /// Nothing was said, and nothing is open.
    pub fn new(alloc: Global) -> Texts
        ensures keeps { Keeps result [] None }
        ensures nothing { result.said ≡ nothing_said }
    {
        Texts {
            alloc,
            title: None,
            titles: 0,
            clip: None,
            clips: 0,
            collecting: Collecting::Nothing,
            text: Vec::new(alloc),
        }
    }

    /// The last title, if there was one and it wasn't taken back.
    pub fn title(&self) -> Option<&[char]>
        ensures title { option_map (λ title. title.now) result ≡ self.now.said.title }
    {
        self.title.as_deref()
    }

    /// How many titles there were, and how many were taken back.
    pub fn titles(&self) -> u64
        ensures titles { result ≡ self.now.said.titles }
    {
        self.titles
    }

    /// The last text for the clipboard, in base64, if there was one.
    pub fn clip(&self) -> Option<&[u8]>
        ensures clip { option_map (λ clip. clip.now) result ≡ self.now.said.clip }
    {
        self.clip.as_deref()
    }

    /// How many texts for the clipboard there were.
    pub fn clips(&self) -> u64
        ensures clips { result ≡ self.now.said.clips }
    {
        self.clips
    }

    // A control string of this kind was opened.
    fn open(&mut self, kind: StringKind)
        ensures opened { self.new ≡ record self.old { collecting = collecting_of kind; text = [] } }
    {
        self.collecting = collecting_of(kind);
        self.text = Vec::new(self.alloc);
    }

    // The one that is open has a character more.
    fn add(&mut self, c: char)
        ensures said { self.new.said ≡ self.old.said }
        ensures text { self.new.collecting ≡ Collecting.Text → (self.old.collecting ≡ Collecting.Text)
            × (self.new.text ≡ self.old.text ++ c ∷ []) × (length self.new.text ≤ longest_text) }
        ensures nothing { self.new.collecting ≡ Collecting.Nothing → self.old.collecting ≡ Collecting.Nothing }
        ensures too_long { self.new.collecting ≡ Collecting.TooLong → (self.old.collecting ≡ Collecting.TooLong)
            ⊎ ((self.old.collecting ≡ Collecting.Text) × (longest_text ≤ length self.old.text)) }
        ensures no_memory { self.new.collecting ≡ Collecting.NoMemory
            → (self.old.collecting ≡ Collecting.NoMemory) ⊎ (self.old.collecting ≡ Collecting.Text) }
    {
        self.collecting = add(self.collecting, &mut self.text, c);
    }

    // None is open any more.
    fn close(&mut self)
        ensures closed { self.new ≡ record self.old { collecting = Collecting.Nothing; text = [] } }
    {
        self.collecting = Collecting::Nothing;
        self.text = Vec::new(self.alloc);
    }

    fn keep_title(&mut self, title: Vec<char>)
        ensures said { self.new ≡ record self.old { said = with_title (Some title.items) self.old.said } }
        ensures counted { IsCounted self.old.said self.new.said }
    {
        self.title = Some(title);
        self.titles = self.titles.saturating_add(1);
    }

    fn keep_clip(&mut self, clip: Vec<u8>)
        ensures said { self.new ≡ record self.old { said = with_clip (Some clip.items) self.old.said } }
        ensures counted { IsCounted self.old.said self.new.said }
    {
        self.clip = Some(clip);
        self.clips = self.clips.saturating_add(1);
    }

    // Stores a reported text.
    fn keep(&mut self, told: Told)
        ensures said { self.new ≡ record self.old { said = with_told told self.old.said } }
        ensures counted { IsCounted self.old.said self.new.said }
    {
        match told {
            Told::Nothing | Told::NoMemory => {}
            Told::Title(title) => self.keep_title(title),
            Told::Clip(clip) => self.keep_clip(clip),
        }
    }

    // Removes the title, and counts that if there was one.
    fn take_title_back(&mut self)
        ensures said { self.new ≡ record self.old { said = without_title self.old.said } }
        ensures counted { IsCounted self.old.said self.new.said }
    {
        self.titles = self.titles.saturating_add(u64::from(self.title.is_some()));
        self.title = None;
    }

    // The one that is open counts.
    fn end(&mut self)
        ensures ends { Ends self.old self.new }
        ensures counted { IsCounted self.old.said self.new.said }
    {
        let told = told_by(self.alloc, self.collecting, &self.text);
        self.close();
        self.keep(told);
    }

    /// A control function was run, or none: RIS takes the title back.
    pub fn hear(&mut self, is_reset: bool)
        ensures keeps { (emitted : List Emission) (begun : Option OpenString) → Keeps self.old emitted begun
            → Keeps self.new (emitted ++ reset_if is_reset) begun }
        ensures counted { IsCounted self.old.said self.new.said }
    {
        if is_reset {
            self.take_title_back();
        }
    }

    /// A character did so to the control strings.
    pub fn take(&mut self, step: StringStep)
        ensures keeps { (emitted : List Emission) (all : Strings) → Keeps self.old emitted all.begun
            → Keeps self.new (emitted ++ map Says (ended_by step all.begun)) (after_step step all).begun }
        ensures counted { IsCounted self.old.said self.new.said }
    {
        match step {
            StringStep::Nothing => {}
            StringStep::Opened(kind) => self.open(kind),
            StringStep::Added(c) => self.add(c),
            StringStep::Ended(_) => self.end(),
            StringStep::BrokenOff => self.close(),
        }
    }
}
