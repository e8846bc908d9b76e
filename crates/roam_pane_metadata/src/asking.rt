//! Which questions a program asked last, and the control string that is open, which may be one.
ghost use Rattle.std.specs.Prelude.{◌≡◌, ◌++◌, ◌∷◌, [], List, ℕ, true, false, take, None};
ghost use Rattle.std.specs.List.{flat_map};
ghost use Rattle.std.specs.Option.{option_to_list};
ghost use Rattle.roam_text.specs.Strings.{Strings, after_step};
ghost use Rattle.roam_pane_metadata.specs.declared.queries.Query.{Query as QueryOf};
ghost use Rattle.roam_pane_metadata.specs.Asking.{Heads, Recalls, is_command, most_kept, newest};
ghost use Rattle.roam_pane_metadata.specs.Queries.{asked_by_string, query_in};

use crate::queries::{Query, is_bell, query_in};
use arrayvec::ArrayVec;
use roam_text::{StringKind, StringStep};
use std::marker::Model;

/// How many questions are kept.
pub const MOST_KEPT: usize = 16;

/// So many characters are more than a question has.
const LONGEST_HEAD: usize = 5;

/// How many questions a program asked, and the last of them.
#[derive(Drop)]
pub struct Asked {
    count: u64,
    last: ArrayVec<Query, MOST_KEPT>,
}

impl Model for Asked {
    ghost use Rattle.roam_pane_metadata.specs.Asking.{AskedView};

    ghost Value = { AskedView };

    ghost view = { λ a. record { count = a.count; last = a.last.items } };
}

// Keeps a question, in place of the oldest if there are as many as are kept.
fn keep(last: &mut ArrayVec<Query, MOST_KEPT>, query: Query)
    ensures kept { (queries : List QueryOf) → last.old.items ≡ newest most_kept queries
        → last.new.items ≡ newest most_kept (queries ++ query ∷ []) }
{
    if last.is_full() {
        last.remove(0);
    }
    last.push(query);
}

impl Asked {
    /// None was asked.
    pub fn new() -> Asked
        ensures recalls { Recalls result [] }
    {
        Asked {
            count: 0,
            last: ArrayVec::new(),
        }
    }

    /// How many were asked, up to 2^64 - 1.
    pub fn count(&self) -> u64
        ensures count { result ≡ self.now.count }
    {
        self.count
    }

    /// The last of them, sixteen at most, in the order in which they were asked.
    pub fn last(&self) -> &[Query]
        ensures last { result.now ≡ self.now.last }
    {
        &self.last
    }

    /// One more was asked, or none.
    pub fn note(&mut self, query: Option<Query>)
        ensures recalls { (queries : List QueryOf) → Recalls self.old queries
            → Recalls self.new (queries ++ option_to_list query) }
    {
        if let Some(query) = query {
            self.count = self.count.saturating_add(1);
            keep(&mut self.last, query);
        }
    }
}

/// True if an operating system command is open, and its first characters.
#[derive(Drop)]
pub struct Head {
    is_command: bool,
    text: ArrayVec<char, LONGEST_HEAD>,
}

impl Model for Head {
    ghost use Rattle.roam_pane_metadata.specs.Asking.{HeadView};

    ghost Value = { HeadView };

    ghost view = { λ h. record { is_command = h.is_command; text = h.text.items } };
}

impl Head {
    /// None is open.
    pub fn new() -> Head
        ensures heads { Heads result None }
    {
        Head {
            is_command: false,
            text: ArrayVec::new(),
        }
    }

    // A control string of this kind was opened.
    fn open(&mut self, kind: StringKind)
        ensures opened { self.new ≡ record { is_command = is_command kind; text = [] } }
    {
        self.is_command = matches!(kind, StringKind::SystemCommand);
        self.text = ArrayVec::new();
    }

    // It has a character more.
    fn add(&mut self, c: char)
        ensures added { (text : List ℕ) → self.old.text ≡ take 5 text → self.new.text ≡ take 5 (text ++ c ∷ []) }
        ensures command { self.new.is_command ≡ self.old.is_command }
    {
        // Characters behind the first five belong to no question.
        let _ = self.text.try_push(c);
    }

    // Closes the command, and returns its question if it counts.
    fn end(&mut self, by_bell: bool) -> Option<Query>
        ensures closed { self.new.is_command ≡ false }
        ensures other { self.old.is_command ≡ false → result ≡ None }
        ensures asked { self.old.is_command ≡ true → result ≡ query_in by_bell self.old.text }
    {
        let was_command = self.is_command;
        self.is_command = false;
        if was_command {
            query_in(by_bell, &self.text)
        } else {
            None
        }
    }

    /// Takes the effect of a character on the control strings; returns the question of the string that it ended, if any.
    pub fn take(&mut self, step: StringStep) -> Option<Query>
        ensures heads { (all : Strings) → Heads self.old all.begun → Heads self.new (after_step step all).begun }
        ensures asked { (all : Strings) → Heads self.old all.begun → flat_map asked_by_string (after_step step all).ended
            ≡ flat_map asked_by_string all.ended ++ option_to_list result }
    {
        match step {
            StringStep::Nothing => None,
            StringStep::Opened(kind) => {
                self.open(kind);
                None
            }
            StringStep::Added(c) => {
                self.add(c);
                None
            }
            StringStep::Ended(ending) => self.end(is_bell(ending)),
            StringStep::BrokenOff => {
                self.is_command = false;
                None
            }
        }
    }
}
