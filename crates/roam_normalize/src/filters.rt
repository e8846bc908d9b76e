//! The filter, over pieces.
ghost use Rattle.std.specs.Prelude.{◌≡◌, ◌≤◌, ◌↔◌, ◌++◌, [], length, IfOk, IsTrue, OnOk, OnErr, None};
ghost use Rattle.std.specs.Option.{option_map};
ghost use Rattle.roam_normalize.specs.Normalized.{Goes, held_part, normalized_part};
ghost use Rattle.roam_normalize.specs.Titles.{newest, titles_part};

use crate::fronts::{Found, find, same_run};
use crate::meanings::push_text;
use crate::titles::newest_title;
use std::alloc::{AllocError, Global};
use std::marker::Model;

/// U+2010 HYPHEN in UTF-8.
const HYPHEN: [u8; 3] = [0xE2, 0x80, 0x90];

// Appends the meaning of the front, and returns how many bytes were taken: 0 if it is kept back. `AllocError`.
fn push_front(alloc: Global, out: &mut Vec<u8>, bytes: &[u8]) -> Result<usize, AllocError>
    ensures within { IfOk result (λ count. count ≤ length bytes.now) }
    ensures front { IfOk result (λ count. Goes count bytes.now out.old.items out.new.items) }
{
    match find(bytes) {
        Found::Held => Ok(0),
        Found::Same(count) => {
            out.extend_from_slice(&bytes[..count])?;
            Ok(count)
        }
        Found::Hyphen => {
            out.extend_from_slice(&HYPHEN)?;
            Ok(2)
        }
        Found::Titled(count) => Ok(count),
        Found::Changed(kind, count) => {
            push_text(alloc, out, kind, &bytes[2..count + 2], bytes[count + 2])?;
            Ok(count + 3)
        }
    }
}

/// The meaning of some bytes.
#[derive(Drop)]
struct Translation {
    out: Vec<u8>,
    held: Vec<u8>,
}

// A vector of these bytes.
fn copy_of(alloc: Global, bytes: &[u8]) -> Result<Vec<u8>, AllocError>
    ensures copy { IfOk result (λ copy. copy.items ≡ bytes.now) }
{
    let mut copy = Vec::new(alloc);
    copy.extend_from_slice(bytes)?;
    Ok(copy)
}

// Returns the translation once no more bytes can be read: this output, and these bytes kept back. `AllocError`.
fn ended(alloc: Global, out: Vec<u8>, held: &[u8]) -> Result<Translation, AllocError>
    ensures out { IfOk result (λ t. t.out.items ≡ out.items) }
    ensures held { IfOk result (λ t. t.held.items ≡ held.now) }
{
    let held = copy_of(alloc, held)?;
    Ok(Translation { out, held })
}

// Returns the meaning of some bytes. `AllocError`.
fn translate(alloc: Global, bytes: &[u8]) -> Result<Translation, AllocError>
    ensures out { IfOk result (λ t. t.out.items ≡ normalized_part bytes.now) }
    ensures held { IfOk result (λ t. t.held.items ≡ held_part bytes.now) }
{
    let mut out = Vec::new(alloc);
    let mut at = 0;
    while at < bytes.len() {
        let rest = &bytes[at..];
        let same = same_run(rest);
        out.extend_from_slice(&rest[..same])?;
        at += same;
        let taken = push_front(alloc, &mut out, &bytes[at..])?;
        if taken == 0 {
            return ended(alloc, out, &bytes[at..]);
        }
        at += taken;
    }
    ended(alloc, out, &[])
}

/// Lets a program's bytes through as they are meant, piece by piece.
#[derive(Drop)]
pub struct Filter {
    alloc: Global,
    held: Vec<u8>,
}

impl Model for Filter {
    ghost use Rattle.std.specs.Prelude.{ℕ, List};

    ghost Value = { List ℕ };

    ghost view = { λ f. f.held.items };
}

impl Filter {
    /// A filter that nothing was given to.
    pub fn new(alloc: Global) -> Filter
        ensures nothing { result ≡ [] }
    {
        Filter {
            alloc,
            held: Vec::new(alloc),
        }
    }

    // Returns the meaning of the kept bytes and a piece. `AllocError`.
    fn translation(&self, piece: &[u8]) -> Result<Translation, AllocError>
        ensures out { IfOk result (λ t. t.out.items ≡ normalized_part (self.now ++ piece.now)) }
        ensures held { IfOk result (λ t. t.held.items ≡ held_part (self.now ++ piece.now)) }
    {
        if self.held.is_empty() {
            return translate(self.alloc, piece);
        }
        let mut bytes = copy_of(self.alloc, &self.held)?;
        bytes.extend_from_slice(piece)?;
        translate(self.alloc, &bytes)
    }

    /// Returns the last title that a piece completes, after the pieces before it; `None` if it completes none. The piece isn't read by this.
    /// `AllocError`.
    pub fn title(&self, piece: &[u8]) -> Result<Option<Vec<u8>>, AllocError>
        ensures title { IfOk result (λ title. option_map (λ t. t.items) title ≡ newest (titles_part (self.now ++ piece.now)) None) }
    {
        let mut bytes = copy_of(self.alloc, &self.held)?;
        bytes.extend_from_slice(piece)?;
        match newest_title(&bytes) {
            None => Ok(None),
            Some(title) => Ok(Some(copy_of(self.alloc, title)?)),
        }
    }

    /// Returns true if no bytes are kept back.
    pub fn is_empty(&self) -> bool
        ensures empty { IsTrue result ↔ (self.now ≡ []) }
    {
        self.held.is_empty()
    }

    /// Returns the output for a piece, after the pieces before it. After `AllocError` nothing was read, and the same piece may be given
    /// again.
    pub fn feed(&mut self, piece: &[u8]) -> Result<Vec<u8>, AllocError>
        ensures out { IfOk result (λ out. out.items ≡ normalized_part (self.old ++ piece.now)) }
        ensures held { OnOk result (self.new ≡ held_part (self.old ++ piece.now)) }
        ensures err { OnErr result (self.new ≡ self.old) }
    {
        let translation = self.translation(piece)?;
        self.held = translation.held;
        Ok(translation.out)
    }
}
