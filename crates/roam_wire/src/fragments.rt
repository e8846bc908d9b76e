//! The fragments of one text by their index, some of them missing.
ghost use Rattle.std.specs.Prelude.{◌≡◌, ◌<◌, length, replicate, Some, None, IfOk};
ghost use Rattle.roam_wire.specs.Fragments.{seen, text_of};

use std::alloc::{AllocError, Global};
use std::marker::Model;

// Fragments by their index, and how many of them are missing.
#[derive(Drop)]
pub(crate) struct Fragments {
    places: Vec<Option<Vec<u8>>>,
    missing: usize,
}

impl Model for Fragments {
    ghost use Rattle.std.specs.Prelude.{◌≡◌, ℕ, List, Option};
    ghost use Rattle.roam_wire.specs.Fragments.{count_missing, seen};

    ghost Value = { List (Option (List ℕ)) };

    ghost view = { λ p. seen p.places.items };

    ghost invariant = { λ p. p.missing ≡ count_missing (seen p.places.items) };
}

// As many empty places.
fn empty_places(alloc: Global, count: usize) -> Result<Vec<Option<Vec<u8>>>, AllocError>
    ensures places { IfOk result (λ places. seen places.items ≡ replicate count None) }
{
    let mut places = Vec::with_capacity(alloc, count)?;
    for _ in 0..count {
        places.push(None)?;
    }
    Ok(places)
}

// Returns the fragments that are there, joined in order.
fn join(alloc: Global, places: &[Option<Vec<u8>>]) -> Result<Vec<u8>, AllocError>
    ensures text { IfOk result (λ text. text.items ≡ text_of (seen places.now)) }
{
    let mut text = Vec::new(alloc);
    for place in places {
        if let Some(fragment) = place {
            text.extend_from_slice(fragment.as_slice())?;
        }
    }
    Ok(text)
}

impl Fragments {
    ghost use Rattle.std.specs.Prelude.{◌≡◌, [], ◌<◌, true, length, replicate, Some, None, IfOk, is_some, get_or, slice_set};
    ghost use Rattle.roam_wire.specs.Fragments.{all_there, text_of};

    // No fragment at all.
    pub(crate) fn new(alloc: Global) -> Fragments
        ensures empty { result ≡ [] }
    {
        Fragments {
            places: Vec::new(alloc),
            missing: 0,
        }
    }

    // So many fragments, all of them missing.
    pub(crate) fn all_missing(alloc: Global, count: usize) -> Result<Fragments, AllocError>
        ensures fragments { IfOk result (λ fragments. fragments ≡ replicate count None) }
    {
        Ok(Fragments {
            places: empty_places(alloc, count)?,
            missing: count,
        })
    }

    // How many fragments the text has.
    pub(crate) fn len(&self) -> usize
        ensures len { result ≡ length self.now }
    {
        self.places.as_slice().len()
    }

    // Returns true if the fragment of this index is there.
    pub(crate) fn has(&self, index: usize) -> bool
        requires place { index < length self.now }
        ensures there { result ≡ is_some (get_or self.now index None) }
    {
        self.places[index].is_some()
    }

    // Returns true if no fragment is missing.
    pub(crate) fn is_whole(&self) -> bool
        ensures whole { result ≡ all_there self.now }
    {
        self.missing == 0
    }

    // Returns the fragments that are there, joined in order.
    pub(crate) fn text(&self, alloc: Global) -> Result<Vec<u8>, AllocError>
        ensures text { IfOk result (λ text. text.items ≡ text_of self.now) }
    {
        join(alloc, self.places.as_slice())
    }

    // Puts a missing fragment in its place.
    pub(crate) fn put(&mut self, index: usize, fragment: Vec<u8>)
        requires place { index < length self.old }
        requires missing { get_or self.old index None ≡ None }
        ensures put { self.new ≡ slice_set self.old index (Some fragment.items) }
    {
        self.places[index] = Some(fragment);
        self.missing -= 1;
    }

    // Takes a fragment that is there out of its place.
    pub(crate) fn take_out(&mut self, index: usize)
        requires there { is_some (get_or self.old index None) ≡ true }
        ensures out { self.new ≡ slice_set self.old index None }
    {
        self.places[index] = None;
        self.missing += 1;
    }
}
