//! Some rows, whose bytes lie one behind the other.
ghost use Rattle.std.specs.Prelude.{◌≡◌, ◌<◌, ◌≤◌, ◌∷◌, ◌++◌, [], length, take, OnErr, OnOk};
ghost use Rattle.std.specs.List.{All};
ghost use Rattle.roam_stored_rows.specs.Rows.{row_of};

use crate::wraps::Wrap;
use std::alloc::{AllocError, Global};
use std::marker::Model;

/// The bytes of all rows of a chunk are fewer than this.
const MOST: usize = 0xffff_ffff;

// Where the bytes of a row are, and how it ends.
#[derive(Clone, Copy)]
pub(crate) struct Place {
    start: u32,
    end: u32,
    wrap: Wrap,
}

/// Some rows.
#[derive(Drop)]
pub(crate) struct RowChunk {
    text: Vec<u8>,
    places: Vec<Place>,
}

impl Model for RowChunk {
    ghost use Rattle.std.specs.Prelude.{List, map};
    ghost use Rattle.std.specs.List.{All};
    ghost use Rattle.roam_stored_rows.specs.Rows.{StoredRow};
    ghost use Rattle.roam_stored_rows.specs.Chunks.{IsPlaceOf, row_at};

    ghost Value = { List StoredRow };

    ghost view = { λ a. map (row_at a.text.items) a.places.items };

    ghost invariant = { λ a. All (IsPlaceOf a.text.items) a.places.items };
}

// Where the last of these places ends.
fn end_of(places: &[Place]) -> u32
    ensures last { All (λ p. p.end ≤ result) places.now }
{
    let mut end = 0;
    for place in places {
        end = end.max(place.end);
    }
    end
}

impl RowChunk {
    /// No rows.
    pub(crate) fn new(alloc: Global) -> Self
        ensures none { result ≡ [] }
    {
        RowChunk {
            text: Vec::new(alloc),
            places: Vec::new(alloc),
        }
    }

    /// How many rows they are.
    pub(crate) fn len(&self) -> usize
        ensures len { result ≡ length self.now }
    {
        self.places.len()
    }

    /// The bytes of a row.
    pub(crate) fn text_at(&self, at: usize) -> &[u8]
        requires within { at < length self.now }
        ensures text { result.now ≡ (row_of self.now at).text }
    {
        let place = self.places[at];
        &self.text[place.start as usize..place.end as usize]
    }

    /// How a row ends.
    pub(crate) fn wrap_at(&self, at: usize) -> Wrap
        requires within { at < length self.now }
        ensures wrap { result ≡ (row_of self.now at).wrap }
    {
        self.places[at].wrap
    }

    /// Adds a row.
    pub(crate) fn push(&mut self, wrap: Wrap, text: &[u8]) -> Result<(), AllocError>
        ensures ok { OnOk result (self.new ≡ self.old ++ record { wrap = wrap; text = text.now } ∷ []) }
        ensures err { OnErr result (self.new ≡ self.old) }
    {
        let start = self.text.len();
        if MOST < start || MOST - start < text.len() {
            return Err(AllocError);
        }
        let place = Place {
            start: start as u32,
            end: (start + text.len()) as u32,
            wrap,
        };
        self.text.extend_from_slice(text)?;
        if self.places.push(place).is_err() {
            self.text.truncate(start);
            return Err(AllocError);
        }
        Ok(())
    }

    /// Removes all rows but the first ones.
    pub(crate) fn truncate(&mut self, count: usize)
        ensures first { self.new ≡ take count self.old }
    {
        self.places.truncate(count);
        let end = end_of(&self.places);
        self.text.truncate(end as usize);
    }
}
