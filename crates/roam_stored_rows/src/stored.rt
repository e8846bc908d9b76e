//! Rows by number: the newest are kept.
ghost use Rattle.std.specs.Prelude.{◌≡◌, ◌<◌, ◌-◌, ◌++◌, ◌∷◌, ◌↔◌, [], IfErr, IfOk, IsErrOf, OnErr, OnOk, length, min, take};
ghost use Rattle.roam_stored_rows.specs.Ends.{IsLimited, added, empty_at, withdrawn, without};
ghost use Rattle.roam_stored_rows.specs.Finding.{IsFound, letters_in, most_text};
ghost use Rattle.roam_stored_rows.specs.Pages.{IsFit, asked, lines_of, start_of};
ghost use Rattle.roam_stored_rows.specs.Rows.{bytes_of, end_of};

use crate::finding::{Buffers, Sought, Way, search};
use crate::reading::{above, bytes_between, fit, push_lines};
use crate::row_chunks::RowChunks;
use crate::wraps::Wrap;
use std::alloc::{AllocError, Global};
use std::marker::Model;

/// Why a call changed nothing.
#[derive(Clone, Copy, Debug)]
pub enum StoreFault {
    /// There is no memory for this, or no number: the rows' numbers and bytes stay below 2 ^ 64.
    OutOfMemory,
    /// A sought text has more than 1,024 bytes.
    TextTooLong,
}

/// The most bytes of a text that is sought.
pub const MOST_TEXT: usize = 1024;

impl From<AllocError> for StoreFault {
    ghost use Rattle.std.specs.Prelude.{◌≡◌};
    ghost use Rattle.roam_stored_rows.specs.declared.stored.StoreFault.TheVariants.{OutOfMemory};

    ghost from_gives = { λ _ e. e ≡ OutOfMemory };

    fn from(_refused: AllocError) -> StoreFault {
        StoreFault::OutOfMemory
    }
}

/// What was read: the number of the first row, and how many rows.
#[derive(Clone, Copy)]
pub struct Page {
    /// The number of the first row.
    pub first: u64,
    /// How many rows.
    pub count: u64,
}

/// The newest rows that left a screen, by number.
#[derive(Drop)]
pub struct StoredRows {
    alloc: Global,
    first: u64,
    // The bytes of the lines of all rows.
    bytes: u64,
    rows: RowChunks,
}

impl Model for StoredRows {
    ghost use Rattle.roam_stored_rows.specs.Rows.{AreCounted, RowsView};

    ghost Value = { RowsView };

    ghost view = { λ a. record { first = a.first; rows = a.rows } };

    ghost invariant = { λ a. AreCounted a.first a.bytes a.rows };
}

// The place of the row with this number, as far as there are rows.
fn place_of(first: u64, count: usize, number: u64) -> usize
    ensures place { result ≡ min (number - first) count }
{
    number.saturating_sub(first).min(count as u64) as usize
}

impl StoredRows {
    /// No rows yet; the first one gets this number.
    pub fn new(alloc: Global, first: u64) -> Self
        ensures none { result ≡ empty_at first }
    {
        StoredRows {
            alloc,
            first,
            bytes: 0,
            rows: RowChunks::new(alloc),
        }
    }

    /// The number of the first row.
    pub fn first(&self) -> u64
        ensures first { result ≡ self.now.first }
    {
        self.first
    }

    /// The number after that of the last row.
    pub fn end(&self) -> u64
        ensures end { result ≡ end_of self.now }
    {
        self.first + self.rows.len() as u64
    }

    /// The number of bytes of the lines of all rows.
    pub fn bytes(&self) -> u64
        ensures bytes { result ≡ bytes_of self.now.rows }
    {
        self.bytes
    }

    /// Adds a row behind the others.
    pub fn push(&mut self, wrap: Wrap, text: &[u8]) -> Result<(), StoreFault>
        ensures ok { OnOk result (self.new ≡ added (record { wrap = wrap; text = text.now }) self.old) }
        ensures err { OnErr result (self.new ≡ self.old) }
        ensures faults { IfErr result (λ e. e ≡ StoreFault.OutOfMemory) }
    {
        let size = text.len() as u64;
        if u64::MAX - 2 < size || u64::MAX - 2 - size < self.bytes {
            return Err(StoreFault::OutOfMemory);
        }
        if u64::MAX - self.first <= self.rows.len() as u64 {
            return Err(StoreFault::OutOfMemory);
        }
        if self.rows.push(wrap, text).is_err() {
            return Err(StoreFault::OutOfMemory);
        }
        self.bytes += size + 2;
        Ok(())
    }

    /// Removes so many of the newest rows, or all.
    pub fn withdraw(&mut self, count: u64)
        ensures newest { self.new ≡ withdrawn count self.old }
    {
        let len = self.rows.len();
        if len as u64 <= count {
            self.rows.clear();
            self.bytes = 0;
            return;
        }
        let kept = len - count as usize;
        self.bytes -= bytes_between(&self.rows, kept, len);
        self.rows.truncate(kept);
    }

    /// Removes all rows. The next one gets this number.
    pub fn begin(&mut self, first: u64)
        ensures none { self.new ≡ empty_at first }
    {
        self.rows.clear();
        self.first = first;
        self.bytes = 0;
    }

    /// Drops so many of the oldest rows, or all.
    pub fn forget(&mut self, count: u64)
        ensures oldest { self.new ≡ without (min count (length self.old.rows)) self.old }
    {
        let count = count.min(self.rows.len() as u64);
        self.bytes -= bytes_between(&self.rows, 0, count as usize);
        self.first += count;
        self.rows.drop_first(count as usize);
    }

    /// Removes all rows. The next one has the number after theirs.
    pub fn clear(&mut self)
        ensures none { self.new ≡ empty_at (end_of self.old) }
    {
        self.first = self.end();
        self.bytes = 0;
        self.rows.clear();
    }

    /// Drops the oldest rows above these limits of rows and of the bytes of their lines.
    pub fn limit(&mut self, most_rows: u64, most_bytes: u64)
        ensures oldest { IsLimited most_rows most_bytes self.old self.new }
    {
        let (count, bytes) = above(&self.rows, self.bytes, most_rows, most_bytes);
        self.first += count as u64;
        self.bytes = bytes;
        self.rows.drop_first(count);
    }

    /// Adds the lines of rows from a number on, or of the first ones there are: so many at most, and no more than these bytes hold, but
    /// at least one if there is one.
    pub fn read(
        &self,
        from: u64,
        count: u64,
        most_bytes: u64,
        out: &mut Vec<u8>,
    ) -> Result<Page, StoreFault>
        ensures first { IfOk result (λ page. page.first ≡ start_of self.now from) }
        ensures count { IfOk result (λ page. IsFit most_bytes (asked self.now from count) page.count) }
        ensures lines { IfOk result (λ page. out.new.items ≡ out.old.items ++ lines_of (take page.count (asked self.now from count))) }
        ensures err { OnErr result (out.new.items ≡ out.old.items) }
        ensures faults { IfErr result (λ e. e ≡ StoreFault.OutOfMemory) }
    {
        let first = from
            .max(self.first)
            .min(self.first + self.rows.len() as u64);
        let at = (first - self.first) as usize;
        let asked = count.min((self.rows.len() - at) as u64) as usize;
        let found = fit(&self.rows, at, at + asked, most_bytes);
        let before = out.len();
        if push_lines(&self.rows, at, at + found, out).is_err() {
            out.truncate(before);
            return Err(StoreFault::OutOfMemory);
        }
        Ok(Page {
            first,
            count: found as u64,
        })
    }

    /// Searches the rows from one number up to another for the nearest in which an occurrence of a text begins. Rows from which autowrap went
    /// on are one line, and styles are no letters. Case counts unless each letter of the text is its own simple case folding (The Unicode
    /// Standard, 3.13). An empty text has no occurrence. Refuses a text of more than 1,024 bytes, and want of memory.
    pub fn find(
        &self,
        low: u64,
        high: u64,
        way: Way,
        text: &[u8],
    ) -> Result<Option<u64>, StoreFault>
        ensures found { IfOk result (IsFound way self.now (letters_in text.now) low high) }
        ensures too_long { IsErrOf result StoreFault.TextTooLong ↔ (most_text < length text.now) }
    {
        if MOST_TEXT < text.len() {
            return Err(StoreFault::TextTooLong);
        }
        if text.is_empty() {
            return Ok(None);
        }
        let from = place_of(self.first, self.rows.len(), low);
        let to = place_of(self.first, self.rows.len(), high);
        let sought = Sought::new(self.alloc, text)?;
        let mut buffers = Buffers {
            line: Vec::new(self.alloc),
            plain: Vec::new(self.alloc),
        };
        let found = search(&self.rows, from, to, way, &sought, &mut buffers)?;
        match found {
            Some(at) => Ok(Some(self.first + at as u64)),
            None => Ok(None),
        }
    }
}
