//! The metadata that a subscriber gets.
ghost use Rattle.std.specs.Prelude.{◌≡◌, ◌≢◌, ◌<◌, ◌||◌, [], true, false, ℕ, take, drop, IfOk, IsOkUnless, Some, None, string_bytes};
ghost use Rattle.roam_pane_protocol.specs.MetadataLists.{metadata_at};
ghost use Rattle.roam_pane_subscribers.specs.MetadataEvents.{IsFreshMetadataEvent, Renews, metadata_news, is_metadata_line, told_at, told_before};
ghost use Rattle.roam_pane_subscribers.specs.Programs.{Wrote};

use crate::programs::Program;
use roam_acts::limits::PANES_END;
use roam_cells::Fault;
use roam_pane_protocol::{MetadataList, MetadataPane, push_metadata};
use roam_pane_sockets::Panes;
use roam_stream_framing::Stream;
use std::alloc::Global;

/// The metadata of a subscriber: none before it asks; then the newest, if no bytes are queued for it. So at most the news of nine panes is
/// queued, and a program that reads nothing grows nothing.
#[derive(Drop)]
pub(crate) struct MetadataEvent {
    // True if it asked.
    is_asked: bool,
    // The metadata that was sent last, if any.
    told: Option<MetadataList>,
    // The queued bytes.
    text: Vec<u8>,
}

/// Returns true if a line asks for metadata.
pub(crate) fn is_metadata(line: &[u8]) -> bool
    ensures beside { result ≡ is_metadata_line line.now }
{
    line == b"metadata".as_slice()
}

// Returns the metadata of a pane that a program knows.
fn told_before(now: Option<MetadataPane>) -> Option<MetadataPane>
    ensures told { result ≡ told_before now }
{
    match now {
        None => None,
        Some(now) => Some(now.before_it_was_told()),
    }
}

// Returns the metadata of a pane that was sent.
fn told_at(told: &Option<MetadataList>, now: Option<MetadataPane>, pane: u8) -> Option<MetadataPane>
    requires pane { pane < 10 }
    ensures told { result ≡ told_at told.now now pane }
{
    match told {
        None => told_before(now),
        Some(told) => told.get(pane),
    }
}

// Returns the text of new metadata. `OutOfMemory`.
fn news(
    alloc: Global,
    told: &Option<MetadataList>,
    now: &MetadataList,
    panes: &Panes,
) -> Result<String, Fault>
    ensures news { IfOk result (λ text. string_bytes text ≡ metadata_news 9 told.now now.now panes.now.all.items) }
    ensures fault { IsOkUnless result Fault.OutOfMemory }
{
    let mut text = String::new(alloc);
    for pane in 1..PANES_END {
        let is = now.get(pane);
        push_metadata(
            alloc,
            &mut text,
            pane,
            told_at(told, is, pane),
            is,
            panes.title(pane),
        )?;
    }
    Ok(text)
}

impl MetadataEvent {
    /// Nothing was asked for.
    pub(crate) fn new(alloc: Global) -> MetadataEvent
        ensures fresh { IsFreshMetadataEvent result }
    {
        MetadataEvent {
            is_asked: false,
            told: None,
            text: Vec::new(alloc),
        }
    }

    /// Notes the request if the line asks for metadata.
    pub(crate) fn heard(&mut self, line: &[u8])
        ensures asked { self.new ≡ record self.old { is_asked = self.old.is_asked || is_metadata_line line.now } }
    {
        self.is_asked = self.is_asked || is_metadata(line);
    }

    /// Returns true if no metadata is queued.
    pub(crate) fn is_clear(&self) -> bool
        ensures clear { result ≡ true → self.now.text.items ≡ [] }
        ensures some { result ≡ false → self.now.text.items ≢ [] }
    {
        self.text.is_empty()
    }

    /// Returns true if metadata was asked for.
    pub(crate) fn is_asked(&self) -> bool
        ensures asked { result ≡ self.now.is_asked }
    {
        self.is_asked
    }

    /// Queues new metadata. If memory is refused, a later call does.
    pub(crate) fn renew(&mut self, alloc: Global, now: &MetadataList, panes: &Panes)
        ensures renews { Renews now.now panes.now.all.items self.old self.new }
    {
        if let Ok(text) = news(alloc, &self.told, now, panes) {
            self.text = text.into_bytes();
            self.told = Some(*now);
        }
    }

    /// This text waits from now on.
    pub(crate) fn put(&mut self, text: Vec<u8>)
        ensures put { self.new ≡ record self.old { text = text } }
    {
        self.text = text;
    }

    /// Writes queued metadata to the program, and removes the written bytes.
    pub(crate) fn hand<S: Stream + Drop>(&mut self, program: &mut Program<S>)
        ensures took { (n : ℕ) × (self.new.text.items ≡ drop n self.old.text.items)
            × Wrote S.contents program.old.stream program.new.stream (take n self.old.text.items) }
        ensures others { self.new ≡ record self.old { text = self.new.text } }
    {
        let count = program.tell(&self.text);
        drop(self.text.drain(..count));
    }
}
