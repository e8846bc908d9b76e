//! The bytes of a pane's program on their way to the pane's terminal, and the metadata.
ghost use Rattle.std.specs.Prelude.{◌≡◌, ◌≤◌, ◌<◌, ◌++◌, ℕ, List, [], length, min, take, is_some, None, IfSome};
ghost use Rattle.roam_pane_sockets.specs.MetadataLists.{title_codes};
ghost use Rattle.roam_pane_sockets.specs.Clips.{clip_codes};
ghost use Rattle.roam_pane_sockets.specs.PaneInputs.{Carries, IsFreshPaneInput};
ghost use Rattle.roam_pane_sockets.specs.FilterStages.{CountsSome, Goes, PassesOn, HasFree, IsFree, TakesMore, bytes_given, frame_goes_on, taken_in, waits_until};

use crate::filter_stages::FilterStage;
use roam_pane_metadata::{Metadata, Query};
use roam_pane_protocol::{ClipPane, MetadataPane, QueryPane};
use std::alloc::Global;

// Returns a filter if one is asked for.
fn filter_stage_for(alloc: Global, is_normalized: bool) -> Option<FilterStage>
    ensures kind { is_some result ≡ is_normalized }
    ensures fresh { Goes result [] [] }
    ensures free { IsFree result }
{
    if is_normalized {
        Some(FilterStage::new(alloc))
    } else {
        None
    }
}

// A piece came that fills a buffer so far: how many bytes there go on now, in its place.
fn pass(filter_stage: &mut Option<FilterStage>, buf: &mut [u8], count: usize, now: u64) -> usize
    requires count { count ≤ min 1024 (length buf.old) }
    requires free { TakesMore filter_stage.old }
    ensures within { result ≤ length buf.new }
    ensures goes { (came given : List ℕ) → Goes filter_stage.old came given
        → Goes filter_stage.new (came ++ take count buf.old) (given ++ take result buf.new) }
    ensures through { PassesOn now (taken_in (take count buf.old) filter_stage.old) filter_stage.new result }
    ensures kind { is_some filter_stage.new ≡ is_some filter_stage.old }
{
    match filter_stage {
        None => count,
        Some(filter_stage) => {
            filter_stage.take_in(buf.split_at(count).0);
            filter_stage.go_on(buf, now)
        }
    }
}

// Returns how many queued bytes go on at a moment; `None` if none may, and more may be read.
fn pass_on(filter_stage: &mut Option<FilterStage>, buf: &mut [u8], now: u64) -> Option<usize>
    ensures none { result ≡ None → (filter_stage.new ≡ filter_stage.old) × TakesMore filter_stage.new }
    ensures some { IfSome result (λ _. IsFree filter_stage.old → ⊥) }
    ensures free { HasFree now filter_stage.old → 0 < length buf.old → CountsSome result }
    ensures through { IfSome result (λ n. PassesOn now filter_stage.old filter_stage.new n) }
    ensures within { IfSome result (λ n. n ≤ length buf.new) }
    ensures goes { (came given : List ℕ) → Goes filter_stage.old came given
        → Goes filter_stage.new came (given ++ bytes_given result buf.new) }
    ensures kind { is_some filter_stage.new ≡ is_some filter_stage.old }
{
    let filter_stage = filter_stage.as_mut()?;
    if filter_stage.is_quiet(now) {
        return None;
    }
    Some(filter_stage.go_on(buf, now))
}

/// The bytes of a pane's program in one generation of the pane, with or without a filter, and the metadata that they set.
#[derive(Drop)]
pub(crate) struct PaneInput {
    alloc: Global,
    filter_stage: Option<FilterStage>,
    metadata: Metadata,
}

impl PaneInput {
    /// Returns an input without bytes. The filter is used if the bytes are to be normalized.
    pub(crate) fn new(alloc: Global, is_normalized: bool) -> PaneInput
        ensures fresh { IsFreshPaneInput result is_normalized }
    {
        PaneInput {
            alloc,
            filter_stage: filter_stage_for(alloc, is_normalized),
            metadata: Metadata::new(alloc),
        }
    }

    /// Another generation of the pane begins.
    pub(crate) fn renew(&mut self)
        ensures fresh { IsFreshPaneInput self.new (is_some self.old.filter_stage) }
    {
        let is_normalized = self.filter_stage.is_some();
        *self = PaneInput::new(self.alloc, is_normalized);
    }

    /// Returns the metadata of this generation of the pane.
    pub(crate) fn metadata_of(&self, generation: u64) -> MetadataPane
        ensures beside { result ≡ record {
          generation = generation;
          settings = self.now.metadata.settings;
          titles = self.now.metadata.texts.said.titles;
        } }
    {
        MetadataPane {
            generation,
            settings: self.metadata.settings(),
            titles: self.metadata.titles(),
        }
    }

    /// The last title that was said, or nothing.
    pub(crate) fn title(&self) -> &[char]
        ensures title { result.now ≡ title_codes self.now.metadata.texts.said.title }
    {
        self.metadata.title().unwrap_or(&[])
    }

    /// How many texts for the clipboard were said in this generation of the pane.
    pub(crate) fn clips_of(&self, generation: u64) -> ClipPane
        ensures clips { result ≡ record { generation = generation; clips = self.now.metadata.texts.said.clips } }
    {
        ClipPane {
            generation,
            clips: self.metadata.clips(),
        }
    }

    /// The last of them, in base64, or nothing.
    pub(crate) fn clip(&self) -> &[u8]
        ensures clip { result.now ≡ clip_codes self.now.metadata.texts.said.clip }
    {
        self.metadata.clip().unwrap_or(&[])
    }

    /// How many questions were asked in this generation of the pane.
    pub(crate) fn asked_of_pane(&self, generation: u64) -> QueryPane
        ensures asks { result ≡ record { generation = generation; asked = self.now.metadata.asked.count } }
    {
        QueryPane {
            generation,
            asked: self.metadata.queries_asked(),
        }
    }

    /// The last of them, in their order.
    pub(crate) fn queries(&self) -> &[Query]
        ensures last { result.now ≡ self.now.metadata.asked.last }
    {
        self.metadata.queries()
    }

    /// Returns the last moment until which an update is kept back; `None` if none is.
    pub(crate) fn waits_until(&self) -> Option<u64>
        ensures until { result ≡ waits_until self.now.filter_stage }
    {
        match &self.filter_stage {
            None => None,
            Some(filter_stage) => filter_stage.held_until(),
        }
    }

    /// Returns true if the rest of an update is to go on whose beginning did.
    pub(crate) fn goes_on(&self) -> bool
        ensures goes { result ≡ frame_goes_on self.now.filter_stage }
    {
        match &self.filter_stage {
            None => false,
            Some(filter_stage) => filter_stage.goes_on(),
        }
    }

    /// Returns how many queued bytes go on at a moment, which may be 0 if memory is refused; `None` if more may be read.
    pub(crate) fn go_on(&mut self, buf: &mut [u8], now: u64) -> Option<usize>
        ensures none { result ≡ None → (self.new ≡ self.old) × TakesMore self.new.filter_stage }
        ensures some { IfSome result (λ _. IsFree self.old.filter_stage → ⊥) }
        ensures free { HasFree now self.old.filter_stage → 0 < length buf.old → CountsSome result }
        ensures through { IfSome result (λ n. PassesOn now self.old.filter_stage self.new.filter_stage n) }
        ensures within { IfSome result (λ n. n ≤ length buf.new) }
        ensures carries { (came given : List ℕ) → Carries self.old came given
            → Carries self.new came (given ++ bytes_given result buf.new) }
        ensures kind { is_some self.new.filter_stage ≡ is_some self.old.filter_stage }
    {
        pass_on(&mut self.filter_stage, buf, now)
    }

    /// A piece came that fills a buffer so far: how many bytes there go on now, in its place.
    pub(crate) fn came(&mut self, buf: &mut [u8], count: usize, now: u64) -> usize
        requires count { count ≤ min 1024 (length buf.old) }
        requires free { TakesMore self.old.filter_stage }
        ensures within { result ≤ length buf.new }
        ensures carries { (came given : List ℕ) → Carries self.old came given
            → Carries self.new (came ++ take count buf.old) (given ++ take result buf.new) }
        ensures through { PassesOn now (taken_in (take count buf.old) self.old.filter_stage) self.new.filter_stage result }
        ensures kind { is_some self.new.filter_stage ≡ is_some self.old.filter_stage }
    {
        self.metadata.feed(buf.split_at(count).0);
        pass(&mut self.filter_stage, buf, count, now)
    }
}
