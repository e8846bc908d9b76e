//! The clips that subscribers get.
ghost use Rattle.std.specs.Prelude.{◌≡◌, true, false, length, nat_lt, None};
ghost use Rattle.roam_pane_subscribers.specs.Clipping.{GivesClips, IsFree, TellsClips, TellsEachClips, any_wants, notes_clips, wants_clips};

use crate::clips::clip_news;
use crate::seats::Role;
use crate::subscribing::Subscriber;
use roam_pane_protocol::ClipList;
use roam_pane_sockets::Panes;
use roam_stream_framing::Stream;
use std::alloc::Global;

impl<S: Stream + Drop> Subscriber<S> {
    // Returns true if the subscriber asked for clips and isn't the pty host.
    fn wants_clips(&self) -> bool
        ensures wants { result ≡ wants_clips self.now }
    {
        self.clips.is_asked() && self.role == Role::Other
    }

    // Returns true if no bytes are queued for the subscriber.
    pub(crate) fn is_free(&self) -> bool
        ensures free { result ≡ true → IsFree self.now }
        ensures busy { result ≡ false → IsFree self.now → ⊥ }
    {
        self.metadata_event.is_clear() && self.waiting.is_empty()
    }

    // Queues new clips for the subscriber, if it may get some, and returns true if there are any.
    fn renew_clips(&mut self, alloc: Global, now: &ClipList, may: bool, panes: &Panes) -> bool
        ensures gives { GivesClips may now.now panes.now.all.items result self.old self.new }
    {
        let Some(told) = self.clips.told() else {
            self.clips.note(now);
            return false;
        };
        if !may {
            return false;
        }
        if !self.is_free() {
            return false;
        }
        match clip_news(alloc, &told, now, panes) {
            Ok(text) => self.give_clips(text, now),
            Err(_) => false,
        }
    }

    // Queues this text of new clips, and returns true if it isn't empty.
    fn give_clips(&mut self, text: Vec<u8>, now: &ClipList) -> bool
        ensures text { self.new.metadata_event.text ≡ text }
        ensures some { result ≡ nat_lt 0 (length text.items) }
        ensures noted { self.new ≡ record (notes_clips now.now self.old) {
          metadata_event = record self.old.metadata_event { text = self.new.metadata_event.text };
        } }
    {
        let has_text = !text.is_empty();
        self.metadata_event.put(text);
        self.clips.note(now);
        has_text
    }

    // Queues new clips for a subscriber that asked and may get some, and writes queued bytes. Returns true if there are new clips.
    fn tell_clips(&mut self, alloc: Global, now: &ClipList, may: bool, panes: &Panes) -> bool
        ensures tells { TellsClips S.contents may now.now panes.now.all.items result self.old self.new }
    {
        if !self.wants_clips() {
            return false;
        }
        let gave = self.renew_clips(alloc, now, may, panes);
        self.hand_metadata_event();
        gave
    }
}

/// Sends each subscriber that wants clips the new ones, if that is allowed now. Returns true if one of them got some.
pub(crate) fn tell_each_clips<S: Stream + Drop>(
    alloc: Global,
    all: &mut [Subscriber<S>],
    now: &ClipList,
    may: bool,
    panes: &Panes,
) -> bool
    ensures told { TellsEachClips S.contents may now.now panes.now.all.items result all.old all.new }
{
    let Some((first, others)) = all.split_first_mut() else {
        return false;
    };
    let gave = first.tell_clips(alloc, now, may, panes);
    tell_each_clips(alloc, others, now, may, panes) || gave
}

/// Returns true if one of these subscribers wants clips.
pub(crate) fn any_wants<S: Stream + Drop>(all: &[Subscriber<S>]) -> bool
    ensures any { result ≡ any_wants all.now }
{
    let Some((first, others)) = all.split_first() else {
        return false;
    };
    first.wants_clips() || any_wants(others)
}
