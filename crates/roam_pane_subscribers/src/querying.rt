//! The questions of panes' programs that subscribers get.
ghost use Rattle.std.specs.Prelude.{◌≡◌, None};
ghost use Rattle.std.specs.List.{AllZip};
ghost use Rattle.roam_pane_subscribers.specs.Querying.{GivesQueries, TellsQueries, notes_queries};

use crate::queries::query_news;
use crate::subscribing::Subscriber;
use roam_pane_protocol::QueryList;
use roam_pane_sockets::Panes;
use roam_stream_framing::Stream;
use std::alloc::Global;

impl<S: Stream + Drop> Subscriber<S> {
    // Queues this text of new questions.
    fn give_queries(&mut self, text: Vec<u8>, now: &QueryList)
        ensures text { self.new.metadata_event.text ≡ text }
        ensures noted { self.new ≡ record (notes_queries now.now self.old) {
          metadata_event = record self.old.metadata_event { text = self.new.metadata_event.text };
        } }
    {
        self.metadata_event.put(text);
        self.queries.note(now);
    }

    // Queues new questions for the subscriber, if no other bytes are queued.
    fn renew_queries(&mut self, alloc: Global, now: &QueryList, panes: &Panes)
        ensures gives { GivesQueries now.now panes.now.all.items self.old self.new }
    {
        let Some(told) = self.queries.told() else {
            self.queries.note(now);
            return;
        };
        if !self.is_free() {
            return;
        }
        if let Ok(text) = query_news(alloc, &told, now, panes) {
            self.give_queries(text, now);
        }
    }

    // Queues new questions for a subscriber that asked for them, and writes queued bytes.
    fn tell_queries(&mut self, alloc: Global, now: &QueryList, panes: &Panes)
        ensures tells { TellsQueries S.contents now.now panes.now.all.items self.old self.new }
    {
        if !self.queries.is_asked() {
            return;
        }
        self.renew_queries(alloc, now, panes);
        if self.metadata_event.is_clear() {
            return;
        }
        self.hand_metadata_event();
    }
}

/// Sends each subscriber that asked for questions the new ones.
pub(crate) fn tell_each_queries<S: Stream + Drop>(
    alloc: Global,
    all: &mut [Subscriber<S>],
    now: &QueryList,
    panes: &Panes,
)
    ensures told { AllZip (λ old new. TellsQueries S.contents now.now panes.now.all.items old new) all.old all.new }
{
    let Some((first, others)) = all.split_first_mut() else {
        return;
    };
    first.tell_queries(alloc, now, panes);
    tell_each_queries(alloc, others, now, panes);
}
