//! The questions of panes' programs that a subscriber has got.
ghost use Rattle.std.specs.Prelude.{◌≡◌, ◌<◌, ◌||◌, IfOk, IsOkUnless, Some};
ghost use Rattle.roam_pane_subscribers.specs.Queries.{AreFreshQueries, query_news, is_queries_line};

use roam_acts::limits::PANES_END;
use roam_cells::Fault;
use roam_pane_protocol::{QueryList, push_queries};
use roam_pane_sockets::Panes;
use std::alloc::Global;

/// The questions that a subscriber has got. The last questions of each program are kept once, in the panes' metadata, and lent for each
/// subscriber.
#[derive(Drop)]
pub(crate) struct QueriesTold {
    // True if it asked for them.
    is_asked: bool,
    // The count of questions when it got some last, or when it came. It gets none of those.
    told: Option<QueryList>,
}

/// Returns true if a line asks for questions.
pub(crate) fn is_queries(line: &[u8]) -> bool
    ensures asks { result ≡ is_queries_line line.now }
{
    line == b"queries".as_slice()
}

/// The text of those that are new. Refuses want of memory.
pub(crate) fn query_news(
    alloc: Global,
    told: &QueryList,
    now: &QueryList,
    panes: &Panes,
) -> Result<Vec<u8>, Fault>
    ensures news { IfOk result (λ text. text.items ≡ query_news 9 told.now now.now panes.now.all.items) }
    ensures fault { IsOkUnless result Fault.OutOfMemory }
{
    let mut text = Vec::new(alloc);
    for pane in 1..PANES_END {
        let was = told.get(pane);
        let is = now.get(pane);
        push_queries(alloc, &mut text, pane, was, is, panes.queries(pane))?;
    }
    Ok(text)
}

impl QueriesTold {
    /// Nothing was asked for.
    pub(crate) fn new() -> QueriesTold
        ensures fresh { AreFreshQueries result }
    {
        QueriesTold {
            is_asked: false,
            told: None,
        }
    }

    /// Notes the request if the line asks for questions.
    pub(crate) fn ask(&mut self, line: &[u8])
        ensures asked { self.new ≡ record self.old { is_asked = self.old.is_asked || is_queries_line line.now } }
    {
        self.is_asked = self.is_asked || is_queries(line);
    }

    /// Returns true if questions were asked for.
    pub(crate) fn is_asked(&self) -> bool
        ensures asked { result ≡ self.now.is_asked }
    {
        self.is_asked
    }

    /// Returns the count of questions when the subscriber got some last; `None` before that.
    pub(crate) fn told(&self) -> Option<QueryList>
        ensures told { result ≡ self.now.told }
    {
        self.told
    }

    /// Notes the count of questions so far: the subscriber gets none of these any more.
    pub(crate) fn note(&mut self, now: &QueryList)
        ensures noted { self.new ≡ record self.old { told = Some now.now } }
    {
        self.told = Some(*now);
    }
}
