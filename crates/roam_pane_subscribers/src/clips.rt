//! The clips that a subscriber has got.
ghost use Rattle.std.specs.Prelude.{◌≡◌, ◌<◌, ◌||◌, IfOk, IsOkUnless, Some};
ghost use Rattle.roam_pane_subscribers.specs.Clips.{AreFreshClips, clip_news, is_clips_line};

use roam_acts::limits::PANES_END;
use roam_cells::Fault;
use roam_pane_protocol::{ClipList, push_clip};
use roam_pane_sockets::Panes;
use std::alloc::Global;

/// The clips that a subscriber has got. The texts are kept once, in the panes' metadata, and lent for each subscriber.
#[derive(Drop)]
pub(crate) struct ClipsTold {
    // True if it asked.
    is_asked: bool,
    // The count of clips when it got some last, or when it came. It gets none of those.
    told: Option<ClipList>,
}

/// Returns true if a line asks for clips.
pub(crate) fn is_clips(line: &[u8]) -> bool
    ensures clips { result ≡ is_clips_line line.now }
{
    line == b"clipboard".as_slice()
}

/// The text of those that are new. Refuses want of memory.
pub(crate) fn clip_news(
    alloc: Global,
    told: &ClipList,
    now: &ClipList,
    panes: &Panes,
) -> Result<Vec<u8>, Fault>
    ensures news { IfOk result (λ text. text.items ≡ clip_news 9 told.now now.now panes.now.all.items) }
    ensures fault { IsOkUnless result Fault.OutOfMemory }
{
    let mut text = Vec::new(alloc);
    for pane in 1..PANES_END {
        let was = told.get(pane);
        let is = now.get(pane);
        push_clip(alloc, &mut text, pane, was, is, panes.clip(pane))?;
    }
    Ok(text)
}

impl ClipsTold {
    /// Nothing was asked for.
    pub(crate) fn new() -> ClipsTold
        ensures fresh { AreFreshClips result }
    {
        ClipsTold {
            is_asked: false,
            told: None,
        }
    }

    /// Notes the request if the line asks for clips.
    pub(crate) fn ask(&mut self, line: &[u8])
        ensures asked { self.new ≡ record self.old { is_asked = self.old.is_asked || is_clips_line line.now } }
    {
        self.is_asked = self.is_asked || is_clips(line);
    }

    /// Returns true if clips were asked for.
    pub(crate) fn is_asked(&self) -> bool
        ensures asked { result ≡ self.now.is_asked }
    {
        self.is_asked
    }

    /// Returns the count of clips when the subscriber got some last; `None` before that.
    pub(crate) fn told(&self) -> Option<ClipList>
        ensures told { result ≡ self.now.told }
    {
        self.told
    }

    /// Notes the count of clips so far: the subscriber gets none of these any more.
    pub(crate) fn note(&mut self, now: &ClipList)
        ensures noted { self.new ≡ record self.old { told = Some now.now } }
    {
        self.told = Some(*now);
    }
}
