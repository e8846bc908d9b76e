//! The times at which metadata and clips are sent.
ghost use Rattle.std.specs.Prelude.{◌≡◌, None};
ghost use Rattle.roam_pane_protocol.specs.MetadataLists.{nothing_metadata};
ghost use Rattle.roam_pane_sockets.specs.Moments.{after, is_time};
ghost use Rattle.roam_serve.specs.Tellings.{has_rung, rang_in, times_clipped, times_told};

use roam_acts::limits::PANES_END;
use roam_pane_protocol::{MetadataList, MetadataPane, in_generation};
use roam_pane_sockets::{after, is_time};

/// The least milliseconds between two sendings of metadata.
const TELLING: u64 = 20;

/// The least milliseconds between two bells.
const RINGING: u64 = 1000;

/// The least milliseconds between two sendings of clips.
const CLIPPING: u64 = 1000;

/// The metadata that was sent last, its time, and the time of the next look.
#[derive(Drop)]
pub(crate) struct MetadataEventTimes {
    shown: MetadataList,
    told: Option<u64>,
    // The last time at which a bell was reported.
    rang: Option<u64>,
    due: Option<u64>,
}

// Returns true if a bell rang in an open pane.
fn rang_in(shown: Option<MetadataPane>, now: Option<MetadataPane>) -> bool
    ensures rang { result ≡ rang_in shown now }
{
    match now {
        None => false,
        Some(now) => in_generation(now.generation, shown).settings.bells != now.settings.bells,
    }
}

// Returns true if a bell rang in one of the panes.
fn has_rung(shown: &MetadataList, now: &MetadataList) -> bool
    ensures rung { result ≡ has_rung 9 shown.now now.now }
{
    let mut rung = false;
    for pane in 1..PANES_END {
        let was = shown.get(pane);
        let is = now.get(pane);
        let rang = rang_in(was, is);
        rung = rung || rang;
    }
    rung
}

impl MetadataEventTimes {
    /// Returns times before anything was sent.
    pub(crate) fn new() -> MetadataEventTimes
        ensures none { result ≡ record { shown = nothing_metadata; told = None; rang = None; due = None } }
    {
        MetadataEventTimes {
            shown: MetadataList::unknown(),
            told: None,
            rang: None,
            due: None,
        }
    }

    /// Returns true if metadata may be sent at this moment.
    pub(crate) fn is_time(&self, now: u64) -> bool
        ensures time { result ≡ is_time self.now.told now 20 }
    {
        is_time(self.told, now, TELLING)
    }

    /// Returns true if a bell may be reported at this moment.
    pub(crate) fn may_ring(&self, now: u64) -> bool
        ensures time { result ≡ is_time self.now.rang now 1000 }
    {
        is_time(self.rang, now, RINGING)
    }

    /// Returns the metadata that was sent last.
    pub(crate) fn shown(&self) -> &MetadataList
        ensures shown { result.now ≡ self.now.shown }
    {
        &self.shown
    }

    /// Returns the time of the next look, if there is one.
    pub(crate) fn due(&self) -> Option<u64>
        ensures due { result ≡ self.now.due }
    {
        self.due
    }

    /// Nobody asks for it.
    pub(crate) fn rest(&mut self)
        ensures rests { self.new ≡ record self.old { due = None } }
    {
        self.due = None;
    }

    /// Sets the next look to the time at which metadata may be sent.
    pub(crate) fn wait(&mut self)
        ensures waits { self.new ≡ record self.old { due = after self.old.told 20 } }
    {
        self.due = after(self.told, TELLING);
    }

    /// Notes that this was sent at a moment. If no bell could be reported, the next look is once one may be.
    pub(crate) fn tells(&mut self, now: &MetadataList, moment: u64)
        ensures told { self.new ≡ times_told now.now moment self.old }
    {
        let may_ring = self.may_ring(moment);
        self.rang = if may_ring && has_rung(&self.shown, now) {
            Some(moment)
        } else {
            self.rang
        };
        self.due = if may_ring {
            None
        } else {
            after(self.rang, RINGING)
        };
        self.shown = *now;
        self.told = Some(moment);
    }
}

/// The time at which a subscriber got a clip last, and the time of the next look.
#[derive(Drop)]
pub(crate) struct ClipTimes {
    told: Option<u64>,
    due: Option<u64>,
}

impl ClipTimes {
    /// Returns times before any clip was sent.
    pub(crate) fn new() -> ClipTimes
        ensures none { result ≡ record { told = None; due = None } }
    {
        ClipTimes {
            told: None,
            due: None,
        }
    }

    /// Returns true if clips may be sent at this moment.
    pub(crate) fn is_time(&self, now: u64) -> bool
        ensures time { result ≡ is_time self.now.told now 1000 }
    {
        is_time(self.told, now, CLIPPING)
    }

    /// Returns the time of the next look, if there is one.
    pub(crate) fn due(&self) -> Option<u64>
        ensures due { result ≡ self.now.due }
    {
        self.due
    }

    /// Nobody wants them.
    pub(crate) fn rest(&mut self)
        ensures rests { self.new ≡ record self.old { due = None } }
    {
        self.due = None;
    }

    /// Notes whether clips were sent at a moment. If none could be, the next look is once some may be.
    pub(crate) fn tells(&mut self, any: bool, moment: u64)
        ensures tells { self.new ≡ times_clipped any moment self.old }
    {
        self.due = if self.is_time(moment) {
            None
        } else {
            after(self.told, CLIPPING)
        };
        if any {
            self.told = Some(moment);
        }
    }
}
