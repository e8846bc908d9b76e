//! How many questions the programs of a session's panes have asked of their terminals.
ghost use Rattle.std.specs.Prelude.{◌≡◌, ◌<◌, slice_set};
ghost use Rattle.roam_pane_protocol.specs.Queries.{asked_in, queries_at, no_queries};

/// How many questions the program of a pane has asked.
#[derive(Clone, Copy)]
pub struct QueryPane {
    /// Which making of the pane's number it is, counted from 1.
    pub generation: u64,
    /// How many questions it asked.
    pub asked: u64,
}

// Returns the known count of a generation of a pane: 0 if another one is known.
pub(crate) fn asked_in(generation: u64, known: Option<QueryPane>) -> u64
    ensures known { result ≡ asked_in generation known }
{
    match known {
        Some(known) if known.generation == generation => known.asked,
        _ => 0,
    }
}

/// How many questions the programs of a session's panes, 1 to 9, have asked.
#[derive(Clone, Copy)]
pub struct QueryList {
    // By the panes' numbers; none is 0.
    all: [Option<QueryPane>; 10],
}

impl QueryList {
    /// No pane is there.
    pub fn unknown() -> QueryList
        ensures nothing { result ≡ no_queries }
    {
        QueryList { all: [None; 10] }
    }

    /// Puts how many questions the program of a pane has asked.
    pub fn set(&mut self, pane: u8, known: Option<QueryPane>)
        requires pane { pane < 10 }
        ensures set { self.new.all ≡ slice_set self.old.all pane known }
    {
        self.all[usize::from(pane)] = known;
    }

    /// Returns the number of questions of a pane's program, if the pane is there.
    pub fn get(&self, pane: u8) -> Option<QueryPane>
        requires pane { pane < 10 }
        ensures pane { result ≡ queries_at self.now pane }
    {
        self.all[usize::from(pane)]
    }
}
