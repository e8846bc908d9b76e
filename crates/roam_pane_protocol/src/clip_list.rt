//! How many texts for the clipboard the programs of a session's panes have said.
ghost use Rattle.std.specs.Prelude.{◌≡◌, ◌<◌, slice_set};
ghost use Rattle.roam_pane_protocol.specs.Clips.{clips_at, clips_in, no_clips};

/// How many texts for the clipboard the program of a pane has said.
#[derive(Clone, Copy)]
pub struct ClipPane {
    /// Which making of the pane's number it is, counted from 1.
    pub generation: u64,
    /// How many texts it said.
    pub clips: u64,
}

// Returns the known count of a generation of a pane: 0 if another one is known.
pub(crate) fn clips_in(generation: u64, known: Option<ClipPane>) -> u64
    ensures known { result ≡ clips_in generation known }
{
    match known {
        Some(known) if known.generation == generation => known.clips,
        _ => 0,
    }
}

/// How many texts for the clipboard the programs of a session's panes, 1 to 9, have said.
#[derive(Clone, Copy)]
pub struct ClipList {
    // By the panes' numbers; none is 0.
    all: [Option<ClipPane>; 10],
}

impl ClipList {
    /// No pane is there.
    pub fn unknown() -> ClipList
        ensures nothing { result ≡ no_clips }
    {
        ClipList { all: [None; 10] }
    }

    /// Puts how many texts the program of a pane has said.
    pub fn set(&mut self, pane: u8, known: Option<ClipPane>)
        requires pane { pane < 10 }
        ensures set { self.new.all ≡ slice_set self.old.all pane known }
    {
        self.all[usize::from(pane)] = known;
    }

    /// Returns the number of clipboard texts of a pane's program, if the pane is there.
    pub fn get(&self, pane: u8) -> Option<ClipPane>
        requires pane { pane < 10 }
        ensures pane { result ≡ clips_at self.now pane }
    {
        self.all[usize::from(pane)]
    }
}
