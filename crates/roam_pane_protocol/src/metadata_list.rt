//! The metadata of a session's panes, as known.
ghost use Rattle.std.specs.Prelude.{◌≡◌, ◌<◌, slice_set};
ghost use Rattle.roam_pane_protocol.specs.MetadataLists.{before_told, metadata_at, in_generation, nothing_metadata, without_new_bells};

use roam_pane_metadata::{Settings, fresh_settings};

/// The metadata of a pane: the settings of its program, its count of bells, and its count of titles set and removed.
#[derive(Clone, Copy)]
pub struct MetadataPane {
    /// Which making of the pane's number it is, counted from 1.
    pub generation: u64,
    /// The settings of its program, and its count of bells.
    pub settings: Settings,
    /// How many titles it said, and how many it took back.
    pub titles: u64,
}

impl MetadataPane {
    /// Returns the metadata that a new subscriber is assumed to know: it gets no bell that rang before.
    pub fn before_it_was_told(&self) -> MetadataPane
        ensures before { result ≡ before_told self.now }
    {
        let mut settings = fresh_settings();
        settings.bells = self.settings.bells;
        MetadataPane {
            generation: self.generation,
            settings,
            titles: 0,
        }
    }

    /// The same with no more bells than were known of this generation before.
    pub fn without_new_bells(&self, known: Option<MetadataPane>) -> MetadataPane
        ensures same { result ≡ without_new_bells known self.now }
    {
        let mut settings = self.settings;
        settings.bells = in_generation(self.generation, known).settings.bells;
        MetadataPane {
            generation: self.generation,
            settings,
            titles: self.titles,
        }
    }
}

/// Returns the known metadata of a generation of a pane: that of a new program if another one is known.
pub fn in_generation(generation: u64, known: Option<MetadataPane>) -> MetadataPane
    ensures known { result ≡ in_generation generation known }
{
    match known {
        Some(known) if known.generation == generation => known,
        _ => MetadataPane {
            generation,
            settings: fresh_settings(),
            titles: 0,
        },
    }
}

/// The metadata of a session's panes, 1 to 9.
#[derive(Clone, Copy)]
pub struct MetadataList {
    // By the panes' numbers; none is 0.
    all: [Option<MetadataPane>; 10],
}

impl MetadataList {
    /// No pane is there.
    pub fn unknown() -> MetadataList
        ensures nothing { result ≡ nothing_metadata }
    {
        MetadataList { all: [None; 10] }
    }

    /// Sets the metadata of a pane.
    pub fn set(&mut self, pane: u8, known: Option<MetadataPane>)
        requires pane { pane < 10 }
        ensures set { self.new.all ≡ slice_set self.old.all pane known }
    {
        self.all[usize::from(pane)] = known;
    }

    /// Returns the metadata of a pane, if it is there.
    pub fn get(&self, pane: u8) -> Option<MetadataPane>
        requires pane { pane < 10 }
        ensures pane { result ≡ metadata_at self.now pane }
    {
        self.all[usize::from(pane)]
    }
}
