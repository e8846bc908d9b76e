//! The list of a session's panes.
ghost use Rattle.std.specs.Prelude.{◌≡◌, ◌<◌, Some, slice_set};
ghost use Rattle.roam_pane_protocol.specs.Known.{nothing, pane_at};

/// A pane that is there: which making of its number it is, and which rows and columns of the session's screen it has.
#[derive(Clone, Copy, Debug, PartialEq, Eq)]
pub struct ListedPane {
    /// Which making of the pane's number it is, counted from 1.
    pub generation: u64,
    /// Its first row, from 1.
    pub row: u16,
    /// Its first column, from 1.
    pub col: u16,
    /// How many rows it has.
    pub rows: u16,
    /// How many columns it has.
    pub cols: u16,
}

/// The list of a session: its panes, 1 to 9, the focus, and how many client instances are known.
#[derive(Clone, Copy)]
pub struct PaneList {
    // By the panes' numbers; none is 0.
    all: [Option<ListedPane>; 10],
    // 0 if it is unknown.
    focus: u8,
    // `None` if it is unknown.
    clients: Option<u16>,
    watchers: Option<u16>,
}

impl PaneList {
    /// Nothing is known: no pane is there, none is in focus, and no number of client instances is known.
    pub fn unknown() -> PaneList
        ensures nothing { result ≡ nothing }
    {
        PaneList {
            all: [None; 10],
            focus: 0,
            clients: None,
            watchers: None,
        }
    }

    /// Sets the entry of a pane.
    pub fn set(&mut self, pane: u8, known: Option<ListedPane>)
        requires pane { pane < 10 }
        ensures set { self.new ≡ record self.old { all = slice_set self.old.all pane known } }
    {
        self.all[usize::from(pane)] = known;
    }

    /// Puts the pane that is in focus.
    pub fn set_focus(&mut self, pane: u8)
        ensures focus { self.new ≡ record self.old { focus = pane } }
    {
        self.focus = pane;
    }

    /// Puts how many client instances that edit are kept.
    pub fn set_clients(&mut self, count: u16)
        ensures starts { self.new ≡ record self.old { clients = Some count } }
    {
        self.clients = Some(count);
    }

    /// Puts how many client instances that watch are kept.
    pub fn set_watchers(&mut self, count: u16)
        ensures watchers { self.new ≡ record self.old { watchers = Some count } }
    {
        self.watchers = Some(count);
    }

    /// Returns the entry of a pane, if it is there.
    pub fn get(&self, pane: u8) -> Option<ListedPane>
        requires pane { pane < 10 }
        ensures pane { result ≡ pane_at self.now pane }
    {
        self.all[usize::from(pane)]
    }

    /// Returns the pane in focus, 0 if that is unknown.
    pub fn focus(&self) -> u8
        ensures focus { result ≡ self.now.focus }
    {
        self.focus
    }

    /// Returns how many client instances that type are known, if the list has that.
    pub fn clients(&self) -> Option<u16>
        ensures starts { result ≡ self.now.clients }
    {
        self.clients
    }

    /// Returns how many read-only client instances are known, if the list has that.
    pub fn watchers(&self) -> Option<u16>
        ensures watchers { result ≡ self.now.watchers }
    {
        self.watchers
    }
}
