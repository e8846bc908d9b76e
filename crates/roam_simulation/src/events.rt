//! The events of a world, and their replies.
ghost use Rattle.roam_model.specs.Laws.{IsEvent};
ghost use Rattle.roam_simulation.specs.Events.{IsHandedIn, event_of};

use roam_acts::{Act, Key};
use roam_cells::Fault;
use roam_hub::{Addr, Heard, Stop};
use roam_wire::Version;

/// One thing that happens: one whole call of the server or of a client instance. Slots are 0 to 7, moments are milliseconds.
#[derive(Debug, Drop)]
pub enum Event {
    /// Bytes come from the program of a pane.
    PaneBytes(u8, Vec<u8>),

    /// An act is typed at the instance in a slot.
    Typed(u8, Act),

    /// The server ticks at a moment.
    ServerTick(u64),

    /// The instance in a slot ticks at a moment.
    ClientTick(u8, u64),

    /// The datagram of a number, from 1, comes to the server from an address at a moment.
    ToServer(u64, Addr, u64),

    /// The datagram of a number comes to the instance in a slot at a moment.
    ToClient(u8, u64, u64),

    /// A client of a version starts in a slot, under an id, and only watches or not.
    Start(u8, u64, Version, bool),

    /// So many bytes go to the program of a pane.
    Drained(u8, u64),
}

impl Event {
    // Facts from the types of its parts: a character that is typed is a Unicode scalar value, and an id has 64 bits.
    pub(crate) fn facts(&self)
        requires handed_in { IsHandedIn self.now }
        ensures event { IsEvent (event_of self.now) }
    {
        match self {
            Event::Typed(_, Act::Key(Key::Char(c))) => {
                let _scalar = *c as u32;
            }
            Event::Start(_, id, _, _) => {
                let _id = *id;
            }
            _ => {}
        }
    }
}

/// How it is answered.
#[derive(Clone, Copy, Debug, PartialEq, Eq)]
pub enum Reply {
    Done,

    /// The number of the first datagram that was sent, or of the next one if none was; and how many were sent.
    Sent(u64, u64),

    /// So many acts were taken.
    Taken(usize),

    /// The kind of a datagram to a client instance.
    Heard(Heard),

    /// There is no such instance, datagram or output, the id was used, or an instance would watch in version 1: nothing is done.
    Refused,

    /// The call was refused.
    Fault(Fault),

    /// A datagram to the server was refused, after so many of its acts were taken.
    Stopped(Stop),
}
