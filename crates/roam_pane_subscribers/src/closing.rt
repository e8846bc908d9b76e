//! The server's own client instance, which closes a pane if a subscriber asks for it.
ghost use Rattle.std.specs.Prelude.{◌≡◌, ◌≤◌, ℕ, true, length, None, IfSome, IfOk, IsTrue, ◌↔◌, OnOk, OnErr};
ghost use Rattle.roam_stream_framing.specs.Frames.{IsFilled};
ghost use Rattle.roam_pane_protocol.specs.Closes.{IsPane};
ghost use Rattle.roam_hub.specs.Clients.{TypesAll};
ghost use Rattle.roam_pane_subscribers.specs.Asking.{Settles};
ghost use Rattle.roam_pane_subscribers.specs.Closing.{Closes, HearsAnswer, IsStartOf, IsThere, TypesClose, closing_acts};

use roam_acts::Act;
use roam_cells::Fault;
use roam_hub::{Addr, Client};
use roam_pane_protocol::{Close, PaneList};
use std::alloc::Global;

/// Where the server's own instance is: no stream of a client instance has this address, since their numbers begin with 1.
pub const OWN: Addr = Addr {
    host: [0; 4],
    port: 0,
};

/// The server's own instance, made at its first use. The first receive of the next turn takes its one datagram. A close is typed by an
/// instance, not by a call of its own. So the server still only takes turns, and the clauses of turns cover the close.
#[derive(Drop)]
pub struct Closer {
    session: u64,
    // The id of the instance that is made next.
    id: u64,
    client: Option<Client>,
    datagram: Option<Vec<u8>>,
    // The making of a pane that the datagram closes.
    closing: Option<(u8, u64)>,
}

// Returns true if a number is that of a pane.
fn is_pane(pane: u8) -> bool
    ensures pane { IsTrue result ↔ IsPane pane }
{
    1 <= pane && pane <= 9
}

// Returns true if this generation of a pane is there.
fn is_there(panes: &PaneList, pane: u8, generation: u64) -> bool
    requires pane { IsPane pane }
    ensures there { IsThere panes.now pane generation → result ≡ true }
{
    match panes.get(pane) {
        Some(listed) => listed.generation == generation,
        None => false,
    }
}

// Types the acts that close a pane and focus another, in one instruction. `NoPane` if a number isn't that of a pane.
fn type_close(client: &mut Client, pane: u8, after: Option<u8>) -> Result<(), Fault>
    ensures typed { OnOk result (TypesAll client.old (closing_acts pane after) result client.new) }
    ensures err { OnErr result (client.new ≡ client.old) }
{
    if !is_pane(pane) {
        return Err(Fault::NoPane);
    }
    match after {
        None => client.typed_all(&[Act::Focus(pane), Act::Close]),
        Some(after) if is_pane(after) => {
            client.typed_all(&[Act::Focus(pane), Act::Close, Act::Focus(after)])
        }
        Some(_) => Err(Fault::NoPane),
    }
}

// Types the acts that close a pane, and answers the datagrams that the instance sends then.
fn send_close(
    alloc: Global,
    client: &mut Client,
    pane: u8,
    after: Option<u8>,
    now: u64,
) -> Result<Vec<Vec<u8>>, Fault>
    ensures types { IfOk result (λ texts. TypesClose client.old client.new pane after now texts) }
{
    type_close(client, pane, after)?;
    client.tick(alloc, now)
}

impl Closer {
    /// No instance is made yet.
    pub fn new(session: u64, id: u64) -> Closer
        ensures none { (result.client ≡ None) × (result.datagram ≡ None) × (result.closing ≡ None) }
        ensures ids { (result.session ≡ session) × (result.id ≡ id) }
    {
        Closer {
            session,
            id,
            client: None,
            datagram: None,
            closing: None,
        }
    }

    /// Returns true if no close is in progress.
    pub fn is_free(&self) -> bool
        ensures free { IsTrue result ↔ (self.now.closing ≡ None) }
    {
        self.closing.is_none()
    }

    // Returns the instance, and makes it if there is none.
    fn taken(&mut self, alloc: Global) -> Result<Client, Fault>
        ensures start { IfOk result (λ start. IsStartOf self.old.client self.old self.new.id start) }
        ensures others { self.new ≡ record self.old { client = None; id = self.new.id } }
    {
        match self.client.take() {
            Some(client) => Ok(client),
            None => {
                let client = Client::new(alloc, self.session, self.id)?;
                self.id = self.id.wrapping_add(1);
                Ok(client)
            }
        }
    }

    /// Makes the datagram that closes a pane, and then focuses another if one is named. `OutOfMemory`, and the errors of an instance. After
    /// an error the next close gets a new instance.
    pub(crate) fn close(
        &mut self,
        alloc: Global,
        close: &Close,
        after: Option<u8>,
        now: u64,
    ) -> Result<(), Fault>
        ensures closes { OnOk result (Closes self.old self.new close.now.pane close.now.generation after now) }
        ensures err { OnErr result ((self.new.closing ≡ self.old.closing) × (self.new.datagram ≡ self.old.datagram)) }
        ensures session { self.new.session ≡ self.old.session }
    {
        let mut client = self.taken(alloc)?;
        let mut datagrams = send_close(alloc, &mut client, close.pane, after, now)?;
        self.datagram = datagrams.pop();
        self.closing = Some((close.pane, close.generation));
        self.client = Some(client);
        Ok(())
    }

    /// The datagram that waits: how many bytes of `buf` it fills from the front.
    pub fn receive(&mut self, buf: &mut [u8]) -> Option<usize>
        ensures within { IfSome result (λ n. n ≤ length buf.new) }
        ensures none { result ≡ None → self.old.datagram ≡ None }
        ensures some { self.old.datagram ≡ None → result ≡ None }
        ensures given { IfSome result (λ n. IfSome self.old.datagram (λ datagram. IsFilled datagram.items n buf.new)) }
        ensures once { self.new ≡ record self.old { datagram = None } }
    {
        let datagram = self.datagram.take()?;
        let len = datagram.len().min(buf.len());
        buf.split_at_mut(len)
            .0
            .copy_from_slice(datagram.as_slice().split_at(len).0);
        Some(len)
    }

    /// An answer came from the server: it is heard while acts are unacknowledged.
    pub fn hear(&mut self, alloc: Global, bytes: &[u8], now: u64)
        ensures hears { HearsAnswer self.old.client self.old self.new bytes.now now }
    {
        if let Some(client) = &mut self.client {
            if !client.is_settled() {
                // A refused datagram is lost.
                let _ = client.datagram(alloc, bytes, now);
            }
        }
    }

    /// Settles the close after a turn took the datagram, given the panes then. If the pane is still there, memory was refused. The instance
    /// is then dropped, so that its acts can't close another pane later.
    pub(crate) fn settle(&mut self, panes: &PaneList)
        ensures settles { Settles panes.now self.old self.new }
    {
        if self.datagram.is_some() {
            return;
        }
        if let Some((pane, generation)) = self.closing {
            self.closing = None;
            if is_pane(pane) && is_there(panes, pane, generation) {
                self.client = None;
            }
        }
    }
}
