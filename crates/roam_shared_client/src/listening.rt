//! Ports that know when something was heard last.
ghost use Rattle.std.specs.Prelude.{◌≡◌, ◌≤◌, ◌∷◌, [], None, Some, IfSome, is_some, length, false, true};
ghost use Rattle.std.specs.Io.KnownBytes.{Keeps};
ghost use Rattle.roam_shared_client.specs.Listening.{heard_after, heard_by};
ghost use Rattle.roam_turns.specs.Calls.{Tells, received_call};
ghost use Rattle.roam_turns.specs.Calls.DoorCall.{Came, HasEnded, Rested, Slept};
ghost use Rattle.roam_turns.specs.Calls.PortCall.{Asked, Now};

use crate::running::Door;
use roam_hub::Addr;
use roam_outer_terminal::{End, Silence};
use roam_turns::Ports;

/// The ports of a client instance, which know the moment and when something was heard last. Each call goes to the ports beneath; nothing is
/// shown there, since an instance's terminals are painted by themselves.
#[derive(Drop)]
pub struct Listening<P> {
    ports: P,
    silence: Silence,
    // True if the instance slept since the last moment. It heard nothing meanwhile, so silence counts from the next moment on.
    has_slept: bool,
}

impl<P: Ports + Drop> Listening<P> {
    /// Nothing was heard yet.
    pub fn new(ports: P) -> Listening<P>
        ensures ports { result.ports ≡ ports }
        ensures silence { result.silence ≡ record { moment = 0; heard = None; told = None } }
    {
        Listening {
            ports,
            silence: Silence::new(),
            has_slept: false,
        }
    }

    /// The ports beneath.
    pub fn ports(&mut self) -> &mut P {
        &mut self.ports
    }

    /// When something was heard last.
    pub fn silence(&self) -> Silence
        ensures silence { result ≡ self.now.silence }
    {
        self.silence
    }
}

impl<P: Ports + Drop> Listening<P> {
    // Returns the stream of a new terminal, if there is one.
    pub(crate) fn next<S>(&mut self) -> Option<S>
    where
        P: Door<S>,
        ensures tells { Tells (P.told self.old.ports) (P.told self.new.ports) (Asked (Came (is_some result)) ∷ []) }
        ensures others { self.new ≡ record self.old { ports = self.new.ports } }
    {
        self.ports.next()
    }

    // Returns true if the server is known to have ended.
    pub(crate) fn has_ended<S>(&mut self) -> bool
    where
        P: Door<S>,
        ensures tells { Tells (P.told self.old.ports) (P.told self.new.ports) (Asked (HasEnded result) ∷ []) }
        ensures others { self.new ≡ record self.old { ports = self.new.ports } }
    {
        self.ports.has_ended()
    }

    // Waits until something comes or is due.
    pub(crate) fn rest<S>(&mut self, longest: u64, due: Option<u64>)
    where
        P: Door<S>,
        ensures tells { Tells (P.told self.old.ports) (P.told self.new.ports) (Asked (Rested longest due) ∷ []) }
        ensures others { self.new ≡ record self.old { ports = self.new.ports } }
    {
        self.ports.rest(longest, due);
    }

    // Waits until a terminal comes, the server has news, or it has ended.
    pub(crate) fn sleep<S>(&mut self, longest: u64, due: Option<u64>)
    where
        P: Door<S>,
        ensures tells { Tells (P.told self.old.ports) (P.told self.new.ports) (Asked (Slept longest) ∷ []) }
        ensures others { self.new ≡ record self.old { ports = self.new.ports; has_slept = true } }
    {
        self.ports.sleep(longest, due);
        self.has_slept = true;
    }
}

// Counts a silence from its moment on, if the instance slept until then, and heard something before.
fn hear_after(silence: &mut Silence, has_slept: bool)
    ensures heard { silence.new ≡ heard_after has_slept silence.old }
{
    if has_slept && silence.end() != End::Unheard {
        silence.hear();
    }
}

impl<P: Ports + Drop> Ports for Listening<P> {
    ghost told = { λ p. P.told p.ports };

    ghost written = { λ p. P.written p.ports };

    ghost notice = { λ p. P.notice p.ports };

    fn now(&mut self) -> u64
        ensures written { Keeps (P.written self.old.ports) (P.written self.new.ports) }
        ensures notice { P.notice self.new.ports ≡ P.notice self.old.ports }
        ensures tells { Tells (P.told self.old.ports) (P.told self.new.ports) (Now result ∷ []) }
        // A silence counts from the last moment at which something was heard, or from the end of a sleep.
        ensures silence { self.new.silence ≡ heard_after self.old.has_slept (record self.old.silence { moment = result }) }
        ensures awake { self.new.has_slept ≡ false }
    {
        let moment = self.ports.now();
        self.silence.at(moment);
        hear_after(&mut self.silence, self.has_slept);
        self.has_slept = false;
        moment
    }

    fn receive(&mut self, buf: &mut [u8]) -> Option<(Addr, usize)>
        ensures within { IfSome result (λ r. r.1 ≤ length buf.new) }
        ensures written { Keeps (P.written self.old.ports) (P.written self.new.ports) }
        ensures notice { P.notice self.new.ports ≡ P.notice self.old.ports }
        ensures tells { Tells (P.told self.old.ports) (P.told self.new.ports) (received_call (length buf.old) result buf.new ∷ []) }
        ensures silence { self.new.silence ≡ heard_by (is_some result) self.old.silence }
    {
        let came = self.ports.receive(buf);
        if came.is_some() {
            self.silence.hear();
        }
        came
    }

    fn send(&mut self, to: Addr, bytes: &[u8]) -> bool {
        self.ports.send(to, bytes)
    }

    fn pane_generations(&mut self, pane: u8, generation: Option<u64>) {
        self.ports.pane_generations(pane, generation);
    }

    fn pane_in(&mut self, pane: u8, buf: &mut [u8]) -> Option<usize> {
        self.ports.pane_in(pane, buf)
    }

    fn pane_out(&mut self, pane: u8, bytes: &[u8]) -> usize {
        self.ports.pane_out(pane, bytes)
    }

    fn show(&mut self, bytes: &[u8]) -> bool {
        self.ports.show(bytes)
    }
}
