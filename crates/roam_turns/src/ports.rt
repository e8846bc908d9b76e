//! The interface of a turn to everything but its core.
ghost use Rattle.std.specs.Prelude.{◌≡◌, ◌≤◌, ℕ, length, List, [], ◌∷◌, Option, None, IfSome, true};
ghost use Rattle.std.specs.Io.KnownBytes.{Appends, Keeps};
ghost use Rattle.roam_turns.specs.Calls.{PortCall, Tells, received_call, pane_gave};
ghost use Rattle.roam_turns.specs.Calls.PortCall.{Now, Sent, PaneGenerations, PaneTook, Showed};

use roam_hub::Addr;

/// The clock, the network, the programs of the panes and the outer terminal. Each call returns at once. A send that fails is a loss, and a
/// receive that fails brings nothing.
pub trait Ports {
    // The calls made so far, if they are recorded.
    ghost told: { Self → Option (List PortCall) } = { λ _. None };

    // The text written to the outer terminal, if that is known.
    ghost written: { Self → Option (List ℕ) } = { λ _. None };

    // The seconds of silence in the notice that the program itself shows on the outer terminal, if it does: no call of a turn changes that.
    ghost notice: { Self → Option ℕ } = { λ _. None };

    /// The moment, in milliseconds.
    fn now(&mut self) -> u64
        ensures written { Keeps (written self.old) (written self.new) }
        ensures notice { notice self.new ≡ notice self.old }
        ensures tells { Tells (told self.old) (told self.new) (Now result ∷ []) };

    /// Returns a datagram that came: its source, and how many bytes of `buf` it fills from the front.
    fn receive(&mut self, buf: &mut [u8]) -> Option<(Addr, usize)>
        ensures within { IfSome result (λ r. r.1 ≤ length buf.new) }
        ensures written { Keeps (written self.old) (written self.new) }
        ensures notice { notice self.new ≡ notice self.old }
        ensures tells { Tells (told self.old) (told self.new) (received_call (length buf.old) result buf.new ∷ []) };

    /// Sends a datagram, and returns true if it went.
    fn send(&mut self, to: Addr, bytes: &[u8]) -> bool
        ensures written { Keeps (written self.old) (written self.new) }
        ensures notice { notice self.new ≡ notice self.old }
        ensures tells { Tells (told self.old) (told self.new) (Sent to bytes.now result ∷ []) };

    /// Takes the generation of a pane, 1 to 9, or that none is there: a program of another generation is disconnected, and nothing more of
    /// it is read.
    fn pane_generations(&mut self, pane: u8, generation: Option<u64>)
        ensures written { Keeps (written self.old) (written self.new) }
        ensures notice { notice self.new ≡ notice self.old }
        ensures tells { Tells (told self.old) (told self.new) (PaneGenerations pane generation ∷ []) };

    /// Bytes that the program of pane 1 to 9 wrote: how many bytes of `buf` they fill from the front.
    fn pane_in(&mut self, pane: u8, buf: &mut [u8]) -> Option<usize>
        ensures within { IfSome result (λ n. n ≤ length buf.new) }
        ensures written { Keeps (written self.old) (written self.new) }
        ensures notice { notice self.new ≡ notice self.old }
        ensures tells { Tells (told self.old) (told self.new) (pane_gave pane (length buf.old) result buf.new ∷ []) };

    /// Passes bytes to the program of pane 1 to 9, and returns how many it took from the front; 0 if it takes none.
    fn pane_out(&mut self, pane: u8, bytes: &[u8]) -> usize
        ensures within { result ≤ length bytes.now }
        ensures written { Keeps (written self.old) (written self.new) }
        ensures notice { notice self.new ≡ notice self.old }
        ensures tells { Tells (told self.old) (told self.new) (PaneTook pane bytes.now result ∷ []) };

    /// Writes to the outer terminal, and returns true if all was written.
    fn show(&mut self, bytes: &[u8]) -> bool
        ensures written { result ≡ true → Appends (written self.old) (written self.new) bytes.now }
        ensures notice { notice self.new ≡ notice self.old }
        ensures tells { Tells (told self.old) (told self.new) (Showed bytes.now result ∷ []) };
}
