//! The datagrams from two sources. They take turns to be asked first, so that neither delays the other.
ghost use Rattle.std.specs.Prelude.{◌≡◌, ◌⊎◌, ◌≤◌, List, Option, None, IfSome, length, not, true, false};
ghost use Rattle.roam_cells.specs.declared.addresses.Addr.{Addr as AddrOf};
ghost use Rattle.roam_sockets.specs.Arrivals.{Arrived, Gives, GivesFirst};

use roam_cells::Addr;

/// A source of datagrams.
pub trait Arrivals {
    // The datagrams that arrived and weren't given yet, in order, if they are known.
    ghost arrived: { Self → Option (List Arrived) } = { λ _. None };

    // Where they may come from.
    ghost comes_from: { Self → AddrOf → Type 0 } = { λ _ _. Unit {0} };

    /// Returns the next datagram's sender, and how many bytes of `buf` it fills from the front; `None` if there is none.
    fn next_arrival(&mut self, buf: &mut [u8]) -> Option<(Addr, usize)>
        ensures within { IfSome result (λ r. r.1 ≤ length buf.new) }
        ensures from { IfSome result (λ r. comes_from self.old r.0) }
        ensures gives { Gives (arrived self.old) (arrived self.new) buf.new result };
}

// Returns the next datagram of one source, or else of the other.
fn next_of<A: Arrivals, B: Arrivals>(
    one: &mut A,
    other: &mut B,
    buf: &mut [u8],
) -> Option<(Addr, usize)>
    ensures within { IfSome result (λ r. r.1 ≤ length buf.new) }
    ensures from { IfSome result (λ r. A.comes_from one.old r.0 ⊎ B.comes_from other.old r.0) }
    ensures gives { GivesFirst (A.arrived one.old) (A.arrived one.new) (B.arrived other.old) (B.arrived other.new) buf.new result }
{
    if let Some(came) = one.next_arrival(buf) {
        return Some(came);
    }
    other.next_arrival(buf)
}

/// Returns the next datagram of two sources. The source that is asked first changes with each call.
pub fn next_by_turns<A: Arrivals, B: Arrivals>(
    one: &mut A,
    other: &mut B,
    is_other_first: &mut bool,
    buf: &mut [u8],
) -> Option<(Addr, usize)>
    ensures within { IfSome result (λ r. r.1 ≤ length buf.new) }
    ensures from { IfSome result (λ r. A.comes_from one.old r.0 ⊎ B.comes_from other.old r.0) }
    ensures turn { is_other_first.new ≡ not is_other_first.old }
    ensures one_first { is_other_first.old ≡ false
        → GivesFirst (A.arrived one.old) (A.arrived one.new) (B.arrived other.old) (B.arrived other.new) buf.new result }
    ensures other_first { is_other_first.old ≡ true
        → GivesFirst (B.arrived other.old) (B.arrived other.new) (A.arrived one.old) (A.arrived one.new) buf.new result }
{
    let is_other_asked = *is_other_first;
    *is_other_first = !is_other_asked;
    if is_other_asked {
        next_of(other, one, buf)
    } else {
        next_of(one, other, buf)
    }
}
