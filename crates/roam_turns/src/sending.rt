//! Datagrams go out, in their order.
ghost use Rattle.std.specs.Prelude.{◌≡◌, List, map};
ghost use Rattle.std.specs.Io.KnownBytes.{Keeps};
ghost use Rattle.roam_wire.specs.Cutting.{texts_of};
ghost use Rattle.roam_turns.specs.Calls.{PortCall, Tells, parcels_in};
ghost use Rattle.roam_turns.specs.Turns.{Sends, parcel_to};

use crate::ports::Ports;
use roam_hub::Addr;

// Sends each datagram to its address. Each is dropped once it is sent, so the ports' copies take their place.
pub(crate) fn send_parcels<P: Ports>(ports: &mut P, parcels: Vec<(Addr, Vec<u8>)>)
    ensures sends { (calls : List PortCall) × Tells (P.told ports.old) (P.told ports.new) calls × Sends (parcels_in parcels.items) calls }
    ensures written { Keeps (P.written ports.old) (P.written ports.new) }
{
    for (to, bytes) in parcels {
        ports.send(to, &bytes);
    }
}

// Sends each datagram to one address.
pub(crate) fn send_texts<P: Ports>(ports: &mut P, to: Addr, texts: &[Vec<u8>])
    ensures sends { (calls : List PortCall) × Tells (P.told ports.old) (P.told ports.new) calls
        × Sends (map (parcel_to to) (texts_of texts.now)) calls }
    ensures written { Keeps (P.written ports.old) (P.written ports.new) }
    ensures notice { P.notice ports.new ≡ P.notice ports.old }
{
    for bytes in texts {
        ports.send(to, bytes);
    }
}
