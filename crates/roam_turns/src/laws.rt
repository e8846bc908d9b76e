//! Laws of the definitions, each the contract of a function that does nothing when it runs.
ghost use Rattle.roam_model.specs.Laws.{Always};
ghost use Rattle.roam_turns.specs.Hops.{IsReadyForTicks, OneHop};

/// One hop. A tick of a server makes a number and offers it to a client instance that is ready for it, and just the parcels to that
/// instance come there, each at least once, in any order. Then the instance shows the face of the whole input of the session until then, as
/// its version is shown it. The text of `paint` leads a terminal that displayed the instance's earlier screen to that face.
pub fn one_hop()
    ensures hop { OneHop }
{}

/// After every list of events, each client instance to which a tick would offer its number is ready for it. It is of one version with its
/// record, has the pair of the sender's base, and shows a number from that one on and below the tick's. It gathered no instruction as high
/// as the tick's, and has at most seven pairs from the base on.
pub fn histories_make_ready()
    ensures ready { Always IsReadyForTicks }
{}
