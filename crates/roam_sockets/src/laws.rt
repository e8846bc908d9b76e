//! Laws of the definitions, each the contract of a function that does nothing when it runs.
ghost use Rattle.roam_sockets.specs.Addresses.{NumberStays};

/// A number below 2^40 is that of its address: no two peers ever have one address.
pub fn number_stays()
    ensures stays { NumberStays }
{}
