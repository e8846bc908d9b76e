//! Laws of the definitions, each the contract of a function that does nothing when it runs.
ghost use Rattle.roam_stream_framing.specs.Frames.{OneReading};

/// The bytes of a stream are datagrams, and the beginning of another, in exactly one way: a reader gets the written ones.
pub fn one_reading()
    ensures one { OneReading }
{}
