//! What is read of a file after any end of the process that wrote it.
ghost use Rattle.roam_row_files.specs.Laws.{AnyBytesAreRead, CutsAreRead, SegmentsAreTails, WritersGoOn};

/// A file that was cut off at any byte is read as the changes that are whole, and gives the length to cut it to. A writer that goes on from
/// there gives a file that is read as both. Any bytes are read, in one way.
pub fn files_are_read()
    ensures cut { CutsAreRead }
    ensures go_on { WritersGoOn }
    ensures any_bytes { AnyBytesAreRead }
{}

/// The newer segments alone give the newest rows, by the same numbers.
pub fn segments_are_tails()
    ensures segments { SegmentsAreTails }
{}
