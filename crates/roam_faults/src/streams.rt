//! The state of a stream by the answer to a read or a write.
ghost use Rattle.std.specs.Prelude.{◌↔◌, IsTrue};
ghost use Rattle.roam_faults.specs.Streams.{IsForNow, IsStreamEnd};

use std::io;
use std::io::ErrorKind;

/// Returns true if a read or a write that failed with this error may succeed later.
pub fn is_for_now(error: &io::Error) -> bool
    ensures for_now { IsTrue result ↔ IsForNow error.now }
{
    matches!(error.kind(), ErrorKind::WouldBlock | ErrorKind::Interrupted)
}

/// Returns true if a stream with this answer is over: a read into a buffer with room gave nothing, a write of some bytes took none, or it
/// failed with another error than one that passes.
pub fn is_stream_end(answer: &io::Result<usize>) -> bool
    ensures end { IsTrue result ↔ IsStreamEnd answer.now }
{
    match answer {
        Ok(count) => *count == 0,
        Err(error) => !is_for_now(error),
    }
}
