//! The cuts between the pieces that go on to a pane's terminal.
ghost use Rattle.std.specs.Prelude.{◌≡◌, ◌≤◌, length};
ghost use Rattle.roam_pane_sockets.specs.Pieces.{begun, frame_upto, piece_before};

use crate::frames::{frame_with, has_no_mark, still_run};

/// The number of bytes in CSI ? 2026 h, which begins an update.
const BEGINNING: usize = 8;

// Returns the beginning of an update that was open before: in front of all bytes.
fn begun(was_open: bool) -> Option<usize>
    ensures begun { result ≡ begun was_open }
{
    if was_open { Some(0) } else { None }
}

// Where the frame begins that is open behind the first so many bytes.
fn frame_upto(frame: Option<usize>, bytes: &[u8], count: usize) -> Option<usize>
    requires count { count ≤ length bytes.now }
    ensures frame { result ≡ frame_upto count frame 0 bytes.now }
{
    let mut open = frame;
    let mut at = 0;
    while at < count {
        at += still_run(bytes.split_at(at).1.split_at(count - at).0);
        if at < count {
            open = frame_with(open, at, bytes.split_at(at).1);
            at += 1;
        }
    }
    open
}

/// Returns the beginning of the update that is open after the first `count` ready bytes. One that was open before begins in front of all.
pub(crate) fn left_open(was_open: bool, ready: &[u8], count: usize) -> Option<usize>
    requires count { count ≤ length ready.now }
    ensures frame { result ≡ frame_upto count (begun was_open) 0 ready.now }
{
    if has_no_mark(ready) {
        begun(was_open)
    } else {
        frame_upto(begun(was_open), ready, count)
    }
}

/// Returns the length of the next piece, given the update that is open after the bytes. It is all of them if none is, or if it was open
/// before. Otherwise the piece ends behind the text that begins the update, so that the update has a piece of its own.
pub(crate) fn piece_before(was_open: bool, frame: Option<usize>, most: usize) -> usize
    ensures piece { result ≡ piece_before was_open frame most }
{
    match frame {
        None => most,
        Some(0) if was_open => most,
        Some(begin) => begin.saturating_add(BEGINNING).min(most),
    }
}
