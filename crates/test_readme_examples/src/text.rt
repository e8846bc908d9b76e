//! A caller of `roam_text`, as its README shows it (`tools/worked_callers`).

// README: begin
use roam_text::{Dispatch, Dispatched, Reader};

/// Returns true if a completed function asks for the place of the cursor: DSR, CSI 6 n (ECMA-48, 8.3.35).
pub fn asks_for_the_cursor(reader: &Reader, dispatched: Dispatched) -> bool {
    match dispatched {
        Dispatched::Nothing => false,
        Dispatched::One(dispatch) | Dispatched::AfterReplacement(dispatch) => {
            matches!(
                dispatch,
                Dispatch::Csi {
                    mark: None,
                    last: b'n'
                }
            ) && matches!(reader.parameters(), [6, ..])
                && reader.intermediates().is_empty()
        }
    }
}

/// Returns true if a piece asks for the place of the cursor. It is read as a terminal reads it: printable ASCII in runs, the rest byte by
/// byte.
pub fn is_asked(reader: &mut Reader, piece: &[u8]) -> bool {
    let mut asked = false;
    let mut at = 0;
    while at < piece.len() {
        at += reader.plain_run(&piece[at..]);
        if at < piece.len() {
            let dispatched = reader.dispatch(piece[at]);
            asked = asked || asks_for_the_cursor(reader, dispatched);
            at += 1;
        }
    }
    asked
}
// README: end
