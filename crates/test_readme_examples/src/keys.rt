//! A caller of `roam_keys`, as its README shows it (`tools/worked_callers`).

// README: begin
use roam_keys::{Key, KeyModes};

/// How many bytes a key sends to a program that set DECCKM.
pub fn count_under_cursor_mode(key: Key) -> usize {
    let modes = KeyModes {
        application_cursor: true,
        application_keypad: false,
        new_line: false,
    };
    key.sent(modes).as_slice().len()
}
// README: end
