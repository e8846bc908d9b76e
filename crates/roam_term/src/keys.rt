//! The bytes of a keyboard in a terminal's output.
ghost use Rattle.std.specs.Prelude.{◌≡◌, ◌+◌, ◌≤◌, ◌↔◌, ◌++◌, ℕ, List, length, IsOk, OnOk, OnErr, IsOkUnless};
ghost use Rattle.roam_keys.specs.Sent.{bytes_of_key};
ghost use Rattle.roam_text.specs.Log.{Item};
ghost use Rattle.roam_term.specs.Keys.{key_modes};
ghost use Rattle.roam_term.specs.Stands.{Stands};
ghost use Rattle.roam_term.specs.Limits.{most_output};

use crate::limits::MOST_OUTPUT;
use crate::terms::Term;
use roam_cells::Fault;
use roam_controls::Modes;
use roam_keys::{Key, KeyModes};

fn key_modes(modes: Modes) -> KeyModes
    ensures modes { result ≡ key_modes modes }
{
    KeyModes {
        application_cursor: modes.cursor_keys,
        application_keypad: modes.application_keypad,
        new_line: modes.newline,
    }
}

impl Term {
    /// Queues the bytes that a key sends under the terminal's modes. `Busy` if the queue hasn't as many free bytes; nothing changes then.
    /// It takes no memory.
    pub fn key(&mut self, key: &Key) -> Result<(), Fault>
        ensures ok { IsOk result ↔ (length self.old.waiting + length (bytes_of_key (key_modes self.old.live.modes) key.now) ≤ most_output) }
        ensures waiting { OnOk result (self.new.waiting ≡ self.old.waiting ++ bytes_of_key (key_modes self.old.live.modes) key.now) }
        ensures stands { OnOk result ((rows cols lines : ℕ) (log : List Item) → Stands self.old rows cols lines log
            → Stands self.new rows cols lines log) }
        ensures live { self.new.live ≡ self.old.live }
        ensures marks { self.new.marks ≡ self.old.marks }
        ensures history { self.new.history ≡ self.old.history }
        ensures err { OnErr result (self.new ≡ self.old) }
        ensures fault { IsOkUnless result Fault.Busy }
    {
        let sent = key.sent(key_modes(self.canvas.modes()));
        let bytes = sent.as_slice();
        if MOST_OUTPUT - self.output.len() < bytes.len() {
            return Err(Fault::Busy);
        }
        self.output.push(bytes);
        Ok(())
    }
}
