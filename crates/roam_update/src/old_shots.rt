//! The diff of a screen of version 1, in the text of version 1.

ghost use Rattle.std.specs.Prelude.{◌≡◌, Some, None, OnOk, OnErr, IfErr, IsErrOf, ◌⊎◌};
ghost use Rattle.roam_update.specs.Shots.{applied_one};
ghost use Rattle.roam_update.specs.Tabled.{HasOldHead, old_head_of_text};

use crate::shots::{old_change_text, old_changed};
use crate::synced::Synced;
use roam_cells::Fault;
use roam_screens::RowShot1;
use std::alloc::Global;

impl Synced for RowShot1 {
    ghost use Rattle.roam_update.specs.Shots.{applied_one, difference_one};

    ghost applied = { applied_one };

    ghost difference = { difference_one };

    fn copy(&self, alloc: Global) -> Result<RowShot1, Fault> {
        RowShot1::copy(self, alloc)
    }

    fn write_change(&self, alloc: Global, base: &RowShot1, out: &mut Vec<u8>) -> Result<(), Fault> {
        let text = old_change_text(alloc, base.shot(), self.shot())?;
        out.extend_from_slice(&text)?;
        Ok(())
    }

    fn apply(&mut self, alloc: Global, change: &[u8]) -> Result<(), Fault>
        ensures ok { OnOk result (applied_one self.old change.now ≡ Some self.new) }
        ensures bad { IsErrOf result Fault.BadChange → applied_one self.old change.now ≡ None }
        // A text that begins with no head is reported so, whatever memory there is.
        ensures memory { IsErrOf result Fault.OutOfMemory → HasOldHead (old_head_of_text change.now) }
        ensures err { OnErr result (self.new ≡ self.old) }
        ensures fault { IfErr result (λ fault. (fault ≡ Fault.OutOfMemory) ⊎ (fault ≡ Fault.BadChange)) }
    {
        let shot = old_changed(alloc, self.shot(), change)?;
        *self = RowShot1::new(shot);
        Ok(())
    }
}
