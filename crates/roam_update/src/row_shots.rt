//! The diff of a screen that shares its rows, in the text of version 2.

ghost use Rattle.std.specs.Prelude.{◌≡◌, Some, None, OnOk, OnErr, IfErr, IsErrOf, ◌⊎◌};
ghost use Rattle.roam_update.specs.Shots.{applied_two};
ghost use Rattle.roam_update.specs.Tabled.{HasStart};

use crate::shots::{change_text, changed};
use crate::synced::Synced;
use roam_cells::Fault;
use roam_screens::RowShot;
use std::alloc::Global;

impl Synced for RowShot {
    ghost use Rattle.roam_update.specs.Shots.{applied_two, difference_two};

    ghost applied = { applied_two };

    ghost difference = { difference_two };

    fn copy(&self, alloc: Global) -> Result<RowShot, Fault> {
        RowShot::copy(self, alloc)
    }

    fn write_change(&self, alloc: Global, base: &RowShot, out: &mut Vec<u8>) -> Result<(), Fault> {
        let text = change_text(alloc, base, self)?;
        out.extend_from_slice(&text)?;
        Ok(())
    }

    fn apply(&mut self, alloc: Global, change: &[u8]) -> Result<(), Fault>
        ensures ok { OnOk result (applied_two self.old change.now ≡ Some self.new) }
        ensures bad { IsErrOf result Fault.BadChange → applied_two self.old change.now ≡ None }
        // A text that begins with no head, or with no table behind it, is reported so, whatever memory there is.
        ensures memory { IsErrOf result Fault.OutOfMemory → HasStart change.now }
        ensures err { OnErr result (self.new ≡ self.old) }
        ensures fault { IfErr result (λ fault. (fault ≡ Fault.OutOfMemory) ⊎ (fault ≡ Fault.BadChange)) }
    {
        let shot = changed(alloc, self, change)?;
        *self = shot;
        Ok(())
    }
}
