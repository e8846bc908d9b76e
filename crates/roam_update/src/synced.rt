//! The requirements on a state that another end can follow.

ghost use Rattle.std.specs.Prelude.{◌≡◌, ◌++◌, ◌⊎◌, ℕ, List, Option, OnOk, OnErr, IfOk, IfErr, IsErrOf, IsOkUnless};

use roam_cells::Fault;
use std::alloc::Global;

/// A state that another end follows by diffs, each a text that leads from a base to a state.
pub trait Synced: Drop {
    /// The result of a text on a base: none if it is no diff, or leads to no state.
    ghost applied: { Self → List ℕ → Option Self };

    /// The text of the diff that leads from a base, the first, to a state.
    ghost difference: { Self → Self → List ℕ };

    /// The same state in memory of its own.
    fn copy(&self, alloc: Global) -> Result<Self, Fault>
        ensures same { IfOk result (λ state. state ≡ self.now) }
        ensures fault { IsOkUnless result Fault.OutOfMemory };

    /// Adds the text of the diff that leads from `base` to this state at the end of `out`.
    fn write_change(&self, alloc: Global, base: &Self, out: &mut Vec<u8>) -> Result<(), Fault>
        ensures written { OnOk result (out.new.items ≡ out.old.items ++ difference base.now self.now) }
        // Whoever applies it to the base has this state.
        ensures leads { OnOk result (applied base.now (difference base.now self.now) ≡ Some self.now) }
        ensures err { OnErr result (out.new.items ≡ out.old.items) }
        ensures fault { IsOkUnless result Fault.OutOfMemory };

    /// Replaces this state by the result of the text. `BadChange` exactly if there is none, `OutOfMemory`.
    fn apply(&mut self, alloc: Global, change: &[u8]) -> Result<(), Fault>
        ensures ok { OnOk result (applied self.old change.now ≡ Some self.new) }
        ensures bad { IsErrOf result Fault.BadChange → applied self.old change.now ≡ None }
        ensures err { OnErr result (self.new ≡ self.old) }
        ensures fault { IfErr result (λ fault. (fault ≡ Fault.OutOfMemory) ⊎ (fault ≡ Fault.BadChange)) };
}
