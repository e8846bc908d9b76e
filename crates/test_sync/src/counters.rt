//! A second state that can be followed, beside screens.
use roam_cells::Fault;
use roam_update::Synced;
use std::alloc::Global;

/// A number, whose diff is its eight bytes.
#[derive(Clone, Copy)]
pub struct Counter {
    pub value: u64,
}

impl Synced for Counter {
    ghost use Rattle.std.specs.Prelude.{◌==◌, Some, None, length, if◌then◌else◌};
    ghost use Rattle.std.specs.Int.{w64, to_be_bytes, from_be_bytes};

    ghost applied = { λ base text. if length text == 8 then Some (record { value = from_be_bytes w64 text }) else None };

    ghost difference = { λ base state. to_be_bytes w64 state.value };

    fn copy(&self, _alloc: Global) -> Result<Counter, Fault> {
        Ok(*self)
    }

    fn write_change(
        &self,
        _alloc: Global,
        _base: &Counter,
        out: &mut Vec<u8>,
    ) -> Result<(), Fault> {
        out.extend_from_slice(&self.value.to_be_bytes())?;
        Ok(())
    }

    fn apply(&mut self, _alloc: Global, change: &[u8]) -> Result<(), Fault> {
        if change.len() != 8 {
            return Err(Fault::BadChange);
        }
        self.value = u64::from_be_bytes([
            change[0], change[1], change[2], change[3], change[4], change[5], change[6], change[7],
        ]);
        Ok(())
    }
}
