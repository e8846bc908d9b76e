//! Ids by chance.
ghost use Rattle.std.specs.Prelude.{◌≡◌, IsOkUnless};

use roam_faults::RunFault;
use std::random::RandomSource;

/// Returns a random id. `Read` if the system has no randomness to give.
pub fn random_id(chance: &impl RandomSource) -> Result<u64, RunFault>
    ensures fault { IsOkUnless result RunFault.Read }
{
    let mut bytes = [0u8; 8];
    match chance.fill_bytes(&mut bytes) {
        Ok(()) => Ok(u64::from_be_bytes(bytes)),
        Err(_) => Err(RunFault::Read),
    }
}
