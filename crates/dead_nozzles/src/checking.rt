//! What is wrong with a list of dead nozzles.
ghost use Rattle.dead_nozzles.specs.Dead.{checked, IsRising};
ghost use Rattle.std.specs.Prelude.{◌≡◌, ◌≤◌};

use thiserror::Error;

/// What is wrong with a list of dead nozzles. Nozzles count from 0.
#[derive(Clone, Copy, Debug, PartialEq, Eq, Error)]
pub enum DeadFault {
    #[error("the head has no nozzle {nozzle}")]
    NoSuchNozzle { nozzle: u8 },
    #[error("each of the {nozzles} nozzles is dead")]
    AllDead { nozzles: u8 },
}

/// Checks a list of dead nozzles, which must be in rising order. The first number that the head does not have is
/// refused, and so is a list of all nozzles.
pub fn check_dead(nozzles: u8, dead: &[u8]) -> Result<(), DeadFault>
    requires some_nozzles { 1 ≤ nozzles }
    requires rising { IsRising dead.now }
    ensures { result ≡ checked nozzles dead.now }
{
    'nozzles: for nozzle in dead {
        if *nozzle >= nozzles {
            return Err(DeadFault::NoSuchNozzle { nozzle: *nozzle });
        }
    }
    if dead.len() == usize::from(nozzles) {
        return Err(DeadFault::AllDead { nozzles });
    }
    Ok(())
}
