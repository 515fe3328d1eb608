//! The faults of a run over inputs.

ghost use Rattle.std.specs.Prelude.{◌≡◌};
ghost use Rattle.napt_sequential.specs.declared.fault.RunFault.TheVariants.{Memory, Pool};

use napt_pool::PoolFault;
use std::alloc::AllocError;

/// The reason why a run over inputs failed.
#[derive(Clone, Copy, Debug, PartialEq, Eq)]
pub enum RunFault {
    /// Memory was refused.
    Memory,
    /// There are more than 4,294,967,295 inputs (`MOST_INPUTS`).
    TooMany,
    /// A worker stopped early, or the workers could not be started.
    Pool(PoolFault),
}

impl From<AllocError> for RunFault {
    ghost from_gives = { λ _ fault. fault ≡ Memory };

    fn from(_error: AllocError) -> RunFault {
        RunFault::Memory
    }
}

impl From<PoolFault> for RunFault {
    ghost from_gives = { λ refused fault. fault ≡ Pool refused };

    fn from(refused: PoolFault) -> RunFault {
        RunFault::Pool(refused)
    }
}
