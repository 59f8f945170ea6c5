// Why a step is refused.

ghost use Rattle.std.specs.Prelude.{◌≡◌};
ghost use Rattle.spi_replay.specs.declared.fault.StepFault.TheVariants.{NoMemory as OutOfMemory};

use std::alloc::{AllocError, AllocFailed};
use thiserror::Error;

/// Why a step is refused. A pool is as before after each of these.
#[derive(Debug, Drop, Error)]
pub enum StepFault {
    /// A place that the step names is outside the pool. It is the first such place.
    #[error("the pool has no place {place}")]
    NoPlace { place: u32 },
    /// The step isn't ready. The place is the step's first.
    #[error("no such step is ready at place {place}")]
    NotReady { place: u32 },
    /// A message that the step binds to a name or puts in its event has more than 1,000 nodes. It is the number of nodes of
    /// the largest, and stops at u64's greatest value.
    #[error("a message of {nodes} nodes")]
    RunMessageTooLarge { nodes: u64 },
    /// The pool would have more places than it may have. It is the number that there would be.
    #[error("a pool of {places} places")]
    TooManyPlaces { places: u32 },
    /// Memory ran out.
    #[error("out of memory")]
    NoMemory,
}

impl From<AllocError> for StepFault {
    ghost from_gives = { λ _ e. e ≡ OutOfMemory };

    fn from(_e: AllocError) -> StepFault {
        StepFault::NoMemory
    }
}

impl<T: Drop> From<AllocFailed<T>> for StepFault {
    ghost from_gives = { λ _ e. e ≡ OutOfMemory };

    fn from(_e: AllocFailed<T>) -> StepFault {
        StepFault::NoMemory
    }
}
