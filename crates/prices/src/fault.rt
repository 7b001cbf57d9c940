ghost use Rattle.std.specs.Prelude.{◌≡◌};
ghost use Rattle.prices.specs.declared.fault.SearchFault.TheVariants.{OutOfMemory};

use grid::MAX_BOXES;
use std::alloc::AllocError;
use thiserror::Error;

/// Why a search for the best solution failed.
#[derive(Clone, Copy, PartialEq, Eq, Debug, Drop, Error)]
pub enum SearchFault {
    /// The level has more boxes than [`MAX_BOXES`](grid::MAX_BOXES).
    #[error("more than {MAX_BOXES} boxes")]
    TooManyBoxes,
    /// The search ran out of memory. Every solution has at least this many pushes.
    #[error("out of memory")]
    OutOfMemory { at_least: u32 },
}

impl From<AllocError> for SearchFault {
    ghost from_gives = { λ _ fault. fault ≡ OutOfMemory 0 };

    fn from(_error: AllocError) -> Self {
        SearchFault::OutOfMemory { at_least: 0 }
    }
}
