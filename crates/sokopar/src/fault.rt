ghost use Rattle.std.specs.Prelude.{◌≡◌};
ghost use Rattle.sokopar.specs.declared.fault.RunFault.TheVariants.{OutOfMemory};

use std::alloc::AllocError;
use thiserror::Error;

/// Why a run has no whole report.
#[derive(Clone, Copy, PartialEq, Eq, Debug, Drop, Error)]
pub enum RunFault {
    /// A read failed.
    #[error("cannot read")]
    Read,
    /// A write failed, or wrote zero bytes.
    #[error("cannot write")]
    Write,
    /// A source gave more bytes than [`MAX_FILE`](xsb::MAX_FILE).
    #[error("file too long")]
    TooLong,
    /// Out of memory.
    #[error("out of memory")]
    OutOfMemory,
}

impl From<AllocError> for RunFault {
    ghost from_gives = { λ _ fault. fault ≡ OutOfMemory };

    fn from(_error: AllocError) -> RunFault {
        RunFault::OutOfMemory
    }
}
