ghost use Rattle.std.specs.Prelude.{◌≡◌};
ghost use Rattle.lurd.specs.declared.fault.LurdFault.TheVariants.{OutOfMemory};

use crate::limits::MAX_MOVES;
use std::alloc::AllocError;
use thiserror::Error;

/// Why bytes are no LURD text. `parse` reports the first fault in the text.
#[derive(Clone, Copy, PartialEq, Eq, Debug, Drop, Error)]
pub enum LurdFault {
    /// A byte that is no letter, no digit and no blank, where a letter or a count might begin. `at` is its index,
    /// counted from 1.
    #[error("byte {at} begins neither a letter nor a count")]
    BadByte { at: usize },
    /// A run of digits that is longer than [`MAX_DIGITS`](counts::MAX_DIGITS), has the value 0, or has no letter right
    /// after it. `at` is the index of its first digit, counted from 1.
    #[error("the digits at byte {at} are no count of a letter")]
    BadCount { at: usize },
    /// More moves than [`MAX_MOVES`](crate::MAX_MOVES).
    #[error("more than {MAX_MOVES} moves")]
    TooManyMoves,
    /// Out of memory.
    #[error("out of memory")]
    OutOfMemory,
}

impl From<AllocError> for LurdFault {
    ghost from_gives = { λ _ e. e ≡ OutOfMemory };

    fn from(_e: AllocError) -> LurdFault {
        LurdFault::OutOfMemory
    }
}
