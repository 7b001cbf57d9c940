ghost use Rattle.std.specs.Prelude.{◌≡◌};

use grid::MAX_BOXES;
use std::alloc::AllocError;
use thiserror::Error;

/// Why a book was not made.
#[derive(Clone, Copy, PartialEq, Eq, Debug, Drop, Error)]
pub enum BookFault {
    /// The level has more boxes than [`MAX_BOXES`](grid::MAX_BOXES).
    #[error("more than {MAX_BOXES} boxes")]
    TooManyBoxes,
    /// Out of memory.
    #[error("out of memory")]
    OutOfMemory,
}

impl From<AllocError> for BookFault {
    ghost use Rattle.layers.specs.declared.fault.BookFault.TheVariants.{OutOfMemory};

    ghost from_gives = { λ _ fault. fault ≡ OutOfMemory };

    fn from(_error: AllocError) -> Self {
        BookFault::OutOfMemory
    }
}

/// Why a layer was not begun. If several reasons apply, the first in this order is reported.
#[derive(Clone, Copy, PartialEq, Eq, Debug, Drop, Error)]
pub enum BeginFault {
    /// The layer is of another level or cap.
    #[error("the layer is of another level or cap")]
    OtherLevel,
    /// The layer is not the last closed one, or it has begun.
    #[error("the layer is not the last closed one, or has begun")]
    OtherLayer,
    /// Out of memory.
    #[error("out of memory")]
    OutOfMemory,
}

impl From<AllocError> for BeginFault {
    ghost use Rattle.layers.specs.declared.fault.BeginFault.TheVariants.{OutOfMemory};

    ghost from_gives = { λ _ fault. fault ≡ OutOfMemory };

    fn from(_error: AllocError) -> Self {
        BeginFault::OutOfMemory
    }
}

/// Why a parcel was not accepted. If several reasons apply, the first in this order is reported.
#[derive(Clone, Copy, PartialEq, Eq, Debug, Drop, Error)]
pub enum Refusal {
    /// The parcel is of another level or cap.
    #[error("the parcel is of another level or cap")]
    OtherLevel,
    /// The parcel is not of the last closed layer.
    #[error("the parcel is not of the last closed layer")]
    OtherLayer,
    /// The parcel's rank is beyond the layer, or nothing has begun.
    #[error("no such rank")]
    NoSuchRank,
    /// The rank was handed back before.
    #[error("the rank was handed back before")]
    Double,
    /// The book would hold more positions than its limit, or has been over before.
    #[error("more positions than the limit")]
    Over,
    /// Out of memory.
    #[error("out of memory")]
    OutOfMemory,
}

impl From<AllocError> for Refusal {
    ghost use Rattle.layers.specs.declared.fault.Refusal.TheVariants.{OutOfMemory};

    ghost from_gives = { λ _ fault. fault ≡ OutOfMemory };

    fn from(_error: AllocError) -> Self {
        Refusal::OutOfMemory
    }
}

/// Why a layer was not closed. If several reasons apply, the first in this order is reported.
#[derive(Clone, Copy, PartialEq, Eq, Debug, Drop, Error)]
pub enum CloseFault {
    /// A rank is not done, or nothing has begun.
    #[error("a rank is not done")]
    NotAll,
    /// Out of memory.
    #[error("out of memory")]
    OutOfMemory,
}

impl From<AllocError> for CloseFault {
    ghost use Rattle.layers.specs.declared.fault.CloseFault.TheVariants.{OutOfMemory};

    ghost from_gives = { λ _ fault. fault ≡ OutOfMemory };

    fn from(_error: AllocError) -> Self {
        CloseFault::OutOfMemory
    }
}

/// Why books were not joined. If several reasons apply, the first in this order is reported.
#[derive(Clone, Copy, PartialEq, Eq, Debug, Drop, Error)]
pub enum JoinFault {
    /// The books are not all the shares, in order, of one level, cap, limit and number of shares, at the same last
    /// closed layer, or there are none.
    #[error("the books are not all the shares in order")]
    NotWhole,
    /// Out of memory.
    #[error("out of memory")]
    OutOfMemory,
}

impl From<AllocError> for JoinFault {
    ghost use Rattle.layers.specs.declared.fault.JoinFault.TheVariants.{OutOfMemory};

    ghost from_gives = { λ _ fault. fault ≡ OutOfMemory };

    fn from(_error: AllocError) -> Self {
        JoinFault::OutOfMemory
    }
}
