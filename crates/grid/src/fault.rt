ghost use Rattle.std.specs.Prelude.{◌≡◌};

use crate::limits::{MAX_COLS, MAX_ROWS};
use std::alloc::AllocError;
use thiserror::Error;

/// Why a board is no lawful level. If several faults apply, the first in this order is reported, except that
/// `OutOfMemory` may come in place of `Open`.
#[derive(Clone, Copy, PartialEq, Eq, Debug, Drop, Error)]
pub enum LevelFault {
    /// More rows than [`MAX_ROWS`](crate::MAX_ROWS).
    #[error("more than {MAX_ROWS} rows")]
    TooTall,
    /// More columns than [`MAX_COLS`](crate::MAX_COLS).
    #[error("more than {MAX_COLS} columns")]
    TooWide,
    /// No player.
    #[error("no player")]
    NoPlayer,
    /// Two players or more.
    #[error("more than one player")]
    TwoPlayers,
    /// No box.
    #[error("no box")]
    NoBox,
    /// The numbers of boxes and of goals differ.
    #[error("{boxes} boxes and {goals} goals")]
    Counts { boxes: usize, goals: usize },
    /// A square that the player may walk to, boxes ignored, is at the edge of the grid.
    #[error("the player can reach the edge")]
    Open,
    /// Out of memory.
    #[error("out of memory")]
    OutOfMemory,
}

impl From<AllocError> for LevelFault {
    ghost use Rattle.grid.specs.declared.fault.LevelFault.TheVariants.{OutOfMemory};

    ghost from_gives = { λ _ f. f ≡ OutOfMemory };

    fn from(_: AllocError) -> LevelFault {
        LevelFault::OutOfMemory
    }
}
