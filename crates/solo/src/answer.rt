ghost use Rattle.std.specs.Prelude.{◌≡◌};
ghost use Rattle.solo.specs.declared.answer.SolveFault.TheVariants.{OutOfMemory};

use grid::{MAX_BOXES, Moves};
use std::alloc::AllocError;
use thiserror::Error;

/// The result of a search for the solution with the fewest pushes.
#[derive(Drop)]
pub enum Answer {
    /// The least solution: the fewest pushes, then the least push list, then the fewest moves, then the least text in
    /// the order `d`, `l`, `r`, `u`. `positions` counts the positions that `pushes` pushes or fewer reach through
    /// undoomed positions. Under a cap it counts only those that the cap admits: the fewest pushes that lead there, and
    /// the pushes that lone boxes need from there, are together no more than the cap.
    Solved {
        moves: Moves,
        pushes: u64,
        positions: u64,
    },
    /// No play ends with every box on a goal. This answer comes only without a cap. `positions` counts all positions
    /// that pushes reach through undoomed positions.
    Unsolvable {
        positions: u64,
    },
    /// No play within the cap of pushes ends with every box on a goal. This replaces
    /// [`Unsolvable`](Answer::Unsolvable) exactly if a cap is set. `positions` counts all positions that pushes reach
    /// through undoomed positions and that the cap admits.
    NoneWithin {
        positions: u64,
    },
    /// Each other answer needs more positions than the limit; the level stays undecided.
    Limit,
}

/// Why a level was not searched. If several reasons apply, `BadConfig` is reported before all others, and otherwise the
/// first in this order.
#[derive(Clone, Copy, PartialEq, Eq, Debug, Drop, Error)]
pub enum SolveFault {
    /// The level has more boxes than [`MAX_BOXES`](grid::MAX_BOXES).
    #[error("more than {MAX_BOXES} boxes")]
    TooManyBoxes,
    /// Out of memory.
    #[error("out of memory")]
    OutOfMemory,
    /// A number of the configuration is outside its limits. [`solve_alone`](crate::solve_alone), which takes no
    /// configuration, never reports it.
    #[error("a number of the configuration is outside its limits")]
    BadConfig,
}

impl From<AllocError> for SolveFault {
    ghost from_gives = { λ _ fault. fault ≡ OutOfMemory };

    fn from(_error: AllocError) -> Self {
        SolveFault::OutOfMemory
    }
}
