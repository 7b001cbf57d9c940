ghost use Rattle.std.specs.Prelude.{◌≡◌, ◌↔◌, IsTrue, IfOk};
ghost use Rattle.doom.specs.Deadlocks.{IsDead};
ghost use Rattle.doom.specs.Lost.{LosesBox};
ghost use Rattle.doom.specs.inside.Holding.{AreHolds};

use crate::holds::{Holds, holds_of};
use crate::pulls::live_flags;
use grid::{Level, Square};
use std::alloc::{AllocError, Global};
use std::marker::Model;

/// The dead squares of a level: those from which a lone box can be pushed to no goal, wherever the player is before
/// each push. Walls and all squares outside the grid are dead. Contracts show the level that it was made of.
///
/// It is made once for a level, and serves all checks of positions. It also keeps, as sets, the squares where walls
/// or dead squares hold a box on an axis, and the goals.
#[derive(Drop)]
pub struct Dead {
    level: Level,
    live: Vec<bool>,
    holds: Holds,
}

impl Model for Dead {
    ghost use Rattle.grid.specs.Board.{Board};
    ghost use Rattle.doom.specs.inside.Pulling.{AreLiveFlags};
    ghost use Rattle.doom.specs.inside.Holding.{AreHolds};

    ghost Value = { Board };

    ghost view = { λ a. a.level };

    ghost invariant = { λ a. AreLiveFlags a.level a.live.items × AreHolds a.level a.holds };
}

impl Dead {
    /// The dead squares of a level, in time linear in its squares. The only error is running out of memory.
    pub fn of(alloc: Global, level: &Level) -> Result<Dead, AllocError>
        ensures { IfOk result (λ dead. dead ≡ level.now) }
    {
        let live = live_flags(alloc, level)?;
        Ok(Dead {
            level: level.copy()?,
            holds: holds_of(alloc, level, live.as_slice())?,
            live,
        })
    }

    /// Whether the square is dead. No play from a state with a box on a dead square ends solved.
    pub fn is_dead(&self, square: Square) -> bool
        ensures dead { IsTrue result ↔ IsDead self.now square }
        ensures lost { IsTrue result → LosesBox self.now square }
    {
        !self.live.get(square.0 as usize).copied().unwrap_or(false)
    }

    /// The squares where walls or dead squares hold a box on each axis, and the goals.
    pub(crate) fn holds(&self) -> &Holds
        ensures { AreHolds self.now result.now }
    {
        &self.holds
    }
}
