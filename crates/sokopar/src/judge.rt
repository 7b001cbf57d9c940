ghost use denote.Param.Send.{IsSync};
ghost use Rattle.std.specs.Prelude.{ℕ, ◌≤◌, Result};
ghost use Rattle.grid.specs.Board.{Board};
ghost use Rattle.grid.specs.declared.fault.LevelFault.{LevelFault as Fault};
ghost use Rattle.judging.specs.declared.judgement.Judgement.{Judgement as View};

use crate::watch::Watch;
use grid::{Level, LevelFault};
use judging::Judgement;
use std::alloc::Global;
use std::thread::Threads;

/// How a report on the levels of a collection judges each of them.
pub(crate) trait Judge {
    // what is right for a level, by its number
    ghost is_right: { Self → ℕ → Result Board Fault → View → Type 0 };

    /// The judgement of a level. A search of the level tells `watch` how far it is.
    fn judge<R: Threads + Sync, P: Watch>(
        &self,
        rt: &R,
        alloc: Global,
        number: u32,
        board: &Result<Level, LevelFault>,
        watch: &mut P,
    ) -> Judgement
        requires threads { IsSync R.row }
        requires number { 1 ≤ number }
        ensures { is_right self.now number board.now result };
}
