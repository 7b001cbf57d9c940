ghost use Rattle.std.specs.Prelude.{◌≡◌, ◌↔◌, IsTrue, IfOk};
ghost use Rattle.std.specs.Arc.{arc_value};
ghost use Rattle.grid.specs.Lawful.{IsLevel, box_count};
ghost use Rattle.grid.specs.States.{FitsLevel};
ghost use Rattle.successors.specs.Capping.{Admits, HasBound, capped};

use crate::pruning::is_within;
use doom::{Bound, Dead};
use grid::{Level, Position};
use std::alloc::{AllocError, Global};
use std::marker::Model;
use std::sync::Arc;

/// What a search solves: a level, and the greatest number of pushes of a solution, if a cap is set. It holds the
/// level's dead squares and, under a cap, its bound. Contracts see the level with its cap.
#[derive(Drop)]
pub struct Problem {
    level: Arc<Level>,
    cap: Option<u32>,
    dead: Dead,
    bound: Option<Bound>,
}

impl Model for Problem {
    ghost use Rattle.std.specs.Prelude.{◌≡◌};
    ghost use Rattle.std.specs.Arc.{arc_value};
    ghost use Rattle.successors.specs.Problems.{Problem};
    ghost use Rattle.successors.specs.Capping.{HasBound, capped};

    ghost Value = { Problem };

    ghost view = { λ a. capped (arc_value a.level) a.cap };

    ghost invariant = { λ a. (a.dead ≡ arc_value a.level) × HasBound (capped (arc_value a.level) a.cap) a.bound };
}

impl Problem {
    /// The problem of a level and a cap, or no cap. It shares the level. The only error is running out of memory.
    pub fn of(alloc: Global, level: &Arc<Level>, cap: Option<u32>) -> Result<Problem, AllocError>
        ensures { IfOk result (λ problem. problem ≡ capped (arc_value level.now) cap) }
    {
        let shared = Arc::try_clone(level)?;
        let bound = bound_for(alloc, level, cap)?;
        Ok(Problem {
            level: shared,
            cap,
            dead: Dead::of(alloc, level)?,
            bound,
        })
    }

    /// The level.
    pub fn level(&self) -> &Level
        ensures { result.now ≡ self.now.board }
    {
        &*self.level
    }

    /// The greatest number of pushes of a solution. `None` if no cap is set.
    pub fn cap(&self) -> Option<u32>
        ensures { result ≡ self.now.cap }
    {
        self.cap
    }

    /// The dead squares.
    pub fn dead(&self) -> &Dead
        ensures { result.now ≡ self.now.board }
    {
        &self.dead
    }

    /// The bound, if a cap is set.
    pub fn bound(&self) -> &Option<Bound>
        ensures { HasBound self.now result.now }
    {
        &self.bound
    }

    /// The number of boxes.
    pub fn boxes(&self) -> usize
        ensures { result ≡ box_count self.now.board }
    {
        self.level.boxes()
    }

    /// A lemma: the level is lawful. It does nothing.
    #[doc(hidden)]
    pub fn tell(&self)
        ensures { IsLevel self.now.board }
    {
        self.level.tell();
    }

    /// Whether another problem has the same level and the same cap.
    pub fn is(&self, other: &Problem) -> bool
        ensures { IsTrue result ↔ (self.now ≡ other.now) }
    {
        self.is_of(other.level(), other.cap)
    }

    /// Whether the problem has this level and this cap.
    pub(crate) fn is_of(&self, level: &Level, cap: Option<u32>) -> bool
        ensures { IsTrue result ↔ (self.now ≡ capped level.now cap) }
    {
        self.cap == cap && *self.level == *level
    }

    /// Whether some solution from a position may keep the cap, if no push has been made yet: the lone boxes need at
    /// most as many pushes as the cap allows. Without a cap every position is admitted.
    pub fn is_admitted(&self, position: &Position) -> bool
        requires fits { FitsLevel self.now.board position.now }
        ensures { IsTrue result ↔ Admits self.now 0 position.now }
    {
        match (self.cap, &self.bound) {
            (Some(most), Some(bound)) => is_within(bound, most, position),
            _ => true,
        }
    }
}

// The bound of a level, if a cap is set.
fn bound_for(alloc: Global, level: &Level, cap: Option<u32>) -> Result<Option<Bound>, AllocError>
    ensures { IfOk result (λ bound. HasBound (capped level.now cap) bound) }
{
    if cap.is_none() {
        return Ok(None);
    }
    let bound = Bound::of(alloc, level)?;
    Ok(Some(bound))
}
