//! Laws of deadlocks that callers may rely on. Each is the contract of an empty function.
ghost use Rattle.grid.specs.Squares.{Squares};
ghost use Rattle.doom.specs.Sums.{HaveOneSum, PushLessensByOne, SolvedNeedNone};
ghost use Rattle.doom.specs.Deadlocks.{Doomed};
ghost use Rattle.doom.specs.Lost.{AreLost, SolvesSafely};
ghost use Rattle.doom.specs.Loose.{LooseDoomsNothing};

use grid::Level;

/// No play from a state with doomed boxes ends solved.
pub fn doomed_are_lost(level: &Level)
    ensures { (boxes : Squares) → Doomed level.now boxes → AreLost level.now boxes }
{}

/// Each state along a play that ends solved has undoomed boxes.
pub fn solution_is_safe(level: &Level)
    ensures { SolvesSafely level.now }
{}

/// A push lessens the lower bound of the boxes by at most one; solved boxes have the bound 0; and each set of boxes has
/// only one bound.
pub fn a_push_lessens_the_bound_by_one(level: &Level)
    ensures push { PushLessensByOne level.now }
    ensures solved { SolvedNeedNone level.now }
    ensures one { HaveOneSum level.now }
{}

/// A push from an undoomed position dooms nothing if the pushed box is loose on its new square.
pub fn a_loose_box_dooms_nothing(level: &Level)
    ensures { LooseDoomsNothing level.now }
{}
