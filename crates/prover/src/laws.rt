//! Laws of the search for a solution with the fewest pushes. Each is the contract of a function that does nothing.
ghost use Rattle.prover.specs.Frontier.{ClosedDecides, LeastBounds, NothingIsLost};
ghost use Rattle.prover.specs.Parity.{FewDecide, SolutionsAlike, TwoLessDecide};

use grid::Level;

/// The laws of a search: its open positions bound the pushes of the level's solutions.
pub fn open_positions_tell(level: &Level)
    ensures lost { NothingIsLost level.now }
    ensures least { LeastBounds level.now }
    ensures closed { ClosedDecides level.now }
{}

/// The laws of parity: the numbers of pushes of a level's solutions are all even or all odd.
pub fn solutions_are_alike(level: &Level)
    ensures alike { SolutionsAlike level.now }
    ensures two { TwoLessDecide level.now }
    ensures few { FewDecide level.now }
{}
