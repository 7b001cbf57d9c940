use grid::Moves;

/// What a search for a solution with the fewest pushes found.
#[derive(Debug, Drop)]
pub enum Outcome {
    /// These moves solve the level with this many pushes, and no solution has fewer.
    Least { moves: Moves, pushes: u32 },
    /// No solution has as few pushes as the cap allows.
    NoneWithin,
    /// The level has no solution.
    Unsolvable,
    /// The search found more positions than the limit; every solution has at least this many pushes, a number that the
    /// cap allows.
    Limit { at_least: u32 },
    /// The search ran for as many seconds as it may; every solution has at least this many pushes, a number that the
    /// cap allows.
    Stopped { at_least: u32 },
}
