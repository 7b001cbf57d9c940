use grid::Moves;

/// What a search for the fewest moves found.
#[derive(Debug, Drop)]
pub enum MovesOutcome {
    /// These moves solve the level with the fewest pushes, and no solution with as many pushes has fewer moves.
    Least { moves: Moves },
    /// The search listed more states than the limit.
    Limit,
    /// The search ran for as many seconds as it may.
    Stopped,
}
