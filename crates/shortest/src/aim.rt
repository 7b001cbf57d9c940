//! What a search near a solution looks for, and how long.

/// The fewest states for fewer pushes: these searches run only after one that was hard.
const LEAST_STATES: usize = 15_000;

/// The most states for fewer moves: more save next to nothing.
const MOST_STATES: usize = 100_000;

/// A search that found at most this many positions was easy. To save moves takes about as long as it did.
const EASY: usize = 2_000;

/// For each position, a search for fewer moves may expand this many states.
const EASY_STATES: usize = 3;

/// The same for each position beyond `EASY`.
const HARD_STATES: usize = 30;

/// What [`improve`](crate::improve) looks for.
#[derive(Clone, Copy, PartialEq, Eq, Debug)]
pub enum Aim {
    /// Fewer pushes, and then fewer moves with as many pushes.
    FewerPushes,
    /// Fewer moves with as many pushes.
    FewerMoves,
}

impl Aim {
    /// How many states [`improve`](crate::improve) is to expand without success, after a search of the level that
    /// found this many positions.
    pub fn states_after(self, found: usize) -> usize {
        match self {
            Aim::FewerPushes => (found / 2).max(LEAST_STATES),
            Aim::FewerMoves => {
                let easy = found.saturating_mul(EASY_STATES);
                let hard = found.saturating_sub(EASY).saturating_mul(HARD_STATES);
                easy.max(hard).min(MOST_STATES)
            }
        }
    }
}
