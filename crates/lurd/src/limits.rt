//! The limits of a text.

/// The greatest number of moves of a text.
pub const MAX_MOVES: usize = 1_000_000;
