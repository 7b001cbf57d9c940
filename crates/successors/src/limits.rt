//! The limits of successors and of shares.
use area::MAX_PUSHES;

/// The greatest number of shares that positions are dealt to.
pub const MAX_SHARES: u8 = 16;

/// The greatest number of successors of a position, which is the greatest number of its pushes.
pub(crate) const MAX_SUCCESSORS: usize = MAX_PUSHES;
