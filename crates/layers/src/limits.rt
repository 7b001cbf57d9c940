//! The limits of books and layers.
use successors::MAX_SHARES;

/// The greatest number of workers. A book may be made for one more: the caller, which does the last ranks.
pub const MAX_WORKERS: u8 = 64;

/// The greatest number of positions of a layer and those before it together: what
/// [`MAX_SHARES`](successors::MAX_SHARES) books hold at the greatest limit.
pub const MOST_POSITIONS: u64 = MAX_SHARES as u64 * u32::MAX as u64;
