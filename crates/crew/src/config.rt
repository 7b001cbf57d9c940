ghost use Rattle.std.specs.Prelude.{◌↔◌, IsTrue};
ghost use Rattle.crew.specs.Configured.{IsWithinLimits};

use layers::{MAX_SHARES, MAX_WORKERS};

/// How to solve a level: the numbers of workers and of locks, the limit of positions, and the cap of pushes, if one is
/// set. There are 1 to [`MAX_WORKERS`](layers::MAX_WORKERS) workers and 1 to [`MAX_SHARES`](layers::MAX_SHARES) locks,
/// and the limit is at least 1.
#[derive(Clone, Copy, PartialEq, Eq, Debug)]
pub struct Config {
    pub workers: u8,
    pub locks: u8,
    pub limit: u32,
    pub cap: Option<u32>,
}

impl Config {
    /// Whether these numbers are within their limits.
    pub fn is_within_limits(&self) -> bool
        ensures { IsTrue result ↔ IsWithinLimits self.now }
    {
        1 <= self.workers
            && self.workers <= MAX_WORKERS
            && 1 <= self.locks
            && self.locks <= MAX_SHARES
            && 1 <= self.limit
    }
}
