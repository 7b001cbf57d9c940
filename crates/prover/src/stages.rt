//! When a search makes tables of regions.
ghost use Rattle.std.specs.Prelude.{◌≡◌};

use crate::frontier::Frontier;
use crate::pruner::Pruner;
use std::alloc::{AllocError, Global};
use std::thread::Threads;

/// The numbers of positions at which the search makes tables of regions, each with the bytes that a table may take, and
/// whether the regions are chosen for the open positions that hold the search up. Making the tables takes about as
/// long as finding that many positions, and many searches end before.
pub(crate) const STAGES: [(u32, usize, bool); 8] = [
    (500, 128_000, false),
    (1_500, 250_000, true),
    (3_000, 1_000_000, true),
    (6_000, 1_000_000, false),
    (10_000, 1_000_000, true),
    (30_000, 1_000_000, true),
    (60_000, 10_000_000, false),
    (200_000, 4_000_000, true),
];

/// Makes tables of regions, or of regions that are chosen again for open positions with a least total of at most
/// `reach`.
pub(crate) fn add_tables<R: Threads + Sync>(
    rt: &R,
    alloc: Global,
    pruner: &mut Pruner<'_>,
    frontier: &Frontier,
    reach: u32,
    bytes: usize,
    is_chosen_again: bool,
    workers: u8,
) -> Result<(), AllocError>
    ensures { pruner.new ≡ pruner.old }
{
    if !is_chosen_again {
        return pruner.make_tables(rt, alloc, bytes, workers);
    }
    let samples = frontier.samples(alloc, reach)?;
    pruner.make_tables_for(rt, alloc, bytes, samples.as_slice(), workers)
}
