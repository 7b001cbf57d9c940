//! Pending offers: accepted, and entered into the map together.
ghost use Rattle.std.specs.Prelude.{◌≡◌, ℕ, ◌+◌, ◌<◌, ◌≤◌, ◌++◌, Some, length, slice_get, vec_len, OnOk};
ghost use Rattle.std.specs.Vec.{vec_capacity};
ghost use Rattle.indexmap.specs.IndexMap.{spare};
ghost use Rattle.store.specs.inside.Offers.{offer_in, offers_at};
ghost use Rattle.successors.specs.inside.Sums.{AreSums, scene_sum};
ghost use Rattle.store.specs.inside.KeyRows.{AllSuit, Suits};
ghost use Rattle.store.specs.FoundView.{IsFound, StaysFound, offer_of, offers_of};

use crate::batches::BATCH;
use crate::entering::enter_all;
use crate::key::Key;
use crate::origin::{ClosedOrigin, MOST_RANKS, Origin};
use grid::MAX_BOXES;
use indexmap::IndexMap;
use std::alloc::AllocError;
use successors::{Parcel, Successor, share_by};

/// The number of offers that may be pending in all books together before a worker enters those of another worker's
/// book. It is more than arrive between two visits of a book's own worker, and small compared with the maps.
const MOST_PENDING: u32 = 4096;

/// The number of offers that may be pending in the book of a share when `worker` hands a parcel back to it. Each book
/// has one worker of its own, which enters a batch as soon as it is full, since its processor has that book in the
/// cache. The other workers append their offers and release the lock. A worker may own several books, or none.
/// `workers` does not count the caller; with 0 the caller is alone.
pub fn most_pending(worker: u8, workers: u8, share: u8, shares: u8) -> usize
    requires { 0 < shares }
{
    if workers == 0 || worker == share % workers {
        BATCH
    } else {
        (MOST_PENDING / u32::from(shares)) as usize
    }
}

/// Reserves capacity for the offers of successors, in the list of pending offers and in the map. If `most` offers are
/// pending already, it enters them first. The positions found stay the same. Fails only if out of memory.
pub(crate) fn reserve<const N: usize, const M: usize>(
    table: &mut IndexMap<Key<N, M>, ClosedOrigin>,
    start: usize,
    pending: &mut Vec<(Key<N, M>, Origin)>,
    most: usize,
    successors: &[Successor],
) -> Result<(), AllocError>
    requires width { (N ≤ MAX_BOXES + 1) × (M ≤ MAX_BOXES + 1) }
    requires capacity { length pending.old.items ≤ spare table.old }
    requires found { IsFound start table.old.entries }
    ensures found { IsFound start table.new.entries }
    ensures same { StaysFound start table.old.entries pending.old.items table.new.entries pending.new.items }
    ensures capacity { length pending.new.items ≤ spare table.new }
    ensures ok { OnOk result ((length pending.new.items + length successors.now ≤ spare table.new) ×
        (vec_len pending.new + length successors.now ≤ vec_capacity pending.new)) }
{
    enter_if_full(table, start, pending, most);
    let more = successors.len();
    table.reserve(pending.len() + more)?;
    pending.reserve(more)
}

// Enters the pending offers if there are at least `most`. The positions found stay the same.
fn enter_if_full<const N: usize, const M: usize>(
    table: &mut IndexMap<Key<N, M>, ClosedOrigin>,
    start: usize,
    pending: &mut Vec<(Key<N, M>, Origin)>,
    most: usize,
)
    requires width { (N ≤ MAX_BOXES + 1) × (M ≤ MAX_BOXES + 1) }
    requires capacity { length pending.old.items ≤ spare table.old }
    requires found { IsFound start table.old.entries }
    ensures found { IsFound start table.new.entries }
    ensures same { StaysFound start table.old.entries pending.old.items table.new.entries pending.new.items }
    ensures capacity { length pending.new.items ≤ spare table.new }
{
    if pending.len() >= most {
        enter_all(table, start, pending);
    }
}

/// Appends the offers of the parcel's successors of the share. If the parcel is dealt to `shares` shares already, it
/// reads only those successors.
pub(crate) fn append_parcel<const N: usize, const M: usize>(
    pending: &mut Vec<(Key<N, M>, Origin)>,
    share: u8,
    shares: u8,
    parcel: &Parcel<'_>,
)
    requires width { (N ≤ MAX_BOXES + 1) × (M ≤ MAX_BOXES + 1) }
    requires share { share < shares }
    requires rank { parcel.now.rank < MOST_RANKS }
    requires few { AllSuit N M parcel.now.successors }
    requires capacity { vec_len pending.old + length parcel.now.successors ≤ vec_capacity pending.old }
    ensures { pending.new.items ≡ pending.old.items ++ offers_of shares share parcel.now.rank parcel.now.successors }
{
    let rank = parcel.rank();
    let successors = parcel.successors();
    match parcel.places(share, shares) {
        Some(places) => append_dealt(pending, rank, successors, places),
        None => append_all(pending, share, shares, rank, successors, parcel.sums()),
    }
}

// Appends the offers of the successors at some indices.
fn append_dealt<const N: usize, const M: usize>(
    pending: &mut Vec<(Key<N, M>, Origin)>,
    rank: u64,
    successors: &[Successor],
    indices: &[u8],
)
    requires width { (N ≤ MAX_BOXES + 1) × (M ≤ MAX_BOXES + 1) }
    requires rank { rank < MOST_RANKS }
    requires few { AllSuit N M successors.now }
    requires indices { (i p : ℕ) → slice_get indices.now i ≡ Some p → p < length successors.now }
    requires capacity { vec_len pending.old + length indices.now ≤ vec_capacity pending.old }
    ensures { pending.new.items ≡ pending.old.items ++ offers_at rank successors.now indices.now }
{
    for index in indices {
        append_offer(pending, rank, &successors[*index as usize]);
    }
}

// Appends the offers of the successors of the share, which follows from their sums. The number of shares is a constant
// in each branch, so that powers of two need no division.
fn append_all<const N: usize, const M: usize>(
    pending: &mut Vec<(Key<N, M>, Origin)>,
    share: u8,
    shares: u8,
    rank: u64,
    successors: &[Successor],
    sums: &[u32],
)
    requires width { (N ≤ MAX_BOXES + 1) × (M ≤ MAX_BOXES + 1) }
    requires shares { 0 < shares }
    requires rank { rank < MOST_RANKS }
    requires few { AllSuit N M successors.now }
    requires sums { AreSums successors.now sums.now }
    requires capacity { vec_len pending.old + length successors.now ≤ vec_capacity pending.old }
    ensures { pending.new.items ≡ pending.old.items ++ offers_of shares share rank successors.now }
{
    match shares {
        1 => append_each(pending, share, 1, rank, successors, sums),
        2 => append_each(pending, share, 2, rank, successors, sums),
        4 => append_each(pending, share, 4, rank, successors, sums),
        8 => append_each(pending, share, 8, rank, successors, sums),
        16 => append_each(pending, share, 16, rank, successors, sums),
        _ => append_each(pending, share, shares, rank, successors, sums),
    }
}

// Appends the offers of a rank's successors of the share.
#[inline(always)]
fn append_each<const N: usize, const M: usize>(
    pending: &mut Vec<(Key<N, M>, Origin)>,
    share: u8,
    shares: u8,
    rank: u64,
    successors: &[Successor],
    sums: &[u32],
)
    requires width { (N ≤ MAX_BOXES + 1) × (M ≤ MAX_BOXES + 1) }
    requires shares { 0 < shares }
    requires rank { rank < MOST_RANKS }
    requires few { AllSuit N M successors.now }
    requires sums { AreSums successors.now sums.now }
    requires capacity { vec_len pending.old + length successors.now ≤ vec_capacity pending.old }
    ensures { pending.new.items ≡ pending.old.items ++ offers_of shares share rank successors.now }
{
    for (index, successor) in successors.iter().enumerate() {
        append(pending, share, shares, rank, successor, sums[index]);
    }
}

// Appends the offer of a rank's successor, if its sum shows that it is of the share.
#[inline(always)]
fn append<const N: usize, const M: usize>(
    pending: &mut Vec<(Key<N, M>, Origin)>,
    share: u8,
    shares: u8,
    rank: u64,
    successor: &Successor,
    sum: u32,
)
    requires width { (N ≤ MAX_BOXES + 1) × (M ≤ MAX_BOXES + 1) }
    requires shares { 0 < shares }
    requires rank { rank < MOST_RANKS }
    requires suits { Suits N M successor.now.position }
    requires sum { sum ≡ scene_sum successor.now.position }
    requires capacity { vec_len pending.old < vec_capacity pending.old }
    ensures items { pending.new.items ≡ pending.old.items ++ offer_of shares share rank successor.now }
    ensures capacity { (vec_len pending.new ≤ vec_len pending.old + 1) ×
        (vec_capacity pending.new ≡ vec_capacity pending.old) }
{
    if share_by(sum, shares) != share {
        return;
    }
    append_offer(pending, rank, successor);
}

// Appends the offer of a rank's successor.
#[inline(always)]
fn append_offer<const N: usize, const M: usize>(
    pending: &mut Vec<(Key<N, M>, Origin)>,
    rank: u64,
    successor: &Successor,
)
    requires width { (N ≤ MAX_BOXES + 1) × (M ≤ MAX_BOXES + 1) }
    requires rank { rank < MOST_RANKS }
    requires suits { Suits N M successor.now.position }
    requires capacity { vec_len pending.old < vec_capacity pending.old }
    ensures items { pending.new.items ≡ pending.old.items ++ offer_in rank (Some successor.now) }
    ensures capacity { (vec_len pending.new ≡ vec_len pending.old + 1) ×
        (vec_capacity pending.new ≡ vec_capacity pending.old) }
{
    let origin = Origin::new(rank, successor.push);
    pending.push_reserved((Key::of(&successor.position), origin));
}
