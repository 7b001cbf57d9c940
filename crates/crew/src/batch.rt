//! Batches of ranks, which a worker draws and expands before it hands their parcels back.
ghost use Rattle.std.specs.Prelude.{◌≡◌, ◌<◌, ◌≤◌, IfErr, IfOk, length, take};
ghost use Rattle.crew.specs.Work.{EndsWith, IsAtPlace};
ghost use Rattle.crew.specs.declared.end.End.TheVariants.{Drained};
ghost use Rattle.crew.specs.inside.Batches.{AreDrawn, AreExpanded, AreRanks, IsBatch, IsParcelOfRank};
ghost use Rattle.crew.specs.inside.Ends.{HasEnded, IsEquipped};
ghost use Rattle.crew.specs.inside.Events.{DrawsUntil, MayGoOn};

use crate::end::End;
use crate::gate::Gate;
use crate::known::LockedBook;
use crate::shared::{Shared, Worker};
use crate::worker::draw;
use area::Scratch;
use claims::Drawer;
use layers::{MAX_SHARES, Parcel, expand_over, expand_over_into};
use std::sync::Wait;

// The greatest number of ranks of a batch.
const MOST: u64 = 16;

// The greatest number of ranks of a batch of a worker that is alone. It shares no memory with other processors, so
// larger batches gain nothing, and each parcel takes time to make and space in the cache.
const MOST_ALONE: usize = 4;

// The greatest number of parcels of all workers together. A parcel takes some 40 KB, whatever the level.
const MOST_OF_ALL: usize = 64;

// A batch takes at most one of this many parts of the ranks that are left.
const PARTS: u64 = 64;

// A worker makes one parcel for each of this many ranks of a layer. It takes as long to make as some fifty positions
// to expand, so more of them pay only in a large layer.
const RANKS_OF_A_PARCEL: u64 = 512;

/// The greatest number of ranks of a batch of one of `workers` workers.
pub(crate) fn most_of_one(workers: u8) -> usize {
    match workers {
        0 | 1 => MOST_ALONE,
        _ => (MOST_OF_ALL / workers as usize).clamp(1, MOST as usize),
    }
}

// The number of ranks of the next batch. It falls toward the end of a layer, so that no worker waits long for the
// batch of another.
fn batch_size(left: u64, parcels: usize) -> usize
    requires { 0 < parcels }
    ensures some { 0 < result }
    ensures few { result ≤ MOST }
    ensures fits { result ≤ parcels }
{
    ((left / PARTS).clamp(1, MOST) as usize).min(parcels)
}

/// Appends parcels to fill later, as many as pay in the layer and as there is capacity for. They are made here by
/// value, which takes a large stack frame.
#[inline(never)]
pub(crate) fn append_parcels<'a, B: LockedBook>(
    shared: &Shared<'_, 'a, B>,
    rank: u64,
    scratch: &mut Scratch,
    parcels: &mut Vec<Parcel<'a>>,
)
    requires within { rank < length shared.now.layer.places }
    requires room { scratch.old.size ≡ length shared.now.layer.level.board.cells }
    ensures size { scratch.new.size ≡ scratch.old.size }
{
    let paying = (shared.layer.len() / RANKS_OF_A_PARCEL).clamp(1, MOST) as usize;
    for _ in parcels.len()..paying.min(parcels.capacity()) {
        let parcel = expand_over(shared.problem, shared.layer, rank, scratch);
        if parcels.push(parcel).is_err() {
            return;
        }
    }
}

/// Draws the ranks of a batch one directly after the other, and then makes the first parcels theirs. It returns their
/// number, which is 0 only if no rank is left. It draws first, so that the word from which all workers draw changes
/// processors once for the batch.
pub(crate) fn draw_batch<'a, R: Wait, G: Gate, B: LockedBook>(
    worker: &Worker<'_, '_, '_, 'a, R, G, B>,
    drawer: &mut Drawer,
    scratch: &mut Scratch,
    nth: &mut u64,
    parcels: &mut [Parcel<'a>],
) -> Result<usize, End>
    requires ready { IsEquipped worker.now.shared.now worker.now.number scratch.old drawer.old }
    requires some { 0 < length parcels.old }
    ensures batch { IfOk result
        (λ count. IsBatch worker.now.shared.now.layer drawer.old.hand (take count parcels.new) drawer.new.hand) }
    ensures fits { IfOk result (λ count. count ≤ length parcels.new) }
    ensures none { IfOk result (λ count. count ≡ 0 → EndsWith worker.now.number drawer.new.hand Drained) }
    ensures goes_on { IfOk result (λ count. MayGoOn (G.may_answer worker.now.gate.now
        worker.now.shared.now.layer.number worker.now.number) nth.old count nth.new) }
    ensures ends { IfErr result
        (λ end. HasEnded G.may_stop worker.now.shared.now.layer worker.now.shared.now.workers worker.now.number
        drawer.new.hand end) }
    ensures gate { IfErr result (λ end. DrawsUntil (G.may_answer worker.now.gate.now
        worker.now.shared.now.layer.number worker.now.number) drawer.old.hand nth.old drawer.new.hand nth.new end) }
    ensures ready { IsEquipped worker.now.shared.now worker.now.number scratch.new drawer.new }
{
    let shared = worker.shared;
    let left = shared.layer.len().saturating_sub(parcels[0].rank());
    let size = batch_size(left, parcels.len());
    let mut ranks = [0; MOST as usize];
    let count = draw_ranks(worker, drawer, nth, &mut ranks[..size])?;
    expand_each(shared, &ranks[..count], scratch, parcels);
    Ok(count)
}

// Draws ranks into a slice until it is full or no rank is left. It returns their number.
fn draw_ranks<R: Wait, G: Gate, B: LockedBook>(
    worker: &Worker<'_, '_, '_, '_, R, G, B>,
    drawer: &mut Drawer,
    nth: &mut u64,
    ranks: &mut [u64],
) -> Result<usize, End>
    requires place { IsAtPlace worker.now.shared.now.ledger worker.now.number drawer.old }
    ensures drawn { IfOk result
        (λ count. AreDrawn worker.now.shared.now.layer drawer.old.hand count ranks.new drawer.new.hand) }
    ensures all { IfOk result (λ count. count < length ranks.new → EndsWith worker.now.number drawer.new.hand Drained) }
    ensures goes_on { IfOk result (λ count. MayGoOn (G.may_answer worker.now.gate.now
        worker.now.shared.now.layer.number worker.now.number) nth.old count nth.new) }
    ensures ends { IfErr result
        (λ end. HasEnded G.may_stop worker.now.shared.now.layer worker.now.shared.now.workers worker.now.number
        drawer.new.hand end) }
    ensures gate { IfErr result (λ end. DrawsUntil (G.may_answer worker.now.gate.now
        worker.now.shared.now.layer.number worker.now.number) drawer.old.hand nth.old drawer.new.hand nth.new end) }
    ensures place { IsAtPlace worker.now.shared.now.ledger worker.now.number drawer.new }
{
    for place in 0..ranks.len() {
        match draw(worker, drawer, nth) {
            Ok(rank) => ranks[place] = rank,
            Err(End::Drained) => return Ok(place),
            Err(other) => return Err(other),
        }
    }
    Ok(ranks.len())
}

/// Makes the first parcels those of the ranks, in order.
pub(crate) fn expand_each<'a, B: LockedBook>(
    shared: &Shared<'_, 'a, B>,
    ranks: &[u64],
    scratch: &mut Scratch,
    parcels: &mut [Parcel<'a>],
)
    requires within { AreRanks shared.now.layer ranks.now }
    requires room { scratch.old.size ≡ length shared.now.layer.level.board.cells }
    requires fits { length ranks.now ≤ length parcels.old }
    ensures expanded { AreExpanded shared.now.layer ranks.now (length ranks.now) parcels.new }
    ensures size { scratch.new.size ≡ scratch.old.size }
{
    for (place, rank) in ranks.iter().enumerate() {
        expand_into(shared, *rank, scratch, &mut parcels[place]);
    }
}

// Fills a parcel with the successors of a rank, and deals them to the shares of the books.
fn expand_into<'a, B: LockedBook>(
    shared: &Shared<'_, 'a, B>,
    rank: u64,
    scratch: &mut Scratch,
    parcel: &mut Parcel<'a>,
)
    requires within { rank < length shared.now.layer.places }
    requires room { scratch.old.size ≡ length shared.now.layer.level.board.cells }
    ensures of { IsParcelOfRank shared.now.layer rank parcel.new }
    ensures size { scratch.new.size ≡ scratch.old.size }
{
    expand_over_into(shared.problem, shared.layer, rank, scratch, parcel);
    parcel.deal(shares_of(shared.books.len()));
}

// The number of shares for a number of books: the same, or 0 if that is too many.
fn shares_of(books: usize) -> u8 {
    if books <= MAX_SHARES as usize {
        books as u8
    } else {
        0
    }
}
