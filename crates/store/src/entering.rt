//! Enters offers into the open positions of a map, which follow the closed ones.
ghost use Rattle.std.specs.Prelude.{◌≡◌, ℕ, ◌+◌, ◌<◌, ◌≤◌, ◌&&◌, ◌||◌, [], not, is_some, length};
ghost use Rattle.std.specs.Prelude.{fold};
ghost use Rattle.indexmap.specs.IndexMap.{spare};
ghost use Rattle.std.specs.List.{list_any};
ghost use Rattle.store.specs.Entries.{origin_of, same_scene};
ghost use Rattle.successors.specs.Shares.{share_of};
ghost use Rattle.store.specs.Entering.{is_wanted_in, entered};
ghost use Rattle.store.specs.inside.KeyRows.{AllSuit, Suits};
ghost use Rattle.store.specs.FoundView.{IsFound, StaysFound, all_let_in, let_in, open_of, seen_of};

use crate::batches::enter_in_batches;
use crate::key::Key;
use crate::origin::{ClosedOrigin, Origin};
use grid::{MAX_BOXES, Position};
use indexmap::IndexMap;
use indexmap::map::Entry;
use successors::{Successor, share_of};

/// Enters an offer by one look-up: an open position keeps the lesser origin, and a new one is appended. An offer of a
/// closed position, that is, of one before `start`, changes nothing.
#[inline(always)]
pub(crate) fn enter<const N: usize, const M: usize>(
    table: &mut IndexMap<Key<N, M>, ClosedOrigin>,
    start: usize,
    key: &Key<N, M>,
    origin: Origin,
)
    requires width { (N ≤ MAX_BOXES + 1) × (M ≤ MAX_BOXES + 1) }
    requires capacity { 0 < spare table.old }
    requires found { IsFound start table.old.entries }
    ensures found { IsFound start table.new.entries }
    ensures seen { seen_of start table.new.entries ≡ seen_of start table.old.entries }
    ensures waiting { open_of start table.new.entries ≡
        let_in (seen_of start table.old.entries) (open_of start table.old.entries) (key.now, origin) }
    ensures capacity { spare table.old ≤ spare table.new + 1 }
{
    match table.entry(key.copy()) {
        Ok(Entry::Vacant(entry)) => {
            let _ = entry.insert_entry(ClosedOrigin::of(Some(origin)));
        }
        Ok(Entry::Occupied(mut entry)) => {
            let known = entry.get();
            let index = entry.index();
            if index < start {
                return;
            }
            if !known.exceeds(origin) {
                return;
            }
            let _ = entry.insert(ClosedOrigin::of(Some(origin)));
        }
        Err(_) => unreachable!(),
    }
}

/// Enters all pending offers into the map. Contracts show pending offers as entered, so the positions found stay the
/// same.
pub(crate) fn enter_all<const N: usize, const M: usize>(
    table: &mut IndexMap<Key<N, M>, ClosedOrigin>,
    start: usize,
    pending: &mut Vec<(Key<N, M>, Origin)>,
)
    requires width { (N ≤ MAX_BOXES + 1) × (M ≤ MAX_BOXES + 1) }
    requires capacity { length pending.old.items ≤ spare table.old }
    requires found { IsFound start table.old.entries }
    ensures found { IsFound start table.new.entries }
    ensures same { StaysFound start table.old.entries pending.old.items table.new.entries [] }
    ensures empty { pending.new.items ≡ [] }
{
    enter_in_batches(table, start, pending.as_slice());
    pending.clear();
}

/// The number of positions that would open if the successors of the share entered.
pub(crate) fn count_new<const N: usize, const M: usize>(
    table: &IndexMap<Key<N, M>, ClosedOrigin>,
    start: usize,
    share: u8,
    shares: u8,
    successors: &[Successor],
) -> usize
    requires width { (N ≤ MAX_BOXES + 1) × (M ≤ MAX_BOXES + 1) }
    requires shares { 0 < shares }
    requires few { AllSuit N M successors.now }
    requires found { IsFound start table.now.entries }
    ensures { (rank : ℕ) → length
        (fold (entered (is_wanted_in (seen_of start table.now.entries) shares share) rank)
        (open_of start table.now.entries) successors.now) ≡
        length (open_of start table.now.entries) + result }
{
    let mut count = 0;
    for (index, successor) in successors.iter().enumerate() {
        if is_new(
            table,
            start,
            share,
            shares,
            &successors[..index],
            &successor.position,
        ) {
            count += 1;
        }
    }
    count
}

// Whether a successor would open a position that neither the map nor a successor before it has.
fn is_new<const N: usize, const M: usize>(
    table: &IndexMap<Key<N, M>, ClosedOrigin>,
    start: usize,
    share: u8,
    shares: u8,
    before: &[Successor],
    position: &Position,
) -> bool
    requires width { (N ≤ MAX_BOXES + 1) × (M ≤ MAX_BOXES + 1) }
    requires shares { 0 < shares }
    requires suits { Suits N M position.now }
    requires found { IsFound start table.now.entries }
    ensures { result ≡ (is_wanted_in (seen_of start table.now.entries) shares share position.now &&
        not (is_some (origin_of (open_of start table.now.entries) position.now) || list_any
        (λ s. same_scene s.position position.now) before.now)) }
{
    if share_of(position, shares) != share {
        return false;
    }
    let key: Key<N, M> = Key::of(position);
    if table.contains_key(&key) {
        return false;
    }
    !is_among(before, position)
}

// Whether one of the successors has the position.
fn is_among(successors: &[Successor], position: &Position) -> bool
    ensures { result ≡ list_any (λ s. same_scene s.position position.now) successors.now }
{
    successors.iter().any(|other| other.position == *position)
}
