//! Closes the open positions of a map, which follow the closed ones: sorts them by their origins.
ghost use Rattle.std.specs.Prelude.{◌≡◌, ◌+◌, ◌<◌, ◌≤◌, length, map, true, slice_get, Some, OnOk, OnErr, IfOk};
ghost use Rattle.std.specs.Prelude.{IsPermutation};
ghost use Rattle.std.specs.List.{IsDistinct};
ghost use Rattle.grid.specs.Board.{push_cmp};
ghost use Rattle.store.specs.Entries.{origin_cmp, same_scene, Closed};
ghost use Rattle.store.specs.Entering.{RiseByOrigin, IsSortedAppend};
ghost use Rattle.store.specs.FoundView.{IsFound, open_of, origin_in, seen_of};
ghost use Rattle.store.specs.inside.Placing.{AreApart, AreBrought, AreTargets, HaveAllPlaces, RowsRise, rows_of};

use crate::key::Key;
use crate::origin::{ClosedOrigin, Origin};
use grid::MAX_BOXES;
use indexmap::IndexMap;
use std::alloc::{AllocError, Global};
use std::cmp::Ordering;

/// Sorts the open positions, which are those from `start` on, by their origins. Fails only if out of memory, and then
/// changes nothing.
pub(crate) fn arrange<const N: usize, const M: usize>(
    table: &mut IndexMap<Key<N, M>, ClosedOrigin>,
    start: usize,
) -> Result<(), AllocError>
    requires width { (N ≤ MAX_BOXES + 1) × (M ≤ MAX_BOXES + 1) }
    requires found { IsFound start table.old.entries }
    ensures ok { OnOk result
        (IsSortedAppend (seen_of start table.old.entries) (open_of start table.old.entries) table.new.entries) }
    ensures err { OnErr result (table.new.entries ≡ table.old.entries) }
{
    if do_rise(table, start) {
        return Ok(());
    }
    let mut rows = rows_from(table, start)?;
    sort_rows(&mut rows);
    let targets = targets_of(*table.allocator(), rows.as_slice())?;
    exchange(table, start, targets);
    Ok(())
}

// Whether the open positions are sorted already, as they are if workers handed the ranks back in order.
fn do_rise<const N: usize, const M: usize>(
    table: &IndexMap<Key<N, M>, ClosedOrigin>,
    start: usize,
) -> bool
    requires width { (N ≤ MAX_BOXES + 1) × (M ≤ MAX_BOXES + 1) }
    requires within { start ≤ length table.now.entries }
    ensures rise { result ≡ true → RiseByOrigin (open_of start table.now.entries) }
    ensures distinct { IsDistinct same_scene (map (λ e. e.0) table.now.entries) }
{
    let mut last = ClosedOrigin::of(None).opened();
    for index in start..table.len() {
        let origin = origin_at(table, index);
        if origin.is_before(last) {
            return false;
        }
        last = origin;
    }
    true
}

// The origin of the open position at an index of the map.
fn origin_at<const N: usize, const M: usize>(
    table: &IndexMap<Key<N, M>, ClosedOrigin>,
    index: usize,
) -> Origin
    requires width { (N ≤ MAX_BOXES + 1) × (M ≤ MAX_BOXES + 1) }
    requires within { index < length table.now.entries }
    ensures { (e : Closed) → slice_get table.now.entries index ≡ Some e → result ≡ origin_in e.1 }
{
    let Some((_, closed)) = table.get_index(index) else {
        unreachable!()
    };
    closed.opened()
}

// A row for each open position: its origin, and its index among the open positions.
fn rows_from<const N: usize, const M: usize>(
    table: &IndexMap<Key<N, M>, ClosedOrigin>,
    start: usize,
) -> Result<Vec<(Origin, usize)>, AllocError>
    requires width { (N ≤ MAX_BOXES + 1) × (M ≤ MAX_BOXES + 1) }
    requires within { start ≤ length table.now.entries }
    ensures { IfOk result (λ rows. rows.items ≡ rows_of 0 (open_of start table.now.entries)) }
{
    let mut rows = Vec::with_capacity(*table.allocator(), table.len() - start)?;
    for index in start..table.len() {
        rows.push((origin_at(table, index), index - start))?;
    }
    Ok(rows)
}

// Sorts rows by their origins.
fn sort_rows(rows: &mut Vec<(Origin, usize)>)
    ensures sorted { RowsRise rows.new.items }
    ensures same { IsPermutation rows.old.items rows.new.items }
{
    rows.sort_unstable_by(
        |row: &(Origin, usize), other: &(Origin, usize)| -> Ordering
            ensures { result ≡ origin_cmp push_cmp row.now.0 other.now.0 }
        { row.0.compare(other.0) },
    );
}

// The target of each index: the index of its row.
fn targets_of(alloc: Global, rows: &[(Origin, usize)]) -> Result<Vec<usize>, AllocError>
    requires { HaveAllPlaces rows.now }
    ensures { IfOk result (λ targets. AreTargets rows.now targets.items) }
{
    let mut targets = vec![in alloc; 0; rows.len()]?;
    for target in 0..rows.len() {
        let (_, index) = rows[target];
        targets[index] = target;
    }
    Ok(targets)
}

// Moves each entry from `start` on to its target by swaps.
fn exchange<const N: usize, const M: usize>(
    table: &mut IndexMap<Key<N, M>, ClosedOrigin>,
    start: usize,
    targets: Vec<usize>,
)
    requires width { (N ≤ MAX_BOXES + 1) × (M ≤ MAX_BOXES + 1) }
    requires all { length table.old.entries ≡ start + length targets.items }
    requires apart { AreApart targets.items }
    ensures { AreBrought start table.old.entries targets.items table.new.entries }
{
    let open = table.len() - start;
    let mut targets = targets;
    let mut index = 0;
    while index < open {
        let target = targets[index];
        if target == index {
            index += 1;
        } else {
            table.swap_indices(start + index, start + target);
            targets.swap(index, target);
        }
    }
}
