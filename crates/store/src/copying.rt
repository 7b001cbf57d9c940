//! Copies entries of a map into lists of squares and of origins.
ghost use Rattle.std.specs.Prelude.{◌≡◌, ◌+◌, ◌++◌, ◌≤◌, [], IfOk, OnOk, drop, length, map, take};
ghost use Rattle.store.specs.Entries.{origins_of};
ghost use Rattle.store.specs.inside.Copies.{IsCopied, squares_of};

use crate::key::Key;
use crate::origin::{ClosedOrigin, Origin};
use grid::{MAX_BOXES, Square};
use indexmap::IndexMap;
use std::alloc::{AllocError, Global};

/// Appends the squares of a position, and its origin if it has one. Fails only if out of memory.
pub(crate) fn copy_entry<const N: usize, const M: usize>(
    key: &Key<N, M>,
    origin: ClosedOrigin,
    squares: &mut Vec<Square>,
    origins: &mut Vec<Origin>,
) -> Result<(), AllocError>
    requires { (N ≤ MAX_BOXES + 1) × (M ≤ MAX_BOXES + 1) }
    ensures { OnOk result
        (IsCopied (key.now, origin) squares.old.items squares.new.items origins.old.items origins.new.items) }
{
    let mut row = [Square(0); N];
    let count = key.write_squares(&mut row);
    squares.extend_from_slice(&row[..count])?;
    if let Some(origin) = origin.get() {
        origins.push(origin)?;
    }
    Ok(())
}

/// An empty list with capacity for `squares` squares. It reuses `memory`, unless that has more than twice the capacity.
/// Fails only if out of memory.
pub fn recycled(
    alloc: Global,
    memory: Vec<Square>,
    squares: usize,
) -> Result<Vec<Square>, AllocError>
    ensures { IfOk result (λ list. list.items ≡ []) }
{
    if memory.capacity() / 2 > squares {
        return Vec::with_capacity(alloc, squares);
    }
    let mut list = memory;
    list.clear();
    list.reserve_exact(squares)?;
    Ok(list)
}

/// Copies the squares of a map's positions from index `from` up to `to`, in `memory` as [`recycled`] does, and the
/// origins of those that have one. The positions have at most `boxes` boxes. Fails only if out of memory.
pub(crate) fn copy_from<const N: usize, const M: usize>(
    alloc: Global,
    table: &IndexMap<Key<N, M>, ClosedOrigin>,
    boxes: usize,
    from: usize,
    to: usize,
    memory: Vec<Square>,
) -> Result<(Vec<Square>, Vec<Origin>), AllocError>
    requires width { (N ≤ MAX_BOXES + 1) × (M ≤ MAX_BOXES + 1) }
    requires order { from ≤ to }
    requires within { to ≤ length table.now.entries }
    requires boxes { boxes ≤ MAX_BOXES }
    ensures squares { IfOk result
        (λ r. r.0.items ≡ squares_of (map (λ e. e.0) (drop from (take to table.now.entries)))) }
    ensures origins { IfOk result (λ r. r.1.items ≡ origins_of (drop from (take to table.now.entries))) }
{
    let count = to - from;
    let mut squares = recycled(alloc, memory, count.saturating_mul(boxes + 1))?;
    let mut origins = Vec::with_capacity(alloc, count)?;
    for index in from..to {
        if let Some((key, origin)) = table.get_index(index) {
            copy_entry(key, *origin, &mut squares, &mut origins)?;
        }
    }
    Ok((squares, origins))
}
