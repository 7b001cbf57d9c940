//! The positions that a book has found, in keys of one width. A map holds the closed positions, followed by the open
//! ones. A list holds the pending offers, which are not in the map yet.
ghost use Rattle.std.specs.Prelude.{◌≡◌, ℕ, ◌+◌, ◌<◌, ◌≤◌, [], length, map, drop, nat_lt, option_map, slice_get, IfOk};
ghost use Rattle.std.specs.Prelude.{IfSome, OnOk, OnErr, Some};
ghost use Rattle.store.specs.Entries.{Closed, origins_of};
ghost use Rattle.store.specs.Entering.{IsSortedAppend};
ghost use Rattle.store.specs.FoundView.{AllFit, FitsGrid, first_entries, origin_in, with_entered};
ghost use Rattle.store.specs.inside.Copies.{IsCopied, squares_of};
ghost use Rattle.store.specs.inside.KeyRows.{SuitsLevel};

use crate::closing::arrange;
use crate::copying::{copy_entry, copy_from};
use crate::entering::{count_new, enter_all};
use crate::key::Key;
use crate::origin::{ClosedOrigin, MOST_RANKS, Origin};
use crate::pending::{append_parcel, reserve};
use grid::{MAX_BOXES, Position, Square};
use indexmap::IndexMap;
use std::alloc::{AllocError, Global};
use std::marker::Model;
use successors::{Parcel, Successor};

/// The positions that a book has found, in keys with `N` low bytes and `M` high ones.
#[derive(Drop)]
pub(crate) struct PositionTable<const N: usize, const M: usize> {
    // the map has capacity for the pending offers
    pending: Vec<(Key<N, M>, Origin)>,
    table: IndexMap<Key<N, M>, ClosedOrigin>,
    // the index of the first open position
    start: usize,
    boxes: usize,
    squares: usize,
}

impl<const N: usize, const M: usize> Model for PositionTable<N, M> {
    ghost use Rattle.std.specs.Prelude.{◌+◌, ◌≤◌, length};
    ghost use Rattle.indexmap.specs.IndexMap.{spare};
    ghost use Rattle.store.specs.FoundView.{FoundView, IsFound, found_view};
    ghost use Rattle.store.specs.inside.KeyRows.{SuitsLevel};

    ghost Value = { FoundView };

    ghost view = { λ a. found_view a.boxes a.squares a.start a.table.entries a.pending.items };

    ghost use Rattle.grid.specs.declared.limits.TheConstants.{MAX_BOXES};

    ghost invariant = { λ a. ((N ≤ MAX_BOXES + 1) × (M ≤ MAX_BOXES + 1))
        × SuitsLevel N M a.boxes a.squares
        × IsFound a.start a.table.entries
        × (length a.pending.items ≤ spare a.table) };
}

impl<const N: usize, const M: usize> PositionTable<N, M> {
    /// Starts with one closed position or none. Fails only if out of memory.
    #[tactic(auto, using(crate::proofs::Bytes::suits))]
    pub(crate) fn of(
        alloc: Global,
        boxes: usize,
        squares: usize,
        first: &Option<Position>,
    ) -> Result<PositionTable<N, M>, AllocError>
        requires width { (N ≤ MAX_BOXES + 1) × (M ≤ MAX_BOXES + 1) }
        requires suits { SuitsLevel N M boxes squares }
        requires few { IfSome first.now (FitsGrid boxes squares) }
        ensures boxes { IfOk result (λ table. table.boxes ≡ boxes) }
        ensures squares { IfOk result (λ table. table.squares ≡ squares) }
        ensures seen { IfOk result (λ table. table.seen ≡ first_entries first.now) }
        ensures waiting { IfOk result (λ table. table.waiting ≡ []) }
    {
        let mut table = IndexMap::new(alloc);
        if let Some(position) = first {
            if table
                .insert(Key::of(position), ClosedOrigin::of(None))
                .is_err()
            {
                drop(table);
                return Err(AllocError);
            }
        }
        let start = table.len();
        Ok(PositionTable {
            boxes,
            squares,
            table,
            start,
            pending: Vec::new(alloc),
        })
    }

    /// The number of closed positions.
    pub(crate) fn closed_len(&self) -> usize
        ensures { result ≡ length self.now.seen }
    {
        self.start
    }

    /// The closed position at an index; `None` exactly if the index is not below [`PositionTable::closed_len`].
    pub(crate) fn closed_at(&self, index: usize) -> Option<Position>
        ensures { result ≡ option_map (λ e. e.0) (slice_get self.now.seen index) }
    {
        if index >= self.start {
            return None;
        }
        let (key, _) = self.table.get_index(index)?;
        Some(key.position())
    }

    /// The origin of the closed position at an index, or the least origin if it has none; `None` exactly if the index
    /// is not below [`PositionTable::closed_len`].
    pub(crate) fn origin_at(&self, index: usize) -> Option<Origin>
        ensures { result ≡ option_map (λ e. origin_in e.1) (slice_get self.now.seen index) }
    {
        if index >= self.start {
            return None;
        }
        let (_, origin) = self.table.get_index(index)?;
        Some(origin.opened())
    }

    /// Appends the squares of the closed position at an index, and its origin if it has one. Fails only if out of
    /// memory.
    pub(crate) fn copy_at(
        &self,
        index: usize,
        squares: &mut Vec<Square>,
        origins: &mut Vec<Origin>,
    ) -> Result<(), AllocError>
        requires { index < length self.now.seen }
        ensures { OnOk result ((e : Closed) → slice_get self.now.seen index ≡ Some e →
            IsCopied e squares.old.items squares.new.items origins.old.items origins.new.items) }
    {
        let Some((key, origin)) = self.table.get_index(index) else {
            unreachable!()
        };
        copy_entry(key, *origin, squares, origins)
    }

    /// Copies the squares of the closed positions from an index on, in `memory` as [`recycled`](crate::recycled) does,
    /// and the origins of those that have one. Fails only if out of memory.
    pub(crate) fn closed_from(
        &self,
        alloc: Global,
        from: usize,
        memory: Vec<Square>,
    ) -> Result<(Vec<Square>, Vec<Origin>), AllocError>
        requires { from ≤ length self.now.seen }
        ensures squares { IfOk result (λ r. r.0.items ≡ squares_of (map (λ e. e.0) (drop from self.now.seen))) }
        ensures origins { IfOk result (λ r. r.1.items ≡ origins_of (drop from self.now.seen)) }
    {
        copy_from(alloc, &self.table, self.boxes, from, self.start, memory)
    }

    /// Whether there would be more than `limit` positions if the successors of the share entered.
    pub(crate) fn passes(
        &mut self,
        limit: usize,
        share: u8,
        shares: u8,
        successors: &[Successor],
    ) -> bool
        requires shares { 0 < shares }
        requires few { AllFit self.old successors.now }
        requires within { length self.old.seen + length self.old.waiting ≤ limit }
        ensures passed { (rank : ℕ) →
            result ≡ nat_lt limit
            (length self.old.seen + length (with_entered self.old shares share rank successors.now).waiting) }
        ensures same { self.new ≡ self.old }
    {
        let left = limit - self.table.len();
        if self.pending.len() + successors.len() <= left {
            return false;
        }
        enter_all(&mut self.table, self.start, &mut self.pending);
        let left = limit - self.table.len();
        count_new(&self.table, self.start, share, shares, successors) > left
    }

    /// Offers those successors of the parcel that belong to the share, in their order. The new offers stay pending; if
    /// there are at least `most` pending ones before, these enter first. Fails only if out of memory, and then changes nothing.
    pub(crate) fn enter_all(
        &mut self,
        most: usize,
        share: u8,
        shares: u8,
        parcel: &Parcel<'_>,
    ) -> Result<(), AllocError>
        requires share { share < shares }
        requires rank { parcel.now.rank < MOST_RANKS }
        requires few { AllFit self.old parcel.now.successors }
        ensures ok { OnOk result (self.new ≡ with_entered self.old shares share parcel.now.rank parcel.now.successors) }
        ensures err { OnErr result (self.new ≡ self.old) }
    {
        let successors = parcel.successors();
        reserve(
            &mut self.table,
            self.start,
            &mut self.pending,
            most,
            successors,
        )?;
        append_parcel(&mut self.pending, share, shares, parcel);
        Ok(())
    }

    /// The number of positions. Enters the pending offers first.
    pub(crate) fn count(&mut self) -> usize
        ensures count { result ≡ length self.old.seen + length self.old.waiting }
        ensures same { self.new ≡ self.old }
    {
        enter_all(&mut self.table, self.start, &mut self.pending);
        self.table.len()
    }

    /// Enters the pending offers if there are at least `least`, and returns whether it did.
    pub(crate) fn enter_pending(&mut self, least: usize) -> bool
        ensures { self.new ≡ self.old }
    {
        if self.pending.len() < least {
            return false;
        }
        enter_all(&mut self.table, self.start, &mut self.pending);
        true
    }

    /// The number of positions without those of pending offers.
    pub(crate) fn count_entered(&self) -> usize
        ensures { result ≤ length self.now.seen + length self.now.waiting }
    {
        self.table.len()
    }

    /// Closes the open positions in the order of their origins. Fails only if out of memory, and then changes nothing.
    pub(crate) fn close(&mut self) -> Result<(), AllocError>
        ensures boxes { self.new.boxes ≡ self.old.boxes }
        ensures squares { self.new.squares ≡ self.old.squares }
        ensures seen { OnOk result (IsSortedAppend self.old.seen self.old.waiting self.new.seen) }
        ensures waiting { OnOk result (self.new.waiting ≡ []) }
        ensures err { OnErr result (self.new ≡ self.old) }
    {
        let start = self.start;
        enter_all(&mut self.table, start, &mut self.pending);
        arrange(&mut self.table, start)?;
        self.start = self.table.len();
        Ok(())
    }
}
