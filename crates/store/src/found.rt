//! The positions that a book of `layers` has found.
ghost use Rattle.std.specs.Prelude.{◌≡◌, ℕ, ◌+◌, ◌<◌, ◌≤◌, [], length, map, drop, nat_lt, option_map, slice_get, IfOk};
ghost use Rattle.std.specs.Prelude.{IfSome, OnOk, OnErr, Some};
ghost use Rattle.store.specs.Entries.{Closed, origins_of};
ghost use Rattle.store.specs.Entering.{IsSortedAppend};
ghost use Rattle.store.specs.FoundView.{AllFit, FitsGrid, first_entries, origin_in, with_entered};
ghost use Rattle.store.specs.inside.Copies.{IsCopied, squares_of};

use crate::origin::{MOST_RANKS, Origin};
use crate::table::PositionTable;
use crate::widths::{in_each, of_width};
use grid::{MAX_BOXES, Position, Square};
use std::alloc::{AllocError, Global};
use std::marker::Model;
use successors::{Parcel, Successor};

// The positions found, in keys of one width.
#[derive(Drop)]
pub(crate) enum Tables {
    NarrowLow(PositionTable<4, 0>),
    MiddleLow(PositionTable<12, 0>),
    HalfLow(PositionTable<20, 0>),
    WideLow(PositionTable<28, 0>),
    BroadLow(PositionTable<36, 0>),
    WidestLow(PositionTable<65, 0>),
    Narrow(PositionTable<4, 4>),
    Middle(PositionTable<12, 12>),
    Half(PositionTable<20, 20>),
    Wide(PositionTable<28, 28>),
    Broad(PositionTable<36, 36>),
    Widest(PositionTable<65, 65>),
}

/// The positions that a book has found: the closed ones at fixed indices, and the open ones, each with an origin.
/// Offers may be pending: accepted, and entered later with others. Contracts show them as entered.
#[derive(Drop)]
pub struct Found {
    tables: Tables,
}

impl Model for Found {
    ghost use Rattle.store.specs.FoundView.{FoundView};
    ghost use Rattle.store.specs.Widths.{tables_view};

    ghost Value = { FoundView };

    ghost view = { λ a. tables_view a.tables };
}

impl Found {
    /// Starts with one closed position without an origin, or with none. Positions have at most `boxes` boxes, on a grid
    /// of `squares` squares. Fails only if out of memory.
    pub fn of(
        alloc: Global,
        boxes: usize,
        squares: usize,
        first: &Option<Position>,
    ) -> Result<Found, AllocError>
        requires bound { boxes ≤ MAX_BOXES }
        requires few { IfSome first.now (FitsGrid boxes squares) }
        ensures boxes { IfOk result (λ found. found.boxes ≡ boxes) }
        ensures squares { IfOk result (λ found. found.squares ≡ squares) }
        ensures seen { IfOk result (λ found. found.seen ≡ first_entries first.now) }
        ensures waiting { IfOk result (λ found. found.waiting ≡ []) }
    {
        let tables = of_width!(
            Tables,
            boxes,
            squares,
            PositionTable::of(alloc, boxes, squares, first)?
        );
        Ok(Found { tables })
    }

    /// The number of closed positions.
    pub fn closed_len(&self) -> usize
        ensures { result ≡ length self.now.seen }
    {
        in_each!(Tables, &self.tables, table => table.closed_len())
    }

    /// The closed position at an index; `None` exactly if the index is not below [`Found::closed_len`].
    pub fn closed_at(&self, index: usize) -> Option<Position>
        ensures { result ≡ option_map (λ e. e.0) (slice_get self.now.seen index) }
    {
        in_each!(Tables, &self.tables, table => table.closed_at(index))
    }

    /// The origin of the closed position at an index, or the least origin if it has none; `None` exactly if the index
    /// is not below [`Found::closed_len`].
    pub fn origin_at(&self, index: usize) -> Option<Origin>
        ensures { result ≡ option_map (λ e. origin_in e.1) (slice_get self.now.seen index) }
    {
        in_each!(Tables, &self.tables, table => table.origin_at(index))
    }

    /// Appends the squares of the closed position at an index, and its origin if it has one. Fails only if out of
    /// memory.
    pub fn copy_at(
        &self,
        index: usize,
        squares: &mut Vec<Square>,
        origins: &mut Vec<Origin>,
    ) -> Result<(), AllocError>
        requires { index < length self.now.seen }
        ensures { OnOk result ((e : Closed) → slice_get self.now.seen index ≡ Some e →
            IsCopied e squares.old.items squares.new.items origins.old.items origins.new.items) }
    {
        in_each!(Tables, &self.tables, table => table.copy_at(index, squares, origins))
    }

    /// Copies the squares of the closed positions from an index on, in `memory` as [`recycled`] does, and the origins
    /// of those that have one. Fails only if out of memory.
    pub fn closed_from(
        &self,
        alloc: Global,
        from: usize,
        memory: Vec<Square>,
    ) -> Result<(Vec<Square>, Vec<Origin>), AllocError>
        requires { from ≤ length self.now.seen }
        ensures squares { IfOk result (λ r. r.0.items ≡ squares_of (map (λ e. e.0) (drop from self.now.seen))) }
        ensures origins { IfOk result (λ r. r.1.items ≡ origins_of (drop from self.now.seen)) }
    {
        in_each!(Tables, &self.tables, table => table.closed_from(alloc, from, memory))
    }

    /// Whether there would be more than `limit` closed and open positions if the successors of the share entered.
    #[tactic(auto, using(crate::proofs::Bytes::carried))]
    pub fn passes(&mut self, limit: usize, share: u8, shares: u8, successors: &[Successor]) -> bool
        requires shares { 0 < shares }
        requires few { AllFit self.old successors.now }
        requires within { length self.old.seen + length self.old.waiting ≤ limit }
        ensures passed { (rank : ℕ) →
            result ≡ nat_lt limit
            (length self.old.seen + length (with_entered self.old shares share rank successors.now).waiting) }
        ensures same { self.new ≡ self.old }
    {
        in_each!(Tables, &mut self.tables, table => table.passes(limit, share, shares, successors))
    }

    /// Offers those successors of the parcel that belong to the share, in their order. A new position opens with the
    /// parcel's rank and its push as its origin, and an open one keeps its least origin. The new offers stay pending;
    /// if there are at least `most` pending ones before, these enter first. Fails only if out of memory, and then
    /// changes nothing.
    #[tactic(auto, using(crate::proofs::Bytes::carried))]
    pub fn enter_all(
        &mut self,
        most: usize,
        share: u8,
        shares: u8,
        parcel: &Parcel<'_>,
    ) -> Result<(), AllocError>
        requires share { share < shares }
        requires rank { parcel.now.rank < MOST_RANKS }
        requires few { AllFit self.old parcel.now.successors }
        ensures ok { OnOk result (self.new ≡ with_entered self.old shares share parcel.now.rank parcel.now.successors) }
        ensures err { OnErr result (self.new ≡ self.old) }
    {
        in_each!(Tables, &mut self.tables, table => table.enter_all(most, share, shares, parcel))
    }

    /// The number of closed and open positions. Enters the pending offers first.
    pub fn count(&mut self) -> usize
        ensures count { result ≡ length self.old.seen + length self.old.waiting }
        ensures same { self.new ≡ self.old }
    {
        in_each!(Tables, &mut self.tables, table => table.count())
    }

    /// Enters the pending offers if there are at least `least`, and returns whether it did.
    pub fn enter_pending(&mut self, least: usize) -> bool
        ensures { self.new ≡ self.old }
    {
        in_each!(Tables, &mut self.tables, table => table.enter_pending(least))
    }

    /// The number of closed and open positions without those of pending offers.
    pub fn count_entered(&self) -> usize
        ensures { result ≤ length self.now.seen + length self.now.waiting }
    {
        in_each!(Tables, &self.tables, table => table.count_entered())
    }

    /// Closes the open positions in the order of their origins. Fails only if out of memory, and then changes nothing.
    pub fn close(&mut self) -> Result<(), AllocError>
        ensures boxes { self.new.boxes ≡ self.old.boxes }
        ensures squares { self.new.squares ≡ self.old.squares }
        ensures seen { OnOk result (IsSortedAppend self.old.seen self.old.waiting self.new.seen) }
        ensures waiting { OnOk result (self.new.waiting ≡ []) }
        ensures err { OnErr result (self.new ≡ self.old) }
    {
        in_each!(Tables, &mut self.tables, table => table.close())
    }
}
