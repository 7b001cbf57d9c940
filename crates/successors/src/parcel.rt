ghost use Rattle.std.specs.Prelude.{◌≡◌, ◌↔◌, ◌<◌, [], IfSome, IsTrue};
ghost use Rattle.successors.specs.ParcelView.{IsParcel};
ghost use Rattle.successors.specs.inside.Dealt.{successor_places};
ghost use Rattle.successors.specs.inside.Sums.{AreSums};

use crate::dealing::{Deal, MOST_DEALT};
use crate::limits::MAX_SUCCESSORS;
use crate::problem::Problem;
use arrayvec::ArrayVec;
use doom::Dangers;
use grid::{Level, Position, Push};
use std::marker::Model;

/// A successor of a position: the push that leads there, and the normal position after that push.
#[derive(Default, Drop)]
pub struct Successor {
    pub push: Push,
    pub position: Position,
}

/// Successors, and beside each the sum of its squares. A parcel counts how many of the first slots are in use; the
/// others are there to be overwritten.
#[derive(Drop)]
pub(crate) struct Slots {
    pub(crate) sums: ArrayVec<u32, MAX_SUCCESSORS>,
    pub(crate) successors: ArrayVec<Successor, MAX_SUCCESSORS>,
}

impl Slots {
    /// Empty lists.
    pub(crate) fn new() -> Slots
        ensures successors { result.successors.items ≡ [] }
        ensures sums { result.sums.items ≡ [] }
    {
        Slots {
            successors: ArrayVec::new(),
            sums: ArrayVec::new(),
        }
    }
}

/// The working memory of an expansion: the pushes to try, the squares where they may freeze a box, and the slots for
/// their successors.
#[derive(Drop)]
pub(crate) struct Buffers {
    pub(crate) pushes: ArrayVec<Push, MAX_SUCCESSORS>,
    pub(crate) dangers: Dangers,
    pub(crate) slots: Slots,
}

impl Buffers {
    /// Empty buffers.
    pub(crate) fn new() -> Buffers
        ensures successors { result.slots.successors.items ≡ [] }
        ensures sums { result.slots.sums.items ≡ [] }
    {
        Buffers {
            pushes: ArrayVec::new(),
            dangers: Dangers::unknown(),
            slots: Slots::new(),
        }
    }
}

/// The undoomed successors of a layer's position that the next layer admits, in the order of their pushes. It holds
/// them in slots of its own, so that a thread can fill the same parcel again and again.
#[derive(Drop)]
pub struct Parcel<'a> {
    pub(crate) level: &'a Level,
    pub(crate) cap: Option<u32>,
    pub(crate) layer: u64,
    pub(crate) rank: u64,
    // the first `count` slots are the successors and their sums
    pub(crate) count: usize,
    // how the successors are dealt to shares, if they are
    pub(crate) deal: Deal,
    // the last field, since most of its slots are unused, so that the fields that are read lie close together
    pub(crate) buffers: Buffers,
}

impl<'a> Model for Parcel<'a> {
    ghost use Rattle.std.specs.Prelude.{◌≤◌, length, take};
    ghost use Rattle.successors.specs.ParcelView.{ParcelView, IsParcel};
    ghost use Rattle.successors.specs.Capping.{capped};
    ghost use Rattle.successors.specs.inside.Dealt.{IsDealt};
    ghost use Rattle.successors.specs.inside.ParcelInside.{parcel_of};
    ghost use Rattle.successors.specs.inside.Sums.{AreSums};

    ghost Value = { ParcelView };

    ghost view = { λ a. parcel_of (capped a.level.now a.cap) a.layer a.rank a.buffers.slots.successors.items a.count };

    ghost invariant = { λ a. (a.count ≤ length a.buffers.slots.successors.items)
        × AreSums (take a.count a.buffers.slots.successors.items) (take a.count a.buffers.slots.sums.items)
        × IsDealt a.deal.shares a.deal.rows a.deal.lens (take a.count a.buffers.slots.sums.items)
        × IsParcel (parcel_of (capped a.level.now a.cap) a.layer a.rank a.buffers.slots.successors.items a.count) };
}

impl<'a> Parcel<'a> {
    /// A lemma: the parcel is that of its rank. It does nothing.
    #[doc(hidden)]
    pub fn tell(&self)
        ensures { IsParcel self.now }
    {
        let _ = &self.buffers;
    }

    /// The level.
    pub fn level(&self) -> &Level
        ensures { result.now ≡ self.now.level.board }
    {
        self.level
    }

    /// The greatest number of pushes of a solution. `None` if no cap is set.
    pub fn cap(&self) -> Option<u32>
        ensures { result ≡ self.now.level.cap }
    {
        self.cap
    }

    /// Whether the parcel is of this problem. Public for books, which accept only parcels of their own problem.
    pub fn is_of(&self, problem: &Problem) -> bool
        ensures { IsTrue result ↔ (problem.now ≡ self.now.level) }
    {
        problem.is_of(self.level, self.cap)
    }

    /// The number of the layer.
    pub fn layer(&self) -> u64
        ensures { result ≡ self.now.layer }
    {
        self.layer
    }

    /// The rank of the position that was expanded.
    pub fn rank(&self) -> u64
        ensures { result ≡ self.now.rank }
    {
        self.rank
    }

    /// The undoomed successors that the next layer admits, in the order of their pushes.
    pub fn successors(&self) -> &[Successor]
        ensures { result.now ≡ self.now.successors }
    {
        &self.buffers.slots.successors.as_slice()[..self.count]
    }

    /// The sum of the squares of each successor's position. Public for crates that store successors by their shares.
    pub fn sums(&self) -> &[u32]
        ensures { AreSums self.now.successors result.now }
    {
        &self.buffers.slots.sums.as_slice()[..self.count]
    }

    /// Deals the successors to `shares` shares, so that the book of a share can skip the successors of the others.
    /// Contracts see the same parcel after it.
    pub fn deal(&mut self, shares: u8)
        ensures { self.new ≡ self.old }
    {
        let sums = &self.buffers.slots.sums.as_slice()[..self.count];
        self.deal.deal(shares, sums);
    }

    /// The places of the successors of a share. `None` if the parcel is not dealt to `shares` shares. Public for
    /// crates that store successors by their shares.
    pub fn places(&self, share: u8, shares: u8) -> Option<&[u8]>
        requires { share < shares }
        ensures { IfSome result (λ places. places.now ≡ successor_places shares share self.now.successors) }
    {
        if self.deal.shares != shares {
            return None;
        }
        let from = share as usize * MOST_DEALT;
        let end = from + self.deal.lens[share as usize] as usize;
        Some(&self.deal.rows[from..end])
    }
}
