//! The positions that a search has visited, with a label each.
ghost use Rattle.std.specs.Prelude.{◌≡◌, ◌<◌, ◌≤◌, [], length, map, slice_get, slice_set, IfOk, OnErr, Some};
ghost use Rattle.store.specs.FoundView.{FitsGrid};
ghost use Rattle.store.specs.Places.{IsPlaceOf};
ghost use Rattle.store.specs.Visited.{Node, HasEntered, entry_of, with_least};
ghost use Rattle.successors.specs.Distances.{AreDistinct};

use crate::labels::Labels;
use crate::widths::{in_each, of_width};
use grid::{MAX_BOXES, Position, Push};
use std::alloc::{AllocError, Global};
use std::marker::Model;

/// What a search notes about a position.
#[derive(Clone, Copy)]
pub struct Label {
    /// The number of pushes that lead to it.
    pub pushes: u32,
    /// The least total of pushes for which it still has to be expanded. `None` once it is closed.
    pub least: Option<u32>,
    /// The position before the last push, and that push. `None` for the start.
    pub parent: Option<Parent>,
}

/// A position, by its place among the visited ones, and a push that was made there.
#[derive(Clone, Copy)]
pub struct Parent {
    /// The place of the position.
    pub place: u32,
    /// The push.
    pub push: Push,
}

// Positions with their labels, in keys of one of the widths.
#[derive(Drop)]
pub(crate) enum AnyLabels {
    NarrowLow(Labels<4, 0>),
    MiddleLow(Labels<12, 0>),
    HalfLow(Labels<20, 0>),
    WideLow(Labels<28, 0>),
    BroadLow(Labels<36, 0>),
    WidestLow(Labels<65, 0>),
    Narrow(Labels<4, 4>),
    Middle(Labels<12, 12>),
    Half(Labels<20, 20>),
    Wide(Labels<28, 28>),
    Broad(Labels<36, 36>),
    Widest(Labels<65, 65>),
}

/// The positions that a search has visited, each once, in the order in which they first entered, and the label of
/// each. Places count from 0.
#[derive(Drop)]
pub struct Visited {
    labels: AnyLabels,
}

impl Model for Visited {
    ghost use Rattle.store.specs.Visited.{VisitedView};
    ghost use Rattle.store.specs.Widths.{labels_view};

    ghost Value = { VisitedView };

    ghost view = { λ a. labels_view a.labels };
}

impl Visited {
    /// An empty list for positions with at most `boxes` boxes on a grid of `squares` squares. `boxes` is at most
    /// [`MAX_BOXES`](grid::MAX_BOXES). Takes no memory.
    pub fn of(alloc: Global, boxes: usize, squares: usize) -> Visited
        requires { boxes ≤ MAX_BOXES }
        ensures boxes { result.boxes ≡ boxes }
        ensures squares { result.squares ≡ squares }
        ensures entries { result.entries ≡ [] }
    {
        let labels = of_width!(AnyLabels, boxes, squares, Labels::of(alloc, boxes, squares));
        Visited { labels }
    }

    /// The number of positions.
    pub fn len(&self) -> usize
        ensures { result ≡ length self.now.entries }
    {
        in_each!(AnyLabels, &self.labels, labels => labels.len())
    }

    /// States that no position has two places. It does nothing and is there for proofs.
    pub fn tell(&self)
        ensures { AreDistinct (map (λ x. x.position) self.now.entries) }
    {
        in_each!(AnyLabels, &self.labels, labels => labels.tell())
    }

    /// The position at a place below [`Visited::len`].
    pub fn position(&self, place: usize) -> Position
        requires { place < length self.now.entries }
        ensures { (x : Node) → slice_get self.now.entries place ≡ Some x → result ≡ x.position }
    {
        in_each!(AnyLabels, &self.labels, labels => labels.position(place))
    }

    /// The label of the position at a place below [`Visited::len`].
    pub fn label(&self, place: usize) -> Label
        requires { place < length self.now.entries }
        ensures { (x : Node) → slice_get self.now.entries place ≡ Some x → (result.pushes ≡ x.pushes) ×
            (result.least ≡ x.least) × (result.parent ≡ x.parent) }
    {
        in_each!(AnyLabels, &self.labels, labels => labels.label(place))
    }

    /// The place of a position. `None` if it was never entered.
    ///
    /// The position has at most as many boxes and squares as [`Visited::of`] was given.
    pub fn find(&self, position: &Position) -> Option<usize>
        requires fits { FitsGrid self.now.boxes self.now.squares position.now }
        ensures { IsPlaceOf self.now.entries position.now result }
    {
        in_each!(AnyLabels, &self.labels, labels => labels.find(position))
    }

    /// Enters a position with a label and returns its place. A new position comes last. A position with more pushes
    /// in its label keeps its place and gets this one. Otherwise it changes nothing and returns `None`.
    ///
    /// The position has at most as many boxes and squares as [`Visited::of`] was given. The only error is running out
    /// of memory. Then nothing changes.
    pub fn enter(&mut self, position: &Position, label: Label) -> Result<Option<usize>, AllocError>
        requires fits { FitsGrid self.old.boxes self.old.squares position.now }
        ensures boxes { self.new.boxes ≡ self.old.boxes }
        ensures squares { self.new.squares ≡ self.old.squares }
        ensures ok { IfOk result
            (λ place. HasEntered self.old.entries self.new.entries (entry_of (position.now, label)) place) }
        ensures err { OnErr result (self.new.entries ≡ self.old.entries) }
    {
        in_each!(AnyLabels, &mut self.labels, labels => labels.enter(position, label))
    }

    /// Sets the least total of the position at a place below [`Visited::len`]. `None` closes it.
    pub fn set_least(&mut self, place: usize, least: Option<u32>)
        requires { place < length self.old.entries }
        ensures boxes { self.new.boxes ≡ self.old.boxes }
        ensures squares { self.new.squares ≡ self.old.squares }
        ensures set { (x : Node) → slice_get self.old.entries place ≡ Some x →
            self.new.entries ≡ slice_set self.old.entries place (with_least least x) }
    {
        in_each!(AnyLabels, &mut self.labels, labels => labels.set_least(place, least))
    }
}
