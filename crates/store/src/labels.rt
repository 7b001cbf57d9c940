//! The positions that a search has visited, in keys of one width.
ghost use Rattle.std.specs.Prelude.{◌≡◌, ◌+◌, ◌<◌, ◌≤◌, [], length, map, slice_get, slice_set, IfOk, OnErr, Some};
ghost use Rattle.store.specs.FoundView.{FitsGrid};
ghost use Rattle.store.specs.Places.{IsPlaceOf};
ghost use Rattle.store.specs.Visited.{Node, HasEntered, entries_of, entry_of, with_least};
ghost use Rattle.store.specs.inside.KeyRows.{SuitsLevel};
ghost use Rattle.successors.specs.Distances.{AreDistinct};

use crate::key::Key;
use crate::visited::Label;
use grid::{MAX_BOXES, Position};
use indexmap::IndexMap;
use indexmap::map::Entry::{Occupied, Vacant};
use std::alloc::{AllocError, Global};
use std::marker::Model;

/// Positions with their labels, in keys with `N` low bytes and `M` high ones.
#[derive(Drop)]
pub(crate) struct Labels<const N: usize, const M: usize> {
    map: IndexMap<Key<N, M>, Label>,
    boxes: usize,
    squares: usize,
}

impl<const N: usize, const M: usize> Model for Labels<N, M> {
    ghost use Rattle.std.specs.Prelude.{◌+◌, ◌≤◌};
    ghost use Rattle.grid.specs.declared.limits.TheConstants.{MAX_BOXES};
    ghost use Rattle.store.specs.Visited.{VisitedView, visited_view};
    ghost use Rattle.store.specs.inside.KeyRows.{SuitsLevel};

    ghost Value = { VisitedView };

    ghost view = { λ a. visited_view a.boxes a.squares a.map.entries };

    ghost invariant = { λ a. ((N ≤ MAX_BOXES + 1) × (M ≤ MAX_BOXES + 1)) × SuitsLevel N M a.boxes a.squares };
}

impl<const N: usize, const M: usize> Labels<N, M> {
    /// No positions.
    pub(crate) fn of(alloc: Global, boxes: usize, squares: usize) -> Labels<N, M>
        requires width { (N ≤ MAX_BOXES + 1) × (M ≤ MAX_BOXES + 1) }
        requires suits { SuitsLevel N M boxes squares }
        ensures boxes { result.boxes ≡ boxes }
        ensures squares { result.squares ≡ squares }
        ensures entries { result.entries ≡ [] }
    {
        Labels {
            map: IndexMap::new(alloc),
            boxes,
            squares,
        }
    }

    /// The number of positions.
    pub(crate) fn len(&self) -> usize
        ensures { result ≡ length self.now.entries }
    {
        self.map.len()
    }

    /// States that no position has two places. It does nothing and is there for proofs.
    pub(crate) fn tell(&self)
        ensures { AreDistinct (map (λ x. x.position) self.now.entries) }
    {
        let _ = self.map.len();
    }

    /// The position at a place.
    pub(crate) fn position(&self, place: usize) -> Position
        requires { place < length self.now.entries }
        ensures { (x : Node) → slice_get self.now.entries place ≡ Some x → result ≡ x.position }
    {
        let Some((key, _)) = self.map.get_index(place) else {
            unreachable!()
        };
        key.position()
    }

    /// The label of the position at a place.
    pub(crate) fn label(&self, place: usize) -> Label
        requires { place < length self.now.entries }
        ensures { (x : Node) → slice_get self.now.entries place ≡ Some x → (result.pushes ≡ x.pushes) ×
            (result.least ≡ x.least) × (result.parent ≡ x.parent) }
    {
        let Some((_, label)) = self.map.get_index(place) else {
            unreachable!()
        };
        *label
    }

    /// The place of a position, if it has one.
    pub(crate) fn find(&self, position: &Position) -> Option<usize>
        requires fits { FitsGrid self.now.boxes self.now.squares position.now }
        ensures { IsPlaceOf self.now.entries position.now result }
    {
        find(&self.map, &Key::of(position))
    }

    /// Enters a position that is new or has fewer pushes than before, and returns its place.
    pub(crate) fn enter(
        &mut self,
        position: &Position,
        label: Label,
    ) -> Result<Option<usize>, AllocError>
        requires fits { FitsGrid self.old.boxes self.old.squares position.now }
        ensures boxes { self.new.boxes ≡ self.old.boxes }
        ensures squares { self.new.squares ≡ self.old.squares }
        ensures ok { IfOk result
            (λ place. HasEntered self.old.entries self.new.entries (entry_of (position.now, label)) place) }
        ensures err { OnErr result (self.new.entries ≡ self.old.entries) }
    {
        enter(&mut self.map, Key::of(position), label)
    }

    /// Sets the least total of the position at a place. `None` closes it.
    pub(crate) fn set_least(&mut self, place: usize, least: Option<u32>)
        requires { place < length self.old.entries }
        ensures boxes { self.new.boxes ≡ self.old.boxes }
        ensures squares { self.new.squares ≡ self.old.squares }
        ensures set { (x : Node) → slice_get self.old.entries place ≡ Some x →
            self.new.entries ≡ slice_set self.old.entries place (with_least least x) }
    {
        self.map[place].least = least;
    }
}

// The place of a key, if it has one.
fn find<const N: usize, const M: usize>(
    map: &IndexMap<Key<N, M>, Label>,
    key: &Key<N, M>,
) -> Option<usize>
    requires width { (N ≤ MAX_BOXES + 1) × (M ≤ MAX_BOXES + 1) }
    ensures { IsPlaceOf (entries_of map.now.entries) key.now result }
{
    let place = map.get_index_of(key);
    place
}

// Enters a key that is new or has fewer pushes than before, and returns its place.
fn enter<const N: usize, const M: usize>(
    map: &mut IndexMap<Key<N, M>, Label>,
    key: Key<N, M>,
    label: Label,
) -> Result<Option<usize>, AllocError>
    requires width { (N ≤ MAX_BOXES + 1) × (M ≤ MAX_BOXES + 1) }
    ensures ok { IfOk result
        (λ place. HasEntered (entries_of map.old.entries) (entries_of map.new.entries) (entry_of (key.entry, label))
        place) }
    ensures err { OnErr result (map.new.entries ≡ map.old.entries) }
{
    match map.entry(key)? {
        Vacant(entry) => {
            let place = entry.index();
            let _ = entry.insert_entry(label);
            Ok(Some(place))
        }
        Occupied(mut entry) => {
            let known = entry.get();
            if known.pushes <= label.pushes {
                return Ok(None);
            }
            let place = entry.index();
            let _ = entry.insert(label);
            Ok(Some(place))
        }
    }
}
