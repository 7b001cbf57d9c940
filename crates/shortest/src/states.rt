//! All listed states.
ghost use Rattle.std.specs.Prelude.{◌≡◌, ◌<◌, length};
ghost use Rattle.grid.specs.States.{FitsLevel};
ghost use Rattle.prices.specs.Fewest.{NoneHasFewer};
ghost use Rattle.store.specs.Places.{IsPlaceOf};
ghost use Rattle.shortest.specs.inside.Listing.{AreAllExpanded, IsEntryAt, IsStateList};

use grid::{Level, Position};
use std::marker::Model;
use store::Visited;

/// A state that some play with this many pushes leads to.
#[derive(Drop)]
pub(crate) struct Reached {
    pub(crate) state: Position,
    pub(crate) pushes: u32,
}

/// The listed states of a level, and the fewest pushes of its solutions. Each state that may lie on a solution with
/// that number of pushes is listed.
#[derive(Drop)]
pub(crate) struct States<'a> {
    level: &'a Level,
    listed: &'a Visited,
    most: u32,
}

impl<'a> Model for States<'a> {
    ghost use Rattle.std.specs.Prelude.{◌≡◌, length};
    ghost use Rattle.grid.specs.Lawful.{box_count};
    ghost use Rattle.shortest.specs.inside.Listing.{AreAllExpanded, StatesView};

    ghost Value = { StatesView };

    ghost view = { λ a. record { board = a.level.now; most = a.most; entries = a.listed.now.entries } };

    ghost invariant = { λ a.
        AreAllExpanded (record { board = a.level.now; most = a.most; entries = a.listed.now.entries }) ×
        (a.listed.now.boxes ≡ box_count a.level.now) × (a.listed.now.squares ≡ length a.level.now.cells) };
}

impl<'a> States<'a> {
    /// The states of a list that is all expanded. The fewest pushes of the level's solutions are `most`.
    pub(crate) fn of(level: &'a Level, listed: &'a Visited, most: u32) -> States<'a>
        requires listing { IsStateList level.now most (length listed.now.entries) listed.now }
        requires fewest { NoneHasFewer level.now most }
        ensures { result ≡ record { board = level.now; most = most; entries = listed.now.entries } }
    {
        listed.tell();
        States {
            level,
            listed,
            most,
        }
    }

    /// The level.
    pub(crate) fn level(&self) -> &'a Level
        ensures { result.now ≡ self.now.board }
    {
        self.level
    }

    /// The fewest pushes of the level's solutions.
    pub(crate) fn most(&self) -> u32
        ensures { result ≡ self.now.most }
    {
        self.most
    }

    /// The number of states.
    pub(crate) fn len(&self) -> usize
        ensures { result ≡ length self.now.entries }
    {
        self.listed.len()
    }

    /// The state at a place.
    pub(crate) fn at(&self, place: usize) -> Reached
        requires { place < length self.now.entries }
        ensures { IsEntryAt self.now.entries place result.state result.pushes }
    {
        reached_at(self.listed, place)
    }

    /// The place of a state, if it is listed.
    pub(crate) fn find(&self, state: &Position) -> Option<usize>
        requires { FitsLevel self.now.board state.now }
        ensures { IsPlaceOf self.now.entries state.now result }
    {
        self.listed.find(state)
    }

    /// States what holds of the list. It does nothing and is there for proofs.
    pub(crate) fn tell(&self)
        ensures { AreAllExpanded self.now }
    {
        let _ = &self.listed;
    }
}

/// The state at a place of a list.
pub(crate) fn reached_at(listed: &Visited, place: usize) -> Reached
    requires { place < length listed.now.entries }
    ensures { IsEntryAt listed.now.entries place result.state result.pushes }
{
    Reached {
        state: listed.position(place),
        pushes: listed.label(place).pushes,
    }
}
