//! The best way on from a listed state.
ghost use Rattle.std.specs.Prelude.{◌≡◌, ◌+◌, ◌⊎◌, ℕ, suc, IfNone, IfOk, IfSome, Some, length};
ghost use Rattle.grid.specs.Board.{next, opposite};
ghost use Rattle.grid.specs.States.{FitsLevel};
ghost use Rattle.area.specs.Pushes.{CanPush};
ghost use Rattle.area.specs.WalkLengths.{AreWalkLengths};
ghost use Rattle.prices.specs.Solving.{SolvableWithin};
ghost use Rattle.successors.specs.Expansion.{after_push};
ghost use Rattle.shortest.specs.inside.Resting.{IsAtMost};
ghost use Rattle.shortest.specs.inside.Listing.{AreAllExpanded};
ghost use Rattle.shortest.specs.inside.Resting.{IsLeastBy, IsOnward, IsRestOf, IsWay, LeadsToEnd, moves_of};

use crate::states::{Reached, States};
use area::{MAX_PUSHES, Scratch, Walks, possible_pushes};
use arrayvec::ArrayVec;
use grid::{Level, Position, Push};
use std::alloc::{AllocError, Global};

/// A way on from a listed state: a push, the place of the state after it, and the fewest moves to the end of a play
/// that walks behind the box and makes this push.
#[derive(Clone, Copy)]
pub(crate) struct Way {
    pub(crate) push: Push,
    pub(crate) place: usize,
    pub(crate) moves: u64,
}

/// Memory to find the ways on from states.
#[derive(Drop)]
pub(crate) struct Tools {
    pub(crate) scratch: Scratch,
    walks: Walks,
}

impl Tools {
    /// The memory for a level. Fails only if out of memory.
    pub(crate) fn new(alloc: Global, level: &Level) -> Result<Tools, AllocError>
        ensures size { IfOk result (λ tools. tools.scratch.size ≡ length level.now.cells) }
        ensures room { IfOk result (λ tools. length tools.walks ≡ length level.now.cells) }
    {
        Ok(Tools {
            scratch: Scratch::new(alloc, level)?,
            walks: Walks::new(alloc, level)?,
        })
    }
}

/// The way on with the fewest moves from a state to the end. `None` if no play from there ends solved with the
/// pushes that are left. The fewest moves of the states behind it are known.
pub(crate) fn best_way(
    states: &States<'_>,
    rests: &[Option<u64>],
    from: &Reached,
    tools: &mut Tools,
) -> Option<Way>
    requires onward { IsOnward states.now rests.now from.now.pushes from.now.state }
    requires size { tools.old.scratch.size ≡ length states.now.board.cells }
    requires room { length tools.old.walks ≡ length states.now.board.cells }
    ensures way { IfSome result (λ way. IsWay states.now.board states.now.entries rests.now
        from.now.pushes from.now.state way) }
    ensures rest { (m : ℕ) → from.now.pushes + suc m ≡ states.now.most →
        IsRestOf states.now.board (suc m) from.now.state (moves_of result) }
    ensures size { tools.new.scratch.size ≡ length states.now.board.cells }
    ensures room { length tools.new.walks ≡ length states.now.board.cells }
{
    states.tell();
    let mut pushes: ArrayVec<Push, MAX_PUSHES> = ArrayVec::new();
    possible_pushes(states.level(), &from.state, &mut tools.scratch, &mut pushes);
    tools.walks.measure(states.level(), &from.state);
    let mut best = None;
    for index in 0..pushes.len() {
        let way = way_by(states, rests, from, pushes[index], &tools.walks);
        best = lesser(best, way);
    }
    best
}

// The best way on with a push. `None` if no play that goes on with it ends solved with the pushes that are left.
fn way_by(
    states: &States<'_>,
    rests: &[Option<u64>],
    from: &Reached,
    push: Push,
    walks: &Walks,
) -> Option<Way>
    requires onward { IsOnward states.now rests.now from.now.pushes from.now.state }
    requires possible { CanPush states.now.board from.now.state push }
    requires measured { AreWalkLengths states.now.board from.now.state walks.now }
    ensures way { IfSome result (λ way. IsWay states.now.board states.now.entries rests.now
        from.now.pushes from.now.state way) }
    ensures least { (m : ℕ) → from.now.pushes + suc m ≡ states.now.most →
        IsLeastBy states.now.board m from.now.state push (moves_of result) }
{
    states.tell();
    let Push { square, dir } = push;
    let Some((place, rest)) = rest_after(states, rests, from, Push { square, dir }) else {
        return None;
    };
    let level = states.level();
    let behind = level.next(square, dir.opposite());
    let walk = walks.length_to(behind);
    Some(Way {
        push: Push { square, dir },
        place,
        moves: u64::from(walk) + 1 + rest,
    })
}

// The place of the state after a push, and the fewest moves from there to the end. `None` if no play from there ends
// solved with the pushes that are left.
fn rest_after(
    states: &States<'_>,
    rests: &[Option<u64>],
    from: &Reached,
    push: Push,
) -> Option<(usize, u64)>
    requires onward { IsOnward states.now rests.now from.now.pushes from.now.state }
    requires possible { CanPush states.now.board from.now.state push }
    ensures leads { IfSome result (λ found. LeadsToEnd states.now.board states.now.entries rests.now from.now.pushes
        from.now.state push found.0 found.1) }
    ensures none { IfNone result ((m : ℕ) → from.now.pushes + suc m ≡ states.now.most →
        ¬ (SolvableWithin states.now.board m (after_push states.now.board from.now.state push))) }
{
    states.tell();
    let after = pushed(states.level(), &from.state, push);
    let Some(place) = states.find(&after) else {
        return None;
    };
    let there = states.at(place);
    if there.pushes != from.pushes + 1 {
        return None;
    }
    let Some(rest) = rests[place] else {
        return None;
    };
    Some((place, rest))
}

// The state after a push.
fn pushed(level: &Level, state: &Position, push: Push) -> Position
    requires fits { FitsLevel level.now state.now }
    requires possible { CanPush level.now state.now push }
    ensures after { result ≡ after_push level.now state.now push }
    ensures fits { FitsLevel level.now result }
{
    let Push { square, dir } = push;
    let mut after = state.copy();
    after.push(square, level.next(square, dir));
    after
}

// The way with fewer moves. Of two with as many, the first.
fn lesser(first: Option<Way>, second: Option<Way>) -> Option<Way>
    ensures one { IfSome result (λ way. (first ≡ Some way) ⊎ (second ≡ Some way)) }
    ensures first { (n : ℕ) → IsAtMost (moves_of first) n → IsAtMost (moves_of result) n }
    ensures second { (n : ℕ) → IsAtMost (moves_of second) n → IsAtMost (moves_of result) n }
{
    let Some(one) = &first else {
        return second;
    };
    let Some(other) = &second else {
        return first;
    };
    if other.moves < one.moves {
        return second;
    }
    first
}
