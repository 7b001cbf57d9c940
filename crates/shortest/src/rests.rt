//! The fewest moves from each listed state to the end.
ghost use Rattle.std.specs.Prelude.{◌≡◌, ◌+◌, ◌<◌, ℕ, suc, IfOk, length};
ghost use Rattle.grid.specs.Board.{Scene};
ghost use Rattle.shortest.specs.inside.Listing.{IsEntryAt};
ghost use Rattle.shortest.specs.inside.Resting.{AreRests, IsRestOf};

use crate::states::States;
use crate::ways::{Tools, best_way};
use std::alloc::{AllocError, Global};

/// The fewest moves from each listed state to the end, with the pushes that are left. `None` if no play from there ends
/// solved with these. Fails only if out of memory.
pub(crate) fn rests_of(
    alloc: Global,
    states: &States<'_>,
    tools: &mut Tools,
) -> Result<Vec<Option<u64>>, AllocError>
    requires size { tools.old.scratch.size ≡ length states.now.board.cells }
    requires room { length tools.old.walks ≡ length states.now.board.cells }
    ensures rests { IfOk result (λ rests. AreRests states.now.board states.now.most 0 states.now.entries rests.items) }
    ensures size { tools.new.scratch.size ≡ length states.now.board.cells }
    ensures room { length tools.new.walks ≡ length states.now.board.cells }
{
    let mut rests = unknown(alloc, states.len())?;
    let mut place = states.len();
    while place > 0 {
        place -= 1;
        let rest = rest_at(states, rests.as_slice(), place, tools);
        rests[place] = rest;
    }
    Ok(rests)
}

// A list of `count` times `None`.
fn unknown(alloc: Global, count: usize) -> Result<Vec<Option<u64>>, AllocError>
    ensures { IfOk result (λ rests. length rests.items ≡ count) }
{
    let mut rests = Vec::with_capacity(alloc, count)?;
    rests.resize(count, None)?;
    Ok(rests)
}

// The fewest moves from the state at a place, given those from the states behind it.
fn rest_at(
    states: &States<'_>,
    rests: &[Option<u64>],
    place: usize,
    tools: &mut Tools,
) -> Option<u64>
    requires place { place < length states.now.entries }
    requires rests { AreRests states.now.board states.now.most (suc place) states.now.entries rests.now }
    requires size { tools.old.scratch.size ≡ length states.now.board.cells }
    requires room { length tools.old.walks ≡ length states.now.board.cells }
    ensures rest { (k m : ℕ) (s : Scene) → IsEntryAt states.now.entries place s k → k + m ≡ states.now.most →
        IsRestOf states.now.board m s result }
    ensures size { tools.new.scratch.size ≡ length states.now.board.cells }
    ensures room { length tools.new.walks ≡ length states.now.board.cells }
{
    states.tell();
    let from = states.at(place);
    if from.pushes < states.most() {
        let best = best_way(states, rests, &from, tools);
        return match best {
            Some(way) => Some(way.moves),
            None => None,
        };
    }
    if states.level().are_on_goals(from.state.boxes()) {
        return Some(0);
    }
    None
}
