//! The play that leads to a position, read back from push to push.
ghost use Rattle.std.specs.Prelude.{◌≡◌, ◌<◌, ◌≤◌, ℕ, IfOk, Option, Some, length, slice_get};
ghost use Rattle.grid.specs.Board.{Board};
ghost use Rattle.store.specs.Visited.{Node};
ghost use Rattle.prover.specs.Outcomes.{IsOutcome};
ghost use Rattle.prover.specs.inside.SearchEnds.{IsLeastSolved};
ghost use Rattle.prover.specs.inside.Working.{AreLeading, AreTraced};

use crate::frontier::Frontier;
use crate::outcome::Outcome;
use area::Scratch;
use grid::{Level, Push};
use std::alloc::{AllocError, Global};
use successors::play_pushes;

/// The solution that leads to the solved position at a place.
pub(crate) fn solution_at(
    alloc: Global,
    level: &Level,
    frontier: &Frontier,
    place: usize,
) -> Result<Outcome, AllocError>
    requires traced { AreTraced level.now frontier.now.entries }
    requires place { place < length frontier.now.entries }
    ensures { IfOk result (λ outcome. (cap : Option ℕ) (limit : ℕ) →
        IsLeastSolved level.now cap frontier.now.entries place → IsOutcome level.now cap limit ⊥ outcome) }
{
    let leading = pushes_to(alloc, frontier, place)?;
    let mut scratch = Scratch::new(alloc, level)?;
    let played = play_pushes(alloc, level, leading.as_slice(), &mut scratch);
    drop(scratch);
    let moves = played?;
    let pushes = frontier.pushes(place);
    Ok(Outcome::Least { moves, pushes })
}

// The pushes that lead from the start to the position at a place.
fn pushes_to(alloc: Global, frontier: &Frontier, place: usize) -> Result<Vec<Push>, AllocError>
    requires traced { (board : Board) × AreTraced board frontier.now.entries }
    requires place { place < length frontier.now.entries }
    ensures { IfOk result (λ pushes. (board : Board) (x : Node) →
        AreTraced board frontier.now.entries → slice_get frontier.now.entries place ≡ Some x →
        AreLeading board pushes.items x.position × (length pushes.items ≤ x.pushes)) }
{
    let mut pushes = Vec::new(alloc);
    let mut here = place;
    while let Some(parent) = frontier.parent(here) {
        pushes.push(parent.push)?;
        here = parent.place as usize;
    }
    pushes.reverse();
    Ok(pushes)
}
