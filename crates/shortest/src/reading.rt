//! The moves of the best solution, read from the start on.
ghost use Rattle.std.specs.Prelude.{◌≡◌, ℕ, IfOk, Some, length, slice_get};
ghost use Rattle.grid.specs.Board.{start};
ghost use Rattle.lurd.specs.Verdict.{IsVerdict};
ghost use Rattle.lurd.specs.declared.verdict.Verdict.TheVariants.{Solved};
ghost use Rattle.prices.specs.Searching.{SomeHas};
ghost use Rattle.shortest.specs.Shortest.{NoneIsBetter};
ghost use Rattle.shortest.specs.inside.Resting.{AreRests, Finishes};

use crate::rests::rests_of;
use crate::states::States;
use crate::ways::{Tools, best_way};
use grid::{Moves, Push};
use std::alloc::{AllocError, Global};
use successors::play_pushes;

/// The moves of a solution with the fewest pushes, of which none has fewer moves. Fails only if out of memory.
pub(crate) fn least_moves(alloc: Global, states: &States<'_>) -> Result<Moves, AllocError>
    requires { SomeHas states.now.board states.now.most }
    ensures { IfOk result (λ moves. IsVerdict states.now.board moves (Solved states.now.most (length moves)) ×
        NoneIsBetter states.now.board states.now.most (length moves)) }
{
    let mut tools = Tools::new(alloc, states.level())?;
    let moves = moves_with(alloc, states, &mut tools);
    drop(tools);
    moves
}

// The moves of that solution, found with these tools.
fn moves_with(alloc: Global, states: &States<'_>, tools: &mut Tools) -> Result<Moves, AllocError>
    requires some { SomeHas states.now.board states.now.most }
    requires size { tools.old.scratch.size ≡ length states.now.board.cells }
    requires room { length tools.old.walks ≡ length states.now.board.cells }
    ensures { IfOk result (λ moves. IsVerdict states.now.board moves (Solved states.now.most (length moves)) ×
        NoneIsBetter states.now.board states.now.most (length moves)) }
{
    let rests = rests_of(alloc, states, tools)?;
    let pushes = least_pushes(alloc, states, rests.as_slice(), tools)?;
    states.tell();
    let moves = play_pushes(alloc, states.level(), pushes.as_slice(), &mut tools.scratch)?;
    Ok(moves)
}

// The pushes of a solution with the fewest moves.
fn least_pushes(
    alloc: Global,
    states: &States<'_>,
    rests: &[Option<u64>],
    tools: &mut Tools,
) -> Result<Vec<Push>, AllocError>
    requires some { SomeHas states.now.board states.now.most }
    requires rests { AreRests states.now.board states.now.most 0 states.now.entries rests.now }
    requires size { tools.old.scratch.size ≡ length states.now.board.cells }
    requires room { length tools.old.walks ≡ length states.now.board.cells }
    ensures pushes { IfOk result (λ pushes. (total : ℕ) × (slice_get rests.now 0 ≡ Some (Some total)) ×
        (length pushes.items ≡ states.now.most) ×
        Finishes states.now.board (start states.now.board) pushes.items total) }
    ensures size { tools.new.scratch.size ≡ length states.now.board.cells }
{
    states.tell();
    let mut pushes = Vec::new(alloc);
    let mut place = 0;
    while pushes.len() < states.most() as usize {
        let from = states.at(place);
        let Some(way) = best_way(states, rests, &from, tools) else {
            unreachable!()
        };
        pushes.push(way.push)?;
        place = way.place;
    }
    Ok(pushes)
}
