ghost use Rattle.std.specs.Prelude.{◌≡◌, ◌≤◌, IfErr, IfOk, OnOk, [], length};
ghost use Rattle.grid.specs.Board.{start};
ghost use Rattle.grid.specs.Lawful.{box_count};
ghost use Rattle.grid.specs.States.{FitsLevel};
ghost use Rattle.lurd.specs.Verdict.{IsVerdict};
ghost use Rattle.lurd.specs.declared.verdict.Verdict.TheVariants.{Solved};
ghost use Rattle.prices.specs.Fewest.{NoneHasFewer};
ghost use Rattle.prices.specs.Searching.{IsFault, SomeHas};
ghost use Rattle.prices.specs.Timing.{IsLate};
ghost use Rattle.shortest.specs.Outcomes.{IsMovesOutcome};
ghost use Rattle.shortest.specs.Shortest.{NoneIsBetter};
ghost use Rattle.shortest.specs.inside.Listing.{IsStateList};
ghost use Rattle.shortest.specs.inside.Nearby.{IsListFor};

use crate::listing::{ListEnd, begin, list_states};
use crate::outcome::MovesOutcome;
use crate::reading::least_moves;
use crate::states::States;
use grid::{Level, MAX_BOXES, Moves, Position};
use prices::{Progress, SearchFault};
use std::alloc::{AllocError, Global};
use store::Visited;

/// Searches for the fewest moves among the solutions with the fewest pushes. `pushes` is the fewest pushes of the
/// level's solutions.
///
/// [`MovesOutcome::Limit`] means that the search listed more than `limit` states, and [`MovesOutcome::Stopped`] that it ran
/// for as many seconds as it may. Once it has listed all states it ends with the fewest moves, which may take as long
/// again.
///
/// Fails with [`SearchFault::TooManyBoxes`] if the level has more than [`MAX_BOXES`](grid::MAX_BOXES) boxes, and with
/// [`SearchFault::OutOfMemory`] if it runs out of memory.
pub fn search_moves<P: Progress>(
    alloc: Global,
    level: &Level,
    pushes: u32,
    limit: u32,
    seconds: Option<u32>,
    progress: &mut P,
) -> Result<MovesOutcome, SearchFault>
    requires some { SomeHas level.now pushes }
    requires fewest { NoneHasFewer level.now pushes }
    ensures outcome { IfOk result (λ outcome. IsMovesOutcome level.now pushes limit
        (IsLate seconds (P.told progress.new)) outcome) }
    ensures few { OnOk result (box_count level.now ≤ MAX_BOXES) }
    ensures fault { IfErr result (λ fault. IsFault level.now fault) }
{
    let Some(first) = Position::start(level) else {
        return Err(SearchFault::TooManyBoxes);
    };
    Ok(search_from(alloc, level, &first, pushes, limit, seconds, progress)?)
}

// Searches from the start.
fn search_from<P: Progress>(
    alloc: Global,
    level: &Level,
    first: &Position,
    pushes: u32,
    limit: u32,
    seconds: Option<u32>,
    progress: &mut P,
) -> Result<MovesOutcome, AllocError>
    requires first { first.now ≡ start level.now }
    requires few { box_count level.now ≤ MAX_BOXES }
    requires some { SomeHas level.now pushes }
    requires fewest { NoneHasFewer level.now pushes }
    ensures { IfOk result (λ outcome. IsMovesOutcome level.now pushes limit
        (IsLate seconds (P.told progress.new)) outcome) }
{
    level.tell_start();
    let mut listed = Visited::of(alloc, level.boxes(), level.squares());
    let outcome = search_in(
        alloc,
        level,
        first,
        pushes,
        limit,
        seconds,
        &mut listed,
        progress,
    );
    drop(listed);
    outcome
}

// Searches from the start with an empty list of states.
fn search_in<P: Progress>(
    alloc: Global,
    level: &Level,
    first: &Position,
    pushes: u32,
    limit: u32,
    seconds: Option<u32>,
    listed: &mut Visited,
    progress: &mut P,
) -> Result<MovesOutcome, AllocError>
    requires first { first.now ≡ start level.now }
    requires fits { FitsLevel level.now (start level.now) }
    requires empty { listed.old.entries ≡ [] }
    requires size { IsListFor level.now listed.old }
    requires few { box_count level.now ≤ MAX_BOXES }
    requires some { SomeHas level.now pushes }
    requires fewest { NoneHasFewer level.now pushes }
    ensures { IfOk result (λ outcome. IsMovesOutcome level.now pushes limit
        (IsLate seconds (P.told progress.new)) outcome) }
{
    begin(level, first, listed)?;
    let end = list_states(alloc, level, pushes, limit, seconds, listed, progress)?;
    listed.tell();
    match end {
        ListEnd::Whole => {
            let moves = best_of(alloc, level, pushes, listed)?;
            Ok(MovesOutcome::Least { moves })
        }
        ListEnd::Limit => Ok(MovesOutcome::Limit),
        ListEnd::Stopped => Ok(MovesOutcome::Stopped),
    }
}

// The moves of the best solution, once all states are listed.
fn best_of(alloc: Global, level: &Level, pushes: u32, listed: &Visited) -> Result<Moves, AllocError>
    requires listing { IsStateList level.now pushes (length listed.now.entries) listed.now }
    requires some { SomeHas level.now pushes }
    requires fewest { NoneHasFewer level.now pushes }
    ensures { IfOk result (λ moves. IsVerdict level.now moves (Solved pushes (length moves)) ×
        NoneIsBetter level.now pushes (length moves)) }
{
    let states = States::of(level, listed, pushes);
    least_moves(alloc, &states)
}
