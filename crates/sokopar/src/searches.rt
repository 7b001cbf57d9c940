//! The searches of a level, each with its own time.
ghost use Rattle.std.specs.Prelude.{◌≤◌, IfErr, IfOk, IsSome, OnOk, length};
ghost use Rattle.grid.specs.Lawful.{box_count};
ghost use Rattle.lurd.specs.Verdict.{IsVerdict};
ghost use Rattle.lurd.specs.declared.verdict.Verdict.TheVariants.{Solved};
ghost use Rattle.prices.specs.Fewest.{NoneHasFewer};
ghost use Rattle.prices.specs.Searching.{IsFault, SomeHas};
ghost use Rattle.prover.specs.Outcomes.{IsOutcome};
ghost use Rattle.shortest.specs.Improving.{IsNoWorse};
ghost use Rattle.shortest.specs.Shortest.{HasMoreStates, NoneIsBetter};
ghost use Rattle.sokopar.specs.Judging.{HasReached};

use crate::tally::Tally;
use crate::watch::Watch;
use grid::{Level, MAX_BOXES, Moves};
use judging::{LimitKind, Settings};
use prover::{Outcome, SearchFault};
use shortest::{Aim, MovesOutcome, first_solution, improve, search_moves};
use std::alloc::{AllocError, Global};
use std::thread::Threads;

/// Searches for a solution with the fewest pushes within a cap. Returns how it ended, and how many positions it found.
#[tactic(auto, using(crate::proofs::Judging::timed))]
pub(crate) fn search_pushes<R: Threads + Sync, P: Watch>(
    rt: &R,
    alloc: Global,
    level: &Level,
    cap: Option<u32>,
    workers: u8,
    settings: Settings,
    watch: &mut P,
) -> Result<(Outcome, usize), SearchFault>
    ensures outcome { IfOk result
        (λ end. IsOutcome level.now cap settings.limit (IsSome settings.seconds) end.0) }
    ensures few { OnOk result (box_count level.now ≤ MAX_BOXES) }
    ensures fault { IfErr result (λ fault. IsFault level.now fault) }
{
    let Settings { limit, seconds, .. } = settings;
    watch.restart();
    let mut tally = Tally::of(watch);
    match prover::search(rt, alloc, level, cap, limit, seconds, workers, &mut tally) {
        Ok(outcome) => Ok((outcome, tally.found())),
        Err(fault) => Err(fault),
    }
}

/// Searches for the fewest moves among the solutions with the fewest pushes, given their number. Returns the moves of
/// such a solution, or the limit that the search reached.
#[tactic(auto, using(crate::proofs::Judging::timed))]
pub(crate) fn search_fewest<P: Watch>(
    alloc: Global,
    level: &Level,
    pushes: u32,
    settings: Settings,
    watch: &mut P,
) -> Result<Result<Moves, LimitKind>, AllocError>
    requires some { SomeHas level.now pushes }
    requires fewest { NoneHasFewer level.now pushes }
    requires few { box_count level.now ≤ MAX_BOXES }
    ensures found { IfOk result (λ best. IfOk best (λ moves.
        IsVerdict level.now moves (Solved pushes (length moves)) × NoneIsBetter level.now pushes (length moves))) }
    ensures open { IfOk result (λ best. IfErr best (λ limit.
        HasReached settings limit (HasMoreStates level.now pushes settings.limit))) }
{
    let Settings { limit, seconds, .. } = settings;
    watch.restart();
    match search_moves(alloc, level, pushes, limit, seconds, watch) {
        Ok(MovesOutcome::Least { moves }) => Ok(Ok(moves)),
        Ok(MovesOutcome::Limit) => Ok(Err(LimitKind::Positions)),
        Ok(MovesOutcome::Stopped) => Ok(Err(LimitKind::Seconds)),
        Err(SearchFault::OutOfMemory { .. }) => Err(AllocError),
        Err(SearchFault::TooManyBoxes) => unreachable!(),
    }
}

/// The moves, or better ones that a search near them finds, after a search that found this many positions.
pub(crate) fn improved<P: Watch>(
    alloc: Global,
    level: &Level,
    moves: Moves,
    aim: Aim,
    found: usize,
    seconds: Option<u32>,
    watch: &mut P,
) -> Moves
    ensures { IsNoWorse level.now moves result }
{
    let mut moves = moves;
    let states = aim.states_after(found);
    // If it runs out of memory, the moves are the best ones so far.
    let _ = improve(alloc, level, &mut moves, aim, states, seconds, watch);
    moves
}

/// A solution that beams find after a search ended at its limit, with no more pushes than the cap, or a better one near
/// it. It is a guess.
pub(crate) fn first_found<P: Watch>(
    alloc: Global,
    level: &Level,
    at_least: u32,
    cap: Option<u32>,
    settings: Settings,
    watch: &mut P,
) -> Option<Moves> {
    let Settings { limit, seconds, .. } = settings;
    let found = limit as usize;
    match first_solution(alloc, level, at_least, cap, found / 2, seconds, watch) {
        Ok(Some(moves)) => {
            let aim = Aim::FewerPushes;
            Some(improved(alloc, level, moves, aim, found, seconds, watch))
        }
        _ => None,
    }
}
