ghost use Rattle.std.specs.Prelude.{◌≤◌, IfOk, IfSome, MatchResult};
ghost use Rattle.std.specs.Arc.{arc_value};
ghost use Rattle.grid.specs.Lawful.{box_count};
ghost use Rattle.successors.specs.Capping.{capped};
ghost use Rattle.solo.specs.Answers.{IsAnswer};
ghost use Rattle.crew.specs.Configured.{IsWithinLimits};
ghost use Rattle.crew.specs.Solving.{SolveRefused};
ghost use Rattle.crew.specs.inside.States.{IsStateOf};
ghost use Rattle.crew.specs.inside.Iterations.{ArePausedBy};

use crate::config::Config;
use crate::desks::Desks;
use crate::gate::Gate;
use crate::iteration::{IterationEnd, iterate};
use crate::settings::{SearchState, Settings};
use grid::{Level, MAX_BOXES};
use layers::{Book, Problem};
use solo::{Answer, Search, SolveFault, solve_alone};
use std::alloc::{AllocError, Global};
use std::sync::{Arc, Wait};
use std::thread::Threads;

/// Searches for the solution of the level with the fewest pushes, within the cap of pushes if the configuration has
/// one, by its number of workers over as many books as it has locks. The answer is that of [`solve_alone`]: it does
/// not depend on the numbers of workers and locks, on the gate, or on the order in which workers draw ranks and take
/// locks.
///
/// Fails with [`SolveFault::BadConfig`], before everything else, if a number of the configuration is outside its
/// limits; with [`SolveFault::TooManyBoxes`] if the level has more than [`MAX_BOXES`](grid::MAX_BOXES) boxes; and
/// with [`SolveFault::OutOfMemory`] if the caller's own work runs out of memory. A worker whose thread cannot start
/// works in the caller's thread. A worker that runs out of memory or is stopped ends, and the caller does what it
/// left. Blocks on the locks and until all workers have ended.
pub fn solve<R: Threads + Wait + Sync, G: Gate + Sync>(
    rt: &R,
    alloc: Global,
    level: &Arc<Level>,
    config: Config,
    gate: &G,
) -> Result<Answer, SolveFault>
    ensures answer { IfOk result (λ answer. IsAnswer (capped (arc_value level.now) config.cap) config.limit answer) }
    ensures boxes { MatchResult result (λ answer. IsWithinLimits config × (box_count (arc_value level.now) ≤ MAX_BOXES))
        (λ fault. SolveRefused config (arc_value level.now) fault) }
{
    if !config.is_within_limits() {
        return Err(SolveFault::BadConfig);
    }
    if level.boxes() > MAX_BOXES {
        return Err(SolveFault::TooManyBoxes);
    }
    match search(rt, alloc, level, config, gate) {
        Ok(Some(answer)) => Ok(answer),
        Ok(None) => solve_alone(alloc, level, config.cap, config.limit),
        Err(AllocError) => Err(SolveFault::OutOfMemory),
    }
}

// The answer that the layers of a level give. `None` if other books came back than those lent. Fails only if out of
// memory.
fn search<R: Threads + Wait + Sync, G: Gate + Sync>(
    rt: &R,
    alloc: Global,
    level: &Arc<Level>,
    config: Config,
    gate: &G,
) -> Result<Option<Answer>, AllocError>
    requires limits { IsWithinLimits config }
    requires boxes { box_count (arc_value level.now) ≤ MAX_BOXES }
    ensures { IfOk result
        (λ found. IfSome found (λ answer. IsAnswer (capped (arc_value level.now) config.cap) config.limit answer)) }
{
    let problem = Problem::of(alloc, level, config.cap)?;
    let problem = Arc::new(alloc, problem)?;
    search_by(rt, alloc, &problem, config, gate)
}

// The answer that the layers of a problem give. `None` if other books came back than those lent. Fails only if out of
// memory.
fn search_by<R: Threads + Wait + Sync, G: Gate + Sync>(
    rt: &R,
    alloc: Global,
    problem: &Arc<Problem>,
    config: Config,
    gate: &G,
) -> Result<Option<Answer>, AllocError>
    requires limits { IsWithinLimits config }
    requires boxes { box_count (arc_value problem.now).board ≤ MAX_BOXES }
    ensures { IfOk result (λ found. IfSome found (λ answer. IsAnswer (arc_value problem.now) config.limit answer)) }
{
    let mut search = Search::new(alloc, problem, config.limit)?;
    // the caller hands back under a number of its own, so the books are made for one more worker
    let books = search.new_books(config.workers + 1, config.locks)?;
    let mut state = SearchState {
        search,
        memory: Vec::new(alloc),
        desks: Desks::of(alloc, &**problem, config.workers),
    };
    let settings = Settings {
        alloc,
        config,
        gate,
    };
    let answer = iterate_all(rt, &settings, books, &mut state);
    drop(state);
    answer
}

// Examines layer after layer until there is an answer. `None` if other books came back than those lent. Fails only if
// out of memory.
fn iterate_all<R: Threads + Wait + Sync, G: Gate + Sync>(
    rt: &R,
    settings: &Settings<'_, G>,
    first: Vec<Book>,
    state: &mut SearchState<'_>,
) -> Result<Option<Answer>, AllocError>
    requires limits { IsWithinLimits settings.now.config }
    requires first { ArePausedBy settings.now.config state.old.search first.items }
    requires state { IsStateOf settings.now.config state.old }
    ensures { IfOk result
        (λ found. IfSome found (λ answer. IsAnswer state.old.search.problem state.old.search.limit answer)) }
{
    let mut books = first;
    loop {
        match iterate(rt, settings, books, state)? {
            IterationEnd::Onward(next) => books = next,
            IterationEnd::Found(answer) => return Ok(Some(answer)),
            IterationEnd::Foreign => return Ok(None),
        }
    }
}
