//! The search: it expands the open position with the least total, until one is solved or none is open.
ghost use Rattle.std.specs.Prelude.{◌≡◌, ◌≢◌, ◌↔◌, ◌≤◌, IfOk, IfErr, IsTrue};
ghost use Rattle.std.specs.Prelude.{[], OnOk};
ghost use Rattle.grid.specs.Board.{Board, IsSolved, start};
ghost use Rattle.grid.specs.Lawful.{box_count};
ghost use Rattle.grid.specs.States.{FitsLevel};
ghost use Rattle.area.specs.Area.{IsNorm};
ghost use Rattle.store.specs.Visited.{Node};
ghost use Rattle.successors.specs.Capping.{capped};
ghost use Rattle.prices.specs.Searching.{IsFault};
ghost use Rattle.prices.specs.Timing.{IsLate};
ghost use Rattle.prover.specs.Outcomes.{IsOutcome};
ghost use Rattle.prover.specs.inside.Rounds.{IsDesk};
ghost use Rattle.prover.specs.inside.SearchEnds.{IsFloor, Tells, none_by};
ghost use Rattle.prover.specs.inside.Working.{HasSize, IsSearchOnBoard};

use crate::expansion::expand;
use crate::frontier::Frontier;
use crate::outcome::Outcome;
use crate::pruner::Pruner;
use crate::retracing::solution_at;
use crate::rounds::{Desk, expand_more};
use crate::stages::{STAGES, add_tables};
use area::Scratch;
use grid::{Level, MAX_BOXES, Position};
use prices::{Progress, SearchFault, is_late};
use std::alloc::{AllocError, Global};
use std::sync::Arc;
use std::thread::Threads;
use successors::Problem;

/// How a search ends.
#[derive(Clone, Copy)]
pub(crate) enum SearchEnd {
    /// No position is open.
    Closed,
    /// The position at this place is solved, and no solution has fewer pushes.
    Solved(usize),
    /// The search found more positions than the limit.
    Limit,
    /// The search's time is up.
    Stopped,
}

/// Searches for a solution with the fewest pushes, in at most `workers` threads (0 counts as 1, and more than 16 as
/// 16). With a cap it looks only for solutions with at most that many pushes. A part whose thread cannot start is done
/// in the caller's thread, and so is what a thread had no memory for.
///
/// Before each round it tells `progress` how many pushes every solution has at least, as far as it knows, and how many
/// positions it has found. With a number of seconds it also asks how long it has run; the first round does not end it,
/// and a round that makes tables of regions may take some seconds.
///
/// Only a search with a cap gives [`Outcome::NoneWithin`], and only one without a cap gives [`Outcome::Unsolvable`].
/// [`Outcome::Limit`] means that the search found more positions than the limit, and [`Outcome::Stopped`] that it ran for
/// as many seconds as it may. It is tested, not proved, that a greater limit gives no lesser `at_least`.
///
/// Fails with [`SearchFault::TooManyBoxes`] if the level has more than [`MAX_BOXES`](grid::MAX_BOXES) boxes, and with
/// [`SearchFault::OutOfMemory`] if it runs out of memory.
pub fn search<R: Threads + Sync, P: Progress>(
    rt: &R,
    alloc: Global,
    level: &Level,
    cap: Option<u32>,
    limit: u32,
    seconds: Option<u32>,
    workers: u8,
    progress: &mut P,
) -> Result<Outcome, SearchFault>
    ensures outcome { IfOk result (λ outcome. IsOutcome level.now cap limit (IsLate seconds (P.told progress.new)) outcome) }
    ensures few { OnOk result (box_count level.now ≤ MAX_BOXES) }
    ensures fault { IfErr result (λ fault. IsFault level.now fault) }
{
    let Some(first) = Position::start(level) else {
        return Err(SearchFault::TooManyBoxes);
    };
    let mut at_least = 0;
    let search = Settings {
        cap,
        limit,
        seconds,
        workers,
    };
    match search_from(rt, alloc, level, &first, search, progress, &mut at_least) {
        Ok(outcome) => Ok(outcome),
        Err(_) => Err(SearchFault::OutOfMemory { at_least }),
    }
}

// The settings of a search.
#[derive(Clone, Copy)]
struct Settings {
    cap: Option<u32>,
    limit: u32,
    seconds: Option<u32>,
    workers: u8,
}

// Searches from the start. `reach` is the number of pushes that every solution is known to have at least.
fn search_from<R: Threads + Sync, P: Progress>(
    rt: &R,
    alloc: Global,
    level: &Level,
    first: &Position,
    search: Settings,
    progress: &mut P,
    reach: &mut u32,
) -> Result<Outcome, AllocError>
    requires first { first.now ≡ start level.now }
    requires few { box_count level.now ≤ MAX_BOXES }
    requires floor { IsFloor level.now search.cap reach.old }
    ensures outcome { IfOk result (λ outcome.
        IsOutcome level.now search.cap search.limit (IsLate search.seconds (P.told progress.new)) outcome) }
    ensures floor { IsFloor level.now search.cap reach.new }
{
    level.tell_start();
    let normal = normal_of(alloc, level, first)?;
    let mut frontier = Frontier::of(alloc, level);
    let outcome = search_in(
        rt,
        alloc,
        level,
        &normal,
        search,
        progress,
        reach,
        &mut frontier,
    );
    drop(frontier);
    outcome
}

// Searches from the start, given its normal form and an empty frontier.
fn search_in<R: Threads + Sync, P: Progress>(
    rt: &R,
    alloc: Global,
    level: &Level,
    normal: &Position,
    search: Settings,
    progress: &mut P,
    reach: &mut u32,
    frontier: &mut Frontier,
) -> Result<Outcome, AllocError>
    requires norm { IsNorm level.now (start level.now) normal.now }
    requires fits { FitsLevel level.now normal.now }
    requires empty { frontier.old.entries ≡ [] }
    requires size { HasSize level.now frontier.old }
    requires few { box_count level.now ≤ MAX_BOXES }
    requires floor { IsFloor level.now search.cap reach.old }
    ensures outcome { IfOk result (λ outcome.
        IsOutcome level.now search.cap search.limit (IsLate search.seconds (P.told progress.new)) outcome) }
    ensures floor { IsFloor level.now search.cap reach.new }
{
    begin(level, normal, search.cap, frontier)?;
    let end = run_on(rt, alloc, level, search, progress, reach, frontier)?;
    let at_least = *reach;
    match end {
        SearchEnd::Closed => Ok(none_of(search.cap)),
        SearchEnd::Limit => Ok(Outcome::Limit { at_least }),
        SearchEnd::Stopped => Ok(Outcome::Stopped { at_least }),
        SearchEnd::Solved(place) => solution_at(alloc, level, frontier, place),
    }
}

// The normal form of a position.
fn normal_of(alloc: Global, level: &Level, position: &Position) -> Result<Position, AllocError>
    requires { FitsLevel level.now position.now }
    ensures { IfOk result (λ normal. IsNorm level.now position.now normal × FitsLevel level.now normal) }
{
    let mut scratch = Scratch::new(alloc, level)?;
    Ok(area::normal(level, position, &mut scratch))
}

// Opens the start in an empty frontier.
fn begin(
    level: &Level,
    normal: &Position,
    cap: Option<u32>,
    frontier: &mut Frontier,
) -> Result<(), AllocError>
    requires norm { IsNorm level.now (start level.now) normal.now }
    requires fits { FitsLevel level.now normal.now }
    requires empty { frontier.old.entries ≡ [] }
    requires size { HasSize level.now frontier.old }
    ensures { OnOk result (IsSearchOnBoard level.now cap frontier.new) }
{
    frontier.open_at(normal, 0, 0, None)?;
    Ok(())
}

// Expands open positions until that decides the level, or the search has found more positions than the limit, or its
// time is up.
fn run_on<R: Threads + Sync, P: Progress>(
    rt: &R,
    alloc: Global,
    level: &Level,
    search: Settings,
    progress: &mut P,
    reach: &mut u32,
    frontier: &mut Frontier,
) -> Result<SearchEnd, AllocError>
    requires searched { IsSearchOnBoard level.now search.cap frontier.old }
    requires few { box_count level.now ≤ MAX_BOXES }
    requires floor { IsFloor level.now search.cap reach.old }
    ensures searched { OnOk result (IsSearchOnBoard level.now search.cap frontier.new) }
    ensures tells { IfOk result (λ end. Tells level.now search.cap search.limit
        (IsLate search.seconds (P.told progress.new)) frontier.new.entries end) }
    ensures floor { IsFloor level.now search.cap reach.new }
{
    let problem = problem_of(alloc, level, search.cap)?;
    let Settings {
        limit,
        seconds,
        workers,
        ..
    } = search;
    run_over(
        rt, alloc, &problem, limit, seconds, workers, progress, reach, frontier,
    )
}

// The problem of a level and a cap.
fn problem_of(alloc: Global, level: &Level, cap: Option<u32>) -> Result<Problem, AllocError>
    ensures { IfOk result (λ problem. problem ≡ capped level.now cap) }
{
    let shared = Arc::new(alloc, level.copy()?)?;
    Problem::of(alloc, &shared, cap)
}

// Expands open positions of the problem until that decides it, or the search has found more than `limit` positions, or
// its time is up.
fn run_over<R: Threads + Sync, P: Progress>(
    rt: &R,
    alloc: Global,
    problem: &Problem,
    limit: u32,
    seconds: Option<u32>,
    workers: u8,
    progress: &mut P,
    reach: &mut u32,
    frontier: &mut Frontier,
) -> Result<SearchEnd, AllocError>
    requires searched { IsSearchOnBoard problem.now.board problem.now.cap frontier.old }
    requires few { box_count problem.now.board ≤ MAX_BOXES }
    requires floor { IsFloor problem.now.board problem.now.cap reach.old }
    ensures searched { OnOk result (IsSearchOnBoard problem.now.board problem.now.cap frontier.new) }
    ensures tells { IfOk result (λ end. Tells problem.now.board problem.now.cap limit
        (IsLate seconds (P.told progress.new)) frontier.new.entries end) }
    ensures floor { IsFloor problem.now.board problem.now.cap reach.new }
{
    let mut pruner = Pruner::of(alloc, problem)?;
    run_all(
        rt,
        alloc,
        &mut pruner,
        limit,
        seconds,
        workers,
        progress,
        reach,
        frontier,
    )
}

// Expands open positions until that decides the problem, or more than `limit` are found, or the time is up. Makes tables
// at the stages of `STAGES`.
fn run_all<R: Threads + Sync, P: Progress>(
    rt: &R,
    alloc: Global,
    pruner: &mut Pruner<'_>,
    limit: u32,
    seconds: Option<u32>,
    workers: u8,
    progress: &mut P,
    reach: &mut u32,
    frontier: &mut Frontier,
) -> Result<SearchEnd, AllocError>
    requires searched { IsSearchOnBoard pruner.old.board pruner.old.cap frontier.old }
    requires floor { IsFloor pruner.old.board pruner.old.cap reach.old }
    ensures searched { OnOk result (IsSearchOnBoard pruner.old.board pruner.old.cap frontier.new) }
    ensures tells { IfOk result (λ end. Tells pruner.old.board pruner.old.cap limit
        (IsLate seconds (P.told progress.new)) frontier.new.entries end) }
    ensures floor { IsFloor pruner.old.board pruner.old.cap reach.new }
{
    for (first, bytes, is_chosen_again) in STAGES {
        if first >= limit {
            break;
        }
        let end = run(
            rt, alloc, pruner, first, seconds, workers, progress, reach, frontier,
        )?;
        let decided = is_decided(end);
        if decided {
            return Ok(end);
        }
        add_tables(
            rt,
            alloc,
            pruner,
            frontier,
            *reach,
            bytes,
            is_chosen_again,
            workers,
        )?;
    }
    run(
        rt, alloc, pruner, limit, seconds, workers, progress, reach, frontier,
    )
}

// Whether a search ended before its limit.
fn is_decided(end: SearchEnd) -> bool
    ensures { IsTrue result → end ≢ SearchEnd.Limit }
{
    match end {
        SearchEnd::Limit => false,
        _ => true,
    }
}

// Expands open positions until that decides the problem, or more than `limit` are found, or the time is up. `reach` is
// the greatest of the least totals that came up.
fn run<R: Threads + Sync, P: Progress>(
    rt: &R,
    alloc: Global,
    pruner: &Pruner<'_>,
    limit: u32,
    seconds: Option<u32>,
    workers: u8,
    progress: &mut P,
    reach: &mut u32,
    frontier: &mut Frontier,
) -> Result<SearchEnd, AllocError>
    requires searched { IsSearchOnBoard pruner.now.board pruner.now.cap frontier.old }
    requires floor { IsFloor pruner.now.board pruner.now.cap reach.old }
    ensures searched { OnOk result (IsSearchOnBoard pruner.now.board pruner.now.cap frontier.new) }
    ensures tells { IfOk result (λ end. Tells pruner.now.board pruner.now.cap limit
        (IsLate seconds (P.told progress.new)) frontier.new.entries end) }
    ensures floor { IsFloor pruner.now.board pruner.now.cap reach.new }
{
    let mut desk = Desk::new(alloc, pruner)?;
    let end = run_rounds(
        rt, alloc, pruner, limit, seconds, workers, progress, reach, frontier, &mut desk,
    );
    drop(desk);
    end
}

// Expands open positions in rounds, in the memory of a desk.
fn run_rounds<'a, R: Threads + Sync, P: Progress>(
    rt: &R,
    alloc: Global,
    pruner: &Pruner<'a>,
    limit: u32,
    seconds: Option<u32>,
    workers: u8,
    progress: &mut P,
    reach: &mut u32,
    frontier: &mut Frontier,
    desk: &mut Desk<'a>,
) -> Result<SearchEnd, AllocError>
    requires searched { IsSearchOnBoard pruner.now.board pruner.now.cap frontier.old }
    requires floor { IsFloor pruner.now.board pruner.now.cap reach.old }
    requires desk { IsDesk pruner.now frontier.old.entries desk.old }
    ensures searched { OnOk result (IsSearchOnBoard pruner.now.board pruner.now.cap frontier.new) }
    ensures tells { IfOk result (λ end. Tells pruner.now.board pruner.now.cap limit
        (IsLate seconds (P.told progress.new)) frontier.new.entries end) }
    ensures floor { IsFloor pruner.now.board pruner.now.cap reach.new }
{
    pruner.level().tell();
    'rounds: while let Some((place, least)) = frontier.least_open()? {
        *reach = least.max(*reach);
        progress.note(pruner.level(), *reach, frontier.len());
        let solved = is_solved(pruner.level(), &frontier.position(place));
        if solved {
            return Ok(SearchEnd::Solved(place));
        }
        if frontier.len() > limit as usize {
            frontier.tell();
            return Ok(SearchEnd::Limit);
        }
        let late = is_late(seconds, progress);
        // the start has no bound yet
        if late && *reach > 0 {
            return Ok(SearchEnd::Stopped);
        }
        let first = frontier.expanded(place, *reach);
        expand(pruner, frontier, &first, &mut desk.workspace)?;
        expand_more(rt, alloc, pruner, frontier, *reach, limit, workers, desk)?;
    }
    Ok(SearchEnd::Closed)
}

/// Whether each box of a position is on a goal.
pub(crate) fn is_solved(level: &Level, position: &Position) -> bool
    ensures { IsTrue result ↔ IsSolved level.now position.now }
{
    level.are_on_goals(position.boxes())
}

// The outcome if no play that the cap allows ends solved.
fn none_of(cap: Option<u32>) -> Outcome
    ensures { result ≡ none_by cap }
{
    match cap {
        None => Outcome::Unsolvable,
        Some(_) => Outcome::NoneWithin,
    }
}
