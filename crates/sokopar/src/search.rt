//! The searches of `best`, and what is known after them.
ghost use Rattle.std.specs.Prelude.{◌≡◌, ◌≤◌, ◌<◌, false, None, IfOk, IfSome, IsSome, IsTrue, length};
ghost use Rattle.grid.specs.Board.{Board};
ghost use Rattle.grid.specs.Lawful.{box_count};
ghost use Rattle.lurd.specs.Verdict.{IsVerdict};
ghost use Rattle.lurd.specs.declared.verdict.Verdict.TheVariants.{Solved};
ghost use Rattle.judging.specs.declared.judgement.Counts.{Counts as CountsOf};
ghost use Rattle.prices.specs.Fewest.{NoneHasFewer};
ghost use Rattle.prover.specs.Outcomes.{IsOutcome};
ghost use Rattle.sokopar.specs.Judging.{IsJudged, IsJudgedOn, IsOpen, IsWithinCap};
ghost use Rattle.sokopar.specs.inside.Parts.{IsBeside, IsCompared, failed, found_known, given_known};

use crate::searches::{first_found, improved, search_fewest, search_pushes};
use crate::watch::Watch;
use grid::{Level, LevelFault, MAX_BOXES, Moves};
use judging::{Counts, Judgement, Known, LimitKind, MovesClaim, Settings, Solution};
use lurd::{Verdict, replay};
use prover::{Outcome, SearchFault};
use shortest::Aim;
use std::alloc::{AllocError, Global};
use std::thread::Threads;

/// What is known once a solution is found.
pub(crate) fn found_known(
    given: Option<Counts>,
    letters: Moves,
    pushes: usize,
    at_least: usize,
    claim: MovesClaim,
    limit: LimitKind,
) -> Known
    ensures { result ≡ found_known given letters pushes at_least claim limit }
{
    let moves = letters.len();
    let counts = Counts { pushes, moves };
    Known {
        given,
        found: Some(Solution { letters, counts }),
        at_least,
        claim,
        limit,
    }
}

/// What is known if no solution is found that is better than the given one.
pub(crate) fn given_known(
    given: Option<Counts>,
    at_least: usize,
    claim: MovesClaim,
    limit: LimitKind,
) -> Known
    ensures { result ≡ given_known given at_least claim limit }
{
    Known {
        given,
        found: None,
        at_least,
        claim,
        limit,
    }
}

/// The judgement of what is known; every solution has at least `at_least` pushes if memory ran out.
pub(crate) fn judged(
    known: Result<Known, AllocError>,
    given: Option<Counts>,
    at_least: usize,
) -> Judgement
    ensures { (set : Settings) (board : Board) → NoneHasFewer board at_least →
        IfOk known (λ is. IsBeside set board given is) → IsCompared set board given result }
{
    match known {
        Ok(known) => Judgement::Searched(known),
        Err(_) => Judgement::OutOfMemory {
            given,
            at_least: Some(at_least),
        },
    }
}

/// The judgement if a search failed.
pub(crate) fn failed(given: Option<Counts>, fault: SearchFault) -> Judgement
    ensures { result ≡ failed given fault }
{
    match fault {
        SearchFault::TooManyBoxes => Judgement::TooManyBoxes(given),
        SearchFault::OutOfMemory { at_least } => Judgement::OutOfMemory {
            given,
            at_least: Some(at_least as usize),
        },
    }
}

/// The solution, or one with as many pushes and fewer moves that a search near it finds.
fn with_fewer<P: Watch>(
    alloc: Global,
    level: &Level,
    moves: Moves,
    pushes: u32,
    found: usize,
    seconds: Option<u32>,
    watch: &mut P,
) -> Moves
    requires solved { IsVerdict level.now moves (Solved pushes (length moves)) }
    requires fewest { NoneHasFewer level.now pushes }
    ensures { IsVerdict level.now result (Solved pushes (length result)) }
{
    watch.restart();
    improved(alloc, level, moves, Aim::FewerMoves, found, seconds, watch)
}

/// What is known, given a solution with the fewest pushes, fewer than a given one has, after a search that found this many
/// positions. If the fewest moves are wanted, it looks for them. If they are not, or that search ends at its limit, it
/// saves moves of the solution where it can.
pub(crate) fn with_fewest_pushes<P: Watch>(
    alloc: Global,
    level: &Level,
    given: Option<Counts>,
    moves: Moves,
    pushes: u32,
    found: usize,
    settings: Settings,
    watch: &mut P,
) -> Result<Known, AllocError>
    requires solved { IsVerdict level.now moves (Solved pushes (length moves)) }
    requires fewest { NoneHasFewer level.now pushes }
    requires within { IsWithinCap settings.cap pushes }
    requires fewer { IfSome given (λ (s : CountsOf). pushes < s.pushes) }
    requires few { box_count level.now ≤ MAX_BOXES }
    ensures { IfOk result (λ known. IsBeside settings level.now given known) }
{
    let count = pushes as usize;
    let Settings { limit, seconds, .. } = settings;
    if !settings.moves {
        let moves = with_fewer(alloc, level, moves, pushes, found, seconds, watch);
        let claim = MovesClaim::Counted;
        return Ok(found_known(given, moves, count, count, claim, LimitKind::Positions));
    }
    let best = search_fewest(alloc, level, pushes, settings, watch)?;
    match best {
        Ok(moves) => {
            let claim = MovesClaim::Fewest;
            Ok(found_known(given, moves, count, count, claim, LimitKind::Positions))
        }
        Err(reached) => {
            let moves = with_fewer(alloc, level, moves, pushes, limit as usize, seconds, watch);
            Ok(found_known(given, moves, count, count, MovesClaim::Open, reached))
        }
    }
}

/// The number of pushes of moves that solve the level. `None` if they do not, or if it runs out of memory.
pub(crate) fn solved_pushes(alloc: Global, level: &Level, moves: &Moves) -> Option<usize>
    ensures { IfSome result (λ pushes. IsVerdict level.now moves.now (Solved pushes (length moves.now))) }
{
    let Ok(verdict) = replay(alloc, level, moves) else {
        return None;
    };
    let Verdict::Solved { pushes, .. } = verdict else {
        return None;
    };
    Some(pushes)
}

/// Whether a solution with this many pushes is within the cap and has fewer than the given one.
fn is_wanted(pushes: usize, cap: Option<u32>, given: Option<Counts>) -> bool
    ensures { IsTrue result → IsWithinCap cap pushes × IfSome given (λ (s : CountsOf). pushes < s.pushes) }
{
    if let Some(most) = cap {
        if pushes > most as usize {
            return false;
        }
    }
    match given {
        Some(given) => pushes < given.pushes,
        None => true,
    }
}

/// A guess with its pushes, if it solves the level within the cap and with fewer pushes than the given solution.
fn checked(
    alloc: Global,
    level: &Level,
    guess: Option<Moves>,
    cap: Option<u32>,
    given: Option<Counts>,
) -> Option<(Moves, usize)>
    ensures { IfSome result (λ it. IsVerdict level.now it.0 (Solved it.1 (length it.0)) × IsWithinCap cap it.1 ×
        IfSome given (λ (s : CountsOf). it.1 < s.pushes)) }
{
    let Some(moves) = guess else {
        return None;
    };
    let Some(pushes) = solved_pushes(alloc, level, &moves) else {
        return None;
    };
    if !is_wanted(pushes, cap, given) {
        return None;
    }
    Some((moves, pushes))
}

/// What is known once a search for the fewest pushes has ended at this limit, with a guess of a solution; every solution
/// has at least `bound` pushes.
pub(crate) fn known_at_limit<P: Watch>(
    alloc: Global,
    level: &Level,
    given: Option<Counts>,
    guess: Option<Moves>,
    bound: u32,
    reached: LimitKind,
    settings: Settings,
    watch: &mut P,
) -> Result<Known, AllocError>
    requires least { NoneHasFewer level.now bound }
    requires open { IsOpen settings level.now reached bound }
    requires more { IfSome given (λ (s : CountsOf). bound < s.pushes) }
    requires few { box_count level.now ≤ MAX_BOXES }
    ensures { IfOk result (λ known. IsBeside settings level.now given known) }
{
    let at_least = bound as usize;
    let claim = MovesClaim::Counted;
    let Some((moves, pushes)) = checked(alloc, level, guess, settings.cap, given) else {
        return Ok(given_known(given, at_least, claim, reached));
    };
    if at_least < pushes {
        return Ok(found_known(given, moves, pushes, at_least, claim, reached));
    }
    let found = settings.limit as usize;
    let pushes = pushes as u32;
    with_fewest_pushes(alloc, level, given, moves, pushes, found, settings, watch)
}

/// The judgement of a level once a search for the fewest pushes has ended at this limit; every solution has at least
/// `at_least` pushes.
fn judge_open<P: Watch>(
    alloc: Global,
    level: &Level,
    at_least: u32,
    reached: LimitKind,
    settings: Settings,
    watch: &mut P,
) -> Judgement
    requires least { NoneHasFewer level.now at_least }
    requires open { IsOpen settings level.now reached at_least }
    requires few { box_count level.now ≤ MAX_BOXES }
    ensures { IsJudged settings level.now None result }
{
    watch.restart();
    let guess = first_found(alloc, level, at_least, settings.cap, settings, watch);
    let known = known_at_limit(
        alloc, level, None, guess, at_least, reached, settings, watch,
    );
    judged(known, None, at_least as usize)
}

/// The judgement of a level after a search for the fewest pushes that found this many positions.
fn judge_outcome<P: Watch>(
    alloc: Global,
    level: &Level,
    outcome: Outcome,
    found: usize,
    settings: Settings,
    watch: &mut P,
) -> Judgement
    requires outcome { IsOutcome level.now settings.cap settings.limit (IsSome settings.seconds) outcome }
    requires few { box_count level.now ≤ MAX_BOXES }
    ensures { IsJudged settings level.now None result }
{
    match outcome {
        Outcome::Least { moves, pushes } => {
            let known = with_fewest_pushes(
                alloc, level, None, moves, pushes, found, settings, watch,
            );
            judged(known, None, pushes as usize)
        }
        Outcome::NoneWithin => Judgement::NoneWithin,
        Outcome::Unsolvable => Judgement::Unsolvable,
        Outcome::Limit { at_least } => {
            judge_open(
                alloc,
                level,
                at_least,
                LimitKind::Positions,
                settings,
                watch,
            )
        }
        Outcome::Stopped { at_least } => {
            judge_open(alloc, level, at_least, LimitKind::Seconds, settings, watch)
        }
    }
}

/// The judgement of a lawful level, after a search for a solution with the fewest pushes and, if the settings say so, for
/// the fewest moves of these.
#[tactic(auto, using(crate::proofs::Judging::failed_judged))]
fn judge_level<R: Threads + Sync, P: Watch>(
    rt: &R,
    alloc: Global,
    level: &Level,
    workers: u8,
    settings: Settings,
    watch: &mut P,
) -> Judgement
    ensures { IsJudged settings level.now None result }
{
    let cap = settings.cap;
    match search_pushes(rt, alloc, level, cap, workers, settings, watch) {
        Ok((outcome, found)) => judge_outcome(alloc, level, outcome, found, settings, watch),
        Err(fault) => failed(None, fault),
    }
}

/// The judgement of a board without a given solution.
pub(crate) fn judge_board<R: Threads + Sync, P: Watch>(
    rt: &R,
    alloc: Global,
    board: &Result<Level, LevelFault>,
    workers: u8,
    settings: Settings,
    watch: &mut P,
) -> Judgement
    ensures { IsJudgedOn false settings board.now None result }
{
    match board {
        Ok(level) => judge_level(rt, alloc, level, workers, settings, watch),
        Err(fault) => Judgement::Faulty(*fault),
    }
}
