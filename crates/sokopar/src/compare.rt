//! How a given solution compares with others.
ghost use Rattle.std.specs.Prelude.{◌≡◌, ◌-◌, ◌≤◌, ◌<◌, true, None, Some, IfOk, IsSome, length};
ghost use Rattle.grid.specs.Lawful.{box_count};
ghost use Rattle.lurd.specs.Verdict.{IsVerdict};
ghost use Rattle.lurd.specs.declared.verdict.Verdict.TheVariants.{Solved};
ghost use Rattle.lurd.specs.declared.limits.TheConstants.{MAX_MOVES};
ghost use Rattle.prices.specs.Fewest.{NoneHasFewer};
ghost use Rattle.prover.specs.Outcomes.{IsOutcome};
ghost use Rattle.prover.specs.Reachable.{HasMore};
ghost use Rattle.prices.specs.Searching.{SomeHas};
ghost use Rattle.shortest.specs.Shortest.{NoneIsBetter};
ghost use Rattle.sokopar.specs.Judging.{HasReached, IsClaim};
ghost use Rattle.sokopar.specs.inside.Parts.{IsBeside, IsCompared};
ghost use Rattle.judging.specs.declared.judgement.MovesClaim.TheVariants.{Open};

use crate::search::{
    failed, found_known, given_known, judged, known_at_limit, solved_pushes, with_fewest_pushes,
};
use crate::searches::{first_found, improved, search_fewest, search_pushes};
use crate::watch::Watch;
use grid::{Level, MAX_BOXES, Moves};
use judging::{Counts, Judgement, Known, LimitKind, MovesClaim, Settings};
use lurd::{Verdict, replay};
use prover::Outcome;
use prover::laws::solutions_are_alike;
use shortest::Aim;
use std::alloc::{AllocError, Global};
use std::thread::Threads;

/// What is known of a solution with the fewest pushes, given one that has, of all these, the fewest moves.
fn beside_fewest_moves(level: &Level, given: Counts, moves: Moves, settings: Settings) -> Known
    requires uncapped { settings.cap ≡ None }
    requires wanted { settings.moves ≡ true }
    requires fewest { NoneHasFewer level.now given.pushes }
    requires best { IsVerdict level.now moves (Solved given.pushes (length moves)) ×
        NoneIsBetter level.now given.pushes (length moves) }
    ensures { IsBeside settings level.now (Some given) result }
{
    let pushes = given.pushes;
    let limit = LimitKind::Positions;
    if moves.len() >= given.moves {
        return given_known(Some(given), pushes, MovesClaim::Fewest, limit);
    }
    found_known(
        Some(given),
        moves,
        pushes,
        pushes,
        MovesClaim::Fewest,
        limit,
    )
}

/// What is known of a solution with the fewest pushes if the search for the fewest moves ended at this limit. A search near
/// the solution looks for fewer moves.
fn beside_open_moves<P: Watch>(
    alloc: Global,
    level: &Level,
    given: Counts,
    moves: Moves,
    reached: LimitKind,
    settings: Settings,
    watch: &mut P,
) -> Result<Known, AllocError>
    requires uncapped { settings.cap ≡ None }
    requires fewest { NoneHasFewer level.now given.pushes }
    requires open { IsClaim settings level.now reached given Open }
    ensures { IfOk result (λ known. IsBeside settings level.now (Some given) known) }
{
    let Settings { limit, seconds, .. } = settings;
    let claim = MovesClaim::Open;
    watch.restart();
    let aim = Aim::FewerMoves;
    let moves = improved(alloc, level, moves, aim, limit as usize, seconds, watch);
    let verdict = replay(alloc, level, &moves)?;
    let Verdict::Solved { pushes, .. } = verdict else {
        return Ok(given_known(Some(given), given.pushes, claim, reached));
    };
    if pushes != given.pushes {
        return Ok(given_known(Some(given), given.pushes, claim, reached));
    }
    if moves.len() >= given.moves {
        return Ok(given_known(Some(given), given.pushes, claim, reached));
    }
    Ok(found_known(Some(given), moves, pushes, pushes, claim, reached))
}

/// What is known of a solution with the fewest pushes. If the fewest moves are wanted, it looks for them.
fn beside_fewest_pushes<P: Watch>(
    alloc: Global,
    level: &Level,
    given: Counts,
    moves: Moves,
    settings: Settings,
    watch: &mut P,
) -> Result<Known, AllocError>
    requires uncapped { settings.cap ≡ None }
    requires some { SomeHas level.now given.pushes }
    requires pushes { given.pushes ≤ MAX_MOVES }
    requires fewest { NoneHasFewer level.now given.pushes }
    requires few { box_count level.now ≤ MAX_BOXES }
    ensures { IfOk result (λ known. IsBeside settings level.now (Some given) known) }
{
    let pushes = given.pushes;
    if !settings.moves {
        let claim = MovesClaim::Counted;
        return Ok(given_known(Some(given), pushes, claim, LimitKind::Positions));
    }
    let best = search_fewest(alloc, level, pushes as u32, settings, watch)?;
    match best {
        Ok(fewest) => Ok(beside_fewest_moves(level, given, fewest, settings)),
        Err(reached) => beside_open_moves(alloc, level, given, moves, reached, settings, watch),
    }
}

/// What is known of a solution if the search for the fewest pushes ended at this limit; every solution has at least `bound`
/// pushes. A search near the solution looks for fewer, and then beams look for fewer still.
fn beside_open_pushes<P: Watch>(
    alloc: Global,
    level: &Level,
    given: Counts,
    moves: Moves,
    bound: u32,
    reached: LimitKind,
    settings: Settings,
    watch: &mut P,
) -> Result<Known, AllocError>
    requires uncapped { settings.cap ≡ None }
    requires pushes { given.pushes ≤ MAX_MOVES }
    requires least { NoneHasFewer level.now bound }
    requires open { HasReached settings reached (HasMore level.now settings.limit) }
    requires bound { bound < given.pushes }
    requires few { box_count level.now ≤ MAX_BOXES }
    ensures { IfOk result (λ known. IsBeside settings level.now (Some given) known) }
{
    let Settings { limit, seconds, .. } = settings;
    watch.restart();
    let aim = Aim::FewerPushes;
    let near = improved(alloc, level, moves, aim, limit as usize, seconds, watch);
    let most = match solved_pushes(alloc, level, &near) {
        Some(pushes) => pushes.saturating_sub(2),
        None => 0,
    };
    let cap = u32::try_from(most).unwrap_or(0);
    let guess = match first_found(alloc, level, bound, Some(cap), settings, watch) {
        Some(better) => better,
        None => near,
    };
    let given = Some(given);
    known_at_limit(
        alloc,
        level,
        given,
        Some(guess),
        bound,
        reached,
        settings,
        watch,
    )
}

/// The judgement of a solution with at least two pushes, after a search for one with at least two fewer that found this
/// many positions.
fn compare_outcome<P: Watch>(
    alloc: Global,
    level: &Level,
    given: Counts,
    moves: Moves,
    outcome: Outcome,
    found: usize,
    settings: Settings,
    watch: &mut P,
) -> Judgement
    requires uncapped { settings.cap ≡ None }
    requires some { SomeHas level.now given.pushes }
    requires pushes { given.pushes ≤ MAX_MOVES }
    requires two { 2 ≤ given.pushes }
    requires outcome { IsOutcome level.now (Some (given.pushes - 2)) settings.limit (IsSome settings.seconds) outcome }
    requires few { box_count level.now ≤ MAX_BOXES }
    ensures { IsCompared settings level.now (Some given) result }
{
    level.tell();
    solutions_are_alike(level);
    let beside = Some(given);
    match outcome {
        Outcome::Least { moves, pushes } => {
            let known = with_fewest_pushes(
                alloc, level, beside, moves, pushes, found, settings, watch,
            );
            judged(known, beside, pushes as usize)
        }
        Outcome::NoneWithin => {
            let known = beside_fewest_pushes(alloc, level, given, moves, settings, watch);
            judged(known, beside, given.pushes)
        }
        Outcome::Unsolvable => unreachable!(),
        Outcome::Limit { at_least } => {
            let limit = LimitKind::Positions;
            let known = beside_open_pushes(
                alloc, level, given, moves, at_least, limit, settings, watch,
            );
            judged(known, beside, at_least as usize)
        }
        Outcome::Stopped { at_least } => {
            let limit = LimitKind::Seconds;
            let known = beside_open_pushes(
                alloc, level, given, moves, at_least, limit, settings, watch,
            );
            judged(known, beside, at_least as usize)
        }
    }
}

/// The judgement of a solution with these numbers of pushes and moves.
///
/// All solutions of a level have an even number of pushes, or all have an odd number. So a solution has the fewest
/// pushes unless another one has at least two fewer.
#[tactic(auto, using(crate::proofs::Judging::failed_compared))]
pub(crate) fn compare<R: Threads + Sync, P: Watch>(
    rt: &R,
    alloc: Global,
    level: &Level,
    given: Counts,
    moves: Moves,
    workers: u8,
    settings: Settings,
    watch: &mut P,
) -> Judgement
    requires uncapped { settings.cap ≡ None }
    requires some { SomeHas level.now given.pushes }
    requires pushes { given.pushes ≤ MAX_MOVES }
    requires few { box_count level.now ≤ MAX_BOXES }
    ensures { IsCompared settings level.now (Some given) result }
{
    level.tell();
    solutions_are_alike(level);
    watch.compare(given.pushes);
    if given.pushes < 2 {
        let known = beside_fewest_pushes(alloc, level, given, moves, settings, watch);
        return judged(known, Some(given), given.pushes);
    }
    let most = (given.pushes - 2) as u32;
    match search_pushes(rt, alloc, level, Some(most), workers, settings, watch) {
        Ok((outcome, found)) => {
            compare_outcome(alloc, level, given, moves, outcome, found, settings, watch)
        }
        Err(fault) => failed(Some(given), fault),
    }
}
