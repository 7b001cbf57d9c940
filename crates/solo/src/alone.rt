ghost use Rattle.std.specs.Prelude.{◌<◌, ◌≤◌, IfNone, IfOk, IfSome, MatchResult};
ghost use Rattle.std.specs.Arc.{arc_value};
ghost use Rattle.grid.specs.Lawful.{box_count};
ghost use Rattle.grid.specs.declared.limits.TheConstants.{MAX_BOXES};
ghost use Rattle.successors.specs.Capping.{capped};
ghost use Rattle.solo.specs.Answers.{IsAnswer};
ghost use Rattle.solo.specs.Refusals.{SoloRefused};
ghost use Rattle.solo.specs.inside.Iterations.{AreBetweenLayers, GoesOn};

use crate::answer::{Answer, SolveFault};
use crate::ranks::{begin_each, close_rest, last_layer};
use crate::search::Search;
use grid::{Level, MAX_BOXES};
use layers::{Book, Problem};
use std::alloc::{AllocError, Global};
use std::sync::Arc;

/// Searches for the solution of the level with the fewest pushes, within a cap of pushes if one is set. The answer is
/// that solution, or that there is none, or that a decision needs more than `limit` positions.
///
/// The solution is the least one: the fewest pushes, then the least push list, then the fewest moves, then the least
/// text. Fails with [`SolveFault::TooManyBoxes`] if the level has more than [`MAX_BOXES`](grid::MAX_BOXES) boxes, and
/// with [`SolveFault::OutOfMemory`].
pub fn solve_alone(
    alloc: Global,
    level: &Arc<Level>,
    cap: Option<u32>,
    limit: u32,
) -> Result<Answer, SolveFault>
    requires { 1 ≤ limit }
    ensures answer { IfOk result (λ answer. IsAnswer (capped (arc_value level.now) cap) limit answer) }
    ensures boxes { MatchResult result (λ answer. box_count (arc_value level.now) ≤ MAX_BOXES)
        (λ fault. SoloRefused (arc_value level.now) fault) }
{
    if level.boxes() > MAX_BOXES {
        return Err(SolveFault::TooManyBoxes);
    }
    Ok(search(alloc, level, cap, limit)?)
}

// The answer that the layers of a level give. Fails only if out of memory.
fn search(
    alloc: Global,
    level: &Arc<Level>,
    cap: Option<u32>,
    limit: u32,
) -> Result<Answer, AllocError>
    requires limit { 1 ≤ limit }
    requires boxes { box_count (arc_value level.now) ≤ MAX_BOXES }
    ensures { IfOk result (λ answer. IsAnswer (capped (arc_value level.now) cap) limit answer) }
{
    let problem = Problem::of(alloc, level, cap)?;
    let problem = Arc::new(alloc, problem)?;
    search_by(alloc, &problem, limit)
}

// The answer that the layers of a problem give. Fails only if out of memory.
fn search_by(alloc: Global, problem: &Arc<Problem>, limit: u32) -> Result<Answer, AllocError>
    requires limit { 1 ≤ limit }
    requires boxes { box_count (arc_value problem.now).board ≤ MAX_BOXES }
    ensures { IfOk result (λ answer. IsAnswer (arc_value problem.now) limit answer) }
{
    let mut search = Search::new(alloc, problem, limit)?;
    let mut books = search.new_books(1, 1)?;
    iterate(alloc, &mut search, books.as_mut_slice())
}

// Iterates until there is an answer. Fails only if out of memory.
fn iterate(alloc: Global, search: &mut Search<'_>, books: &mut [Book]) -> Result<Answer, AllocError>
    requires { AreBetweenLayers search.old 1 1 books.old }
    ensures { IfOk result (λ answer. IsAnswer search.old.problem search.old.limit answer) }
{
    loop {
        if let Some(answer) = iteration(alloc, search, books)? {
            return Ok(answer);
        }
    }
}

// Examines the last layer that the books closed, and if it gives no answer, does its ranks as the only worker. Fails
// only if out of memory.
fn iteration(
    alloc: Global,
    search: &mut Search<'_>,
    books: &mut [Book],
) -> Result<Option<Answer>, AllocError>
    requires { AreBetweenLayers search.old 1 1 books.old }
    ensures answer { IfOk result
        (λ found. IfSome found (λ answer. IsAnswer search.old.problem search.old.limit answer)) }
    ensures onward { IfOk result (λ found. IfNone found (GoesOn search.old search.new 1 1 books.new)) }
{
    let layer = last_layer(alloc, books, Vec::new(alloc))?;
    if let Some(answer) = search.look(&layer)? {
        return Ok(Some(answer));
    }
    begin_each(books, &layer)?;
    let Some(_) = search.do_rest(books, &layer, 0)? else {
        return Ok(Some(Answer::Limit));
    };
    close_rest(books)?;
    search.push(layer)?;
    Ok(None)
}
