//! Replaces a solution by better ones that a search near it finds.
ghost use Rattle.std.specs.Prelude.{◌≡◌, ◌<◌, ◌≤◌, ◌⊎◌, IfOk, IsTrue};
ghost use Rattle.grid.specs.Lawful.{box_count};
ghost use Rattle.grid.specs.States.{FitsLevel};
ghost use Rattle.shortest.specs.Improving.{IsNoWorse};
ghost use Rattle.shortest.specs.inside.Nearby.{IsFinderFor};

use crate::aim::Aim;
use crate::bounds::Bounds;
use crate::listing::problem_of;
use crate::near::{Find, Form, Memory, search_near};
use crate::plays::moves_by;
use crate::trail::Trail;
use grid::{Level, MAX_BOXES, Moves, Position, Push};
use lurd::laws::one_verdict;
use lurd::{Verdict, replay};
use prices::Progress;
use std::alloc::{AllocError, Global};
use successors::Problem;

/// The most states of a layer that the first search for fewer pushes expands: shortcuts are rare, and narrow searches
/// miss them.
const PUSHES_WIDTH: usize = 100;

/// The same for fewer moves: they are often saved close to the solution, and the level may have taken no time.
const MOVES_WIDTH: usize = 5;

/// A search without success is repeated with this many times the width.
const WIDER: usize = 3;

/// Searches for fewer pushes expand at most this many times the states that they may expand without success: more than
/// real solutions need, but a given one may have any number of detours.
const PUSHES_TIMES: usize = 20;

/// The same for fewer moves, whose successes are often small.
const MOVES_TIMES: usize = 2;

/// The most searches with one number of boxes elsewhere.
const MAX_SEARCHES: usize = 1_000;

/// How often the aims take turns at most.
const MAX_TURNS: usize = 10;

/// On a grid with this many squares a state takes twice as long as on a small one.
pub(crate) const SQUARES_A_STATE: usize = 1_000;

/// Replaces a solution of the level by a better one, if it finds one: with fewer pushes, or with as many pushes and
/// fewer moves. It searches states that differ from those of the solution in one box and, for fewer pushes, in two. It
/// ends once it has expanded `states` of them without success, fewer on a large grid, or 40 times as many in all, or has
/// run as many seconds as it may. It tells `progress` of each better solution. Moves that do not solve the level stay as
/// they are.
///
/// Fails only if out of memory. Then the moves are the best solution that it found.
#[tactic(auto, using(crate::proofs::Better::no_worse_same, crate::proofs::Better::no_worse_then))]
pub fn improve<P: Progress>(
    alloc: Global,
    level: &Level,
    moves: &mut Moves,
    aim: Aim,
    states: usize,
    seconds: Option<u32>,
    progress: &mut P,
) -> Result<(), AllocError>
    ensures { IsNoWorse level.now moves.old moves.new }
{
    let Some(start) = Position::start(level) else {
        return Ok(());
    };
    level.tell_start();
    let problem = problem_of(alloc, level)?;
    let states = states / (1 + level.squares() / SQUARES_A_STATE);
    let end = improve_over(
        alloc, level, &problem, start, moves, aim, states, seconds, progress,
    );
    drop(problem);
    end
}

// Improves a solution from the start of the problem's level.
fn improve_over<P: Progress>(
    alloc: Global,
    level: &Level,
    problem: &Problem,
    start: Position,
    moves: &mut Moves,
    aim: Aim,
    states: usize,
    seconds: Option<u32>,
    progress: &mut P,
) -> Result<(), AllocError>
    requires problem { problem.now.board ≡ level.now }
    requires fits { FitsLevel level.now start }
    requires few { box_count level.now ≤ MAX_BOXES }
    ensures { IsNoWorse level.now moves.old moves.new }
{
    let mut finder = Finder::of(alloc, level, problem, start)?;
    let end = improve_with(
        alloc,
        level,
        moves,
        aim,
        states,
        seconds,
        &mut finder,
        progress,
    );
    drop(finder);
    end
}

// Improves a solution for an aim.
#[tactic(auto, using(crate::proofs::Better::no_worse_same, crate::proofs::Better::no_worse_then))]
fn improve_with<P: Progress>(
    alloc: Global,
    level: &Level,
    moves: &mut Moves,
    aim: Aim,
    states: usize,
    seconds: Option<u32>,
    finder: &mut Finder<'_>,
    progress: &mut P,
) -> Result<(), AllocError>
    requires { IsFinderFor level.now finder.old }
    ensures { IsNoWorse level.now moves.old moves.new }
{
    match aim {
        Aim::FewerPushes => save_pushes(alloc, level, moves, states, seconds, finder, progress),
        Aim::FewerMoves => save_moves(alloc, level, moves, states, seconds, finder, progress),
    }
}

/// What the searches by layers of a level share: its start, its bounds and memory.
#[derive(Drop)]
pub(crate) struct Finder<'a> {
    pub(crate) start: Position,
    pub(crate) bounds: Bounds<'a>,
    pub(crate) memory: Memory<'a>,
}

impl<'a> Finder<'a> {
    /// Begins at the start of the problem's level. Fails only if out of memory.
    pub(crate) fn of(
        alloc: Global,
        level: &'a Level,
        problem: &'a Problem,
        start: Position,
    ) -> Result<Finder<'a>, AllocError>
        requires problem { problem.now.board ≡ level.now }
        requires fits { FitsLevel level.now start }
        requires few { box_count level.now ≤ MAX_BOXES }
        ensures { IfOk result (λ finder. IsFinderFor level.now finder) }
    {
        let bounds = Bounds::of(alloc, level, 0)?;
        let memory = Memory::new(alloc, problem)?;
        Ok(Finder {
            start,
            bounds,
            memory,
        })
    }
}

// Saves pushes of a solution with one box elsewhere, then with two, and then moves, again until the pushes stay.
#[tactic(auto, using(crate::proofs::Better::no_worse_same, crate::proofs::Better::no_worse_then))]
fn save_pushes<P: Progress>(
    alloc: Global,
    level: &Level,
    moves: &mut Moves,
    states: usize,
    seconds: Option<u32>,
    finder: &mut Finder<'_>,
    progress: &mut P,
) -> Result<(), AllocError>
    requires finder { IsFinderFor level.now finder.old }
    ensures better { IsNoWorse level.now moves.old moves.new }
    ensures finder { IsFinderFor level.now finder.new }
{
    let one = form_of(Aim::FewerPushes, 1, states, seconds);
    let two = form_of(Aim::FewerPushes, 2, states, seconds);
    let mut left = states.saturating_mul(PUSHES_TIMES);
    for _ in 0..MAX_TURNS {
        let before = push_count(moves);
        repeat(alloc, level, moves, one, &mut left, finder, progress)?;
        repeat(alloc, level, moves, two, &mut left, finder, progress)?;
        save_moves(alloc, level, moves, states, seconds, finder, progress)?;
        if push_count(moves) == before {
            break;
        }
    }
    Ok(())
}

// Saves moves of a solution, with one box elsewhere: two bring next to nothing.
fn save_moves<P: Progress>(
    alloc: Global,
    level: &Level,
    moves: &mut Moves,
    states: usize,
    seconds: Option<u32>,
    finder: &mut Finder<'_>,
    progress: &mut P,
) -> Result<(), AllocError>
    requires finder { IsFinderFor level.now finder.old }
    ensures better { IsNoWorse level.now moves.old moves.new }
    ensures finder { IsFinderFor level.now finder.new }
{
    let form = form_of(Aim::FewerMoves, 1, states, seconds);
    let mut left = states.saturating_mul(MOVES_TIMES);
    repeat(alloc, level, moves, form, &mut left, finder, progress)
}

// The form of a first search.
fn form_of(aim: Aim, displaced: u32, states: usize, seconds: Option<u32>) -> Form {
    let width = match aim {
        Aim::FewerPushes => PUSHES_WIDTH,
        Aim::FewerMoves => MOVES_WIDTH,
    };
    Form {
        aim,
        displaced,
        width,
        states,
        seconds,
    }
}

// Searches near the solution, and again near each better one, until a search without success leaves nothing out, or
// the states since the last success or those that are left in all are used up, or the time is up.
#[tactic(auto, using(crate::proofs::Better::no_worse_same, crate::proofs::Better::no_worse_then))]
fn repeat<P: Progress>(
    alloc: Global,
    level: &Level,
    moves: &mut Moves,
    first: Form,
    left: &mut usize,
    finder: &mut Finder<'_>,
    progress: &mut P,
) -> Result<(), AllocError>
    requires finder { IsFinderFor level.now finder.old }
    ensures better { IsNoWorse level.now moves.old moves.new }
    ensures finder { IsFinderFor level.now finder.new }
{
    let mut form = first;
    // so narrow that the states last to the end
    let layers = push_count(moves).max(1);
    form.width = first.width.min(first.states / layers).max(1);
    for _ in 0..MAX_SEARCHES {
        form.states = form.states.min(*left);
        if form.states == 0 {
            break;
        }
        let find = search_once(alloc, level, moves, form, finder, progress)?;
        let is_better = take_if_some(alloc, level, moves, &find.pushes, progress)?;
        *left = left.saturating_sub(find.expanded);
        form.states = form.states.saturating_sub(find.expanded);
        if is_better {
            form.states = first.states;
        } else if find.is_cut {
            form.width = form.width.saturating_mul(WIDER);
        } else {
            break;
        }
    }
    Ok(())
}

// Searches once near a solution.
fn search_once<P: Progress>(
    alloc: Global,
    level: &Level,
    moves: &Moves,
    form: Form,
    finder: &mut Finder<'_>,
    progress: &mut P,
) -> Result<Find, AllocError>
    requires finder { IsFinderFor level.now finder.old }
    ensures finder { IsFinderFor level.now finder.new }
{
    let less = if form.aim == Aim::FewerPushes { 2 } else { 0 };
    let most = push_count(moves).saturating_sub(less);
    if most > form.states {
        return Ok(Find::default());
    }
    finder.bounds.set_cap(u32::try_from(most).unwrap_or(0));
    let trail = Trail::of(alloc, level, &finder.start, moves)?;
    search_near(
        alloc,
        &finder.bounds,
        &finder.start,
        &trail,
        form,
        &mut finder.memory,
        progress,
    )
}

// The number of letters that push.
fn push_count(moves: &Moves) -> usize {
    let mut count = 0;
    for letter in moves.as_slice() {
        if letter.push {
            count += 1;
        }
    }
    count
}

// Takes the play with these pushes in place of the moves, if it is better. Returns whether it is.
#[tactic(auto, using(crate::proofs::Better::no_worse_same, crate::proofs::Better::no_worse_then))]
fn take_if_some<P: Progress>(
    alloc: Global,
    level: &Level,
    moves: &mut Moves,
    pushes: &Option<Vec<Push>>,
    progress: &mut P,
) -> Result<bool, AllocError>
    ensures { IsNoWorse level.now moves.old moves.new }
{
    let Some(pushes) = pushes else {
        return Ok(false);
    };
    let candidate = moves_by(alloc, level, pushes.as_slice())?;
    take_if_better(alloc, level, moves, candidate, progress)
}

// Takes a candidate in place of the moves, if both solve the level and the candidate has fewer pushes, or as many
// pushes and fewer moves. Returns whether it did.
#[tactic(auto, using(crate::proofs::Better::no_worse_same, crate::proofs::Better::no_worse_by))]
fn take_if_better<P: Progress>(
    alloc: Global,
    level: &Level,
    moves: &mut Moves,
    candidate: Moves,
    progress: &mut P,
) -> Result<bool, AllocError>
    ensures { IsNoWorse level.now moves.old moves.new }
{
    one_verdict();
    let before = replay(alloc, level, moves)?;
    let Verdict::Solved {
        pushes: old_pushes,
        moves: old_moves,
    } = before
    else {
        return Ok(false);
    };
    let after = replay(alloc, level, &candidate)?;
    let Verdict::Solved {
        pushes: new_pushes,
        moves: new_moves,
    } = after
    else {
        return Ok(false);
    };
    if !is_better(new_pushes, new_moves, old_pushes, old_moves) {
        return Ok(false);
    }
    *moves = candidate;
    progress.better(new_pushes, new_moves);
    Ok(true)
}

// Whether there are fewer pushes than others, or as many and fewer moves.
fn is_better(pushes: usize, moves: usize, than_pushes: usize, than_moves: usize) -> bool
    ensures { IsTrue result → (pushes < than_pushes) ⊎ ((pushes ≡ than_pushes) × (moves ≤ than_moves)) }
{
    if pushes == than_pushes {
        return moves < than_moves;
    }
    pushes < than_pushes
}
