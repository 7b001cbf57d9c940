//! Looks for a first solution by beams: searches by layers that expand only the best states of each.
ghost use Rattle.std.specs.Prelude.{◌≡◌, ◌≤◌};
ghost use Rattle.grid.specs.Lawful.{box_count};
ghost use Rattle.grid.specs.States.{FitsLevel};
ghost use Rattle.shortest.specs.inside.Nearby.{IsFinderFor};

use crate::aim::Aim;
use crate::improving::{Finder, SQUARES_A_STATE};
use crate::listing::problem_of;
use crate::near::{Find, Form, search_near};
use crate::plays::moves_by;
use crate::trail::Trail;
use grid::{Level, MAX_BOXES, Moves, Position};
use prices::Progress;
use std::alloc::{AllocError, Global};
use successors::Problem;

/// The beams, one after the other: the most states of a layer that are expanded, and how many percent more pushes than
/// the bound are allowed. Narrow beams find solutions within few states; with fewer pushes allowed they find better ones.
const BEAMS: [(usize, u32); 9] = [
    (50, 0),
    (50, 20),
    (50, 60),
    (200, 0),
    (200, 20),
    (200, 60),
    (600, 0),
    (600, 20),
    (600, 60),
];

/// Looks for a solution of a level, given that each has at least `at_least` pushes. A cap allows no more than that many.
/// It ends once it has expanded `states` states, fewer on a large grid, or has run as many seconds as it may. The result
/// is a guess: replay it.
///
/// Fails only if out of memory.
pub fn first_solution<P: Progress>(
    alloc: Global,
    level: &Level,
    at_least: u32,
    cap: Option<u32>,
    states: usize,
    seconds: Option<u32>,
    progress: &mut P,
) -> Result<Option<Moves>, AllocError> {
    let states = states / (1 + level.squares() / SQUARES_A_STATE);
    if states < at_least as usize {
        return Ok(None);
    }
    let Some(start) = Position::start(level) else {
        return Ok(None);
    };
    level.tell_start();
    let problem = problem_of(alloc, level)?;
    let found = search_over(
        alloc, level, &problem, start, at_least, cap, states, seconds, progress,
    );
    drop(problem);
    found
}

// Looks for a solution from the start of the problem's level.
fn search_over<P: Progress>(
    alloc: Global,
    level: &Level,
    problem: &Problem,
    start: Position,
    at_least: u32,
    cap: Option<u32>,
    states: usize,
    seconds: Option<u32>,
    progress: &mut P,
) -> Result<Option<Moves>, AllocError>
    requires problem { problem.now.board ≡ level.now }
    requires fits { FitsLevel level.now start }
    requires few { box_count level.now ≤ MAX_BOXES }
{
    let mut finder = Finder::of(alloc, level, problem, start)?;
    let found = search_with(
        alloc,
        level,
        at_least,
        cap,
        states,
        seconds,
        &mut finder,
        progress,
    );
    drop(finder);
    found
}

// Looks for a solution with one beam after the other. It first makes the tables of a search of so many states.
fn search_with<P: Progress>(
    alloc: Global,
    level: &Level,
    at_least: u32,
    cap: Option<u32>,
    states: usize,
    seconds: Option<u32>,
    finder: &mut Finder<'_>,
    progress: &mut P,
) -> Result<Option<Moves>, AllocError>
    requires finder { IsFinderFor level.now finder.old }
{
    finder.bounds.make_tables_at(alloc, states)?;
    finder.bounds.make_tables_at(alloc, states)?;
    let mut left = states;
    for (width, percent) in BEAMS {
        let most = most_of(at_least, percent, cap);
        let find = search_once(alloc, level, most, width, left, seconds, finder, progress)?;
        left = left.saturating_sub(find.expanded);
        if let Some(pushes) = &find.pushes {
            return Ok(Some(moves_by(alloc, level, pushes.as_slice())?));
        }
    }
    Ok(None)
}

// Searches with one beam for a solution with at most this many pushes, in a beam so narrow that the states last to the
// end.
fn search_once<P: Progress>(
    alloc: Global,
    level: &Level,
    most: u32,
    width: usize,
    states: usize,
    seconds: Option<u32>,
    finder: &mut Finder<'_>,
    progress: &mut P,
) -> Result<Find, AllocError>
    requires finder { IsFinderFor level.now finder.old }
    ensures finder { IsFinderFor level.now finder.new }
{
    if most as usize > states {
        return Ok(Find::default());
    }
    finder.bounds.set_cap(most);
    let form = Form {
        aim: Aim::FewerPushes,
        displaced: 0,
        width: width.min(states / (most as usize).max(1)),
        states,
        seconds,
    };
    search_near(
        alloc,
        &finder.bounds,
        &finder.start,
        &Trail::new(alloc),
        form,
        &mut finder.memory,
        progress,
    )
}

// The pushes that are allowed: this many percent more than the bound, and an even number more, since all solutions of a
// level have an even number of pushes or all have an odd one.
fn most_of(at_least: u32, percent: u32, cap: Option<u32>) -> u32 {
    let more = at_least.saturating_mul(percent).div_ceil(200);
    let most = at_least.saturating_add(more.saturating_mul(2));
    match cap {
        Some(cap) => most.min(cap),
        None => most,
    }
}
