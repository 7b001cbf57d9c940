//! Searches by layers, near a solution for a better one, or for a first one.
//!
//! Layer k has states after k pushes. The search lists a state if the bounds allow its pushes, keeps the fewest moves
//! that it found to it, and expands the states of a layer with the best ranks. Near a solution it lists only states of
//! which few boxes are elsewhere than in some position of the solution round the layer, and always expands that of the
//! solution. This is a guess: contracts say only that the calls are safe.
ghost use Rattle.std.specs.Prelude.{◌≡◌, ◌≤◌, IfOk, IfSome, Some};
ghost use Rattle.grid.specs.Lawful.{box_count};
ghost use Rattle.grid.specs.States.{FitsLevel};
ghost use Rattle.area.specs.Pushes.{CanPush};
ghost use Rattle.store.specs.FoundView.{FitsGrid};
ghost use Rattle.successors.specs.Expanding.{HasPushesOf};
ghost use Rattle.shortest.specs.inside.Nearby.{IsListFor, IsMemoryFor};

use crate::aim::Aim;
use crate::bounds::Bounds;
use crate::listing::{Workspace, state_after};
use crate::ranks::{allowed_of, label_of, pushes_to_last, rank_of, ranks_of, solved_in};
use crate::states::{Reached, reached_at};
use crate::trail::{Trail, Vicinity};
use area::Walks;
use grid::{Level, MAX_BOXES, Position, Push};
use prices::{Progress, Slack, is_late};
use std::alloc::{AllocError, Global};
use store::{Label, Parent, Visited};
use successors::Problem;

/// What a search may list.
#[derive(Clone, Copy)]
pub(crate) struct Form {
    pub(crate) aim: Aim,
    /// The most boxes of a state that are elsewhere than in a position of the solution.
    pub(crate) displaced: u32,
    /// The most states of a layer that are expanded.
    pub(crate) width: usize,
    /// The most states that are expanded.
    pub(crate) states: usize,
    /// The most seconds that the search and those before it may take.
    pub(crate) seconds: Option<u32>,
}

/// How a search ended: with the pushes of a solution, or without; the number of expanded states; and whether the
/// width kept it from expanding some that it listed.
#[derive(Default, Drop)]
pub(crate) struct Find {
    pub(crate) pushes: Option<Vec<Push>>,
    pub(crate) expanded: usize,
    pub(crate) is_cut: bool,
}

/// Memory to expand states.
#[derive(Drop)]
pub(crate) struct Memory<'a> {
    workspace: Workspace<'a>,
    walks: Walks,
}

impl<'a> Memory<'a> {
    /// The memory for a problem. Fails only if out of memory.
    pub(crate) fn new(alloc: Global, problem: &'a Problem) -> Result<Memory<'a>, AllocError>
        ensures { IfOk result (λ memory. IsMemoryFor problem.now.board memory) }
    {
        Ok(Memory {
            workspace: Workspace::new(alloc, problem)?,
            walks: Walks::new(alloc, problem.level())?,
        })
    }
}

/// A search: its solution, what it may list, the positions of the solution round the layer that it lists, the pushes of
/// that layer and those that are left, the place of the first state before these pushes, and whether the width kept it
/// from expanding some states.
#[derive(Drop)]
pub(crate) struct Front<'a> {
    trail: &'a Trail,
    form: Form,
    vicinity: Vicinity,
    pushes: u32,
    left: u32,
    begin: usize,
    is_cut: bool,
}

/// Searches for a solution with at most as many pushes as the bounds say, near that of the trail if it is not empty.
/// Fails only if out of memory.
pub(crate) fn search_near<P: Progress>(
    alloc: Global,
    bounds: &Bounds<'_>,
    start: &Position,
    trail: &Trail,
    form: Form,
    memory: &mut Memory<'_>,
    progress: &mut P,
) -> Result<Find, AllocError>
    requires fits { FitsLevel bounds.now.board start.now }
    requires few { box_count bounds.now.board ≤ MAX_BOXES }
    requires ready { IsMemoryFor bounds.now.board memory.old }
    ensures ready { IsMemoryFor bounds.now.board memory.new }
{
    let level = bounds.level();
    let mut kept = Visited::of(alloc, level.boxes(), level.squares());
    let find = find_in(
        alloc, bounds, start, trail, form, &mut kept, memory, progress,
    );
    drop(kept);
    find
}

// Searches with an empty list of states.
fn find_in<P: Progress>(
    alloc: Global,
    bounds: &Bounds<'_>,
    start: &Position,
    trail: &Trail,
    form: Form,
    kept: &mut Visited,
    memory: &mut Memory<'_>,
    progress: &mut P,
) -> Result<Find, AllocError>
    requires fits { FitsLevel bounds.now.board start.now }
    requires few { box_count bounds.now.board ≤ MAX_BOXES }
    requires ready { IsMemoryFor bounds.now.board memory.old }
    requires list { IsListFor bounds.now.board kept.old }
    ensures ready { IsMemoryFor bounds.now.board memory.new }
{
    let _ = kept.enter(start, label_of(0, 0, None))?;
    let mut front = Front {
        trail,
        form,
        vicinity: Vicinity::of(alloc, bounds.level(), trail)?,
        pushes: 0,
        left: bounds.cap(),
        begin: 0,
        is_cut: false,
    };
    let end = list_layers(alloc, bounds, &mut front, kept, memory, progress);
    let is_cut = front.is_cut;
    drop(front);
    let pushes = match end? {
        true => Some(pushes_to_last(alloc, kept)?),
        false => None,
    };
    Ok(Find {
        pushes,
        expanded: kept.len(),
        is_cut,
    })
}

// Lists layer by layer, until a state is solved or the form allows no more. Returns whether the last state that it kept
// is solved.
fn list_layers<P: Progress>(
    alloc: Global,
    bounds: &Bounds<'_>,
    front: &mut Front<'_>,
    kept: &mut Visited,
    memory: &mut Memory<'_>,
    progress: &mut P,
) -> Result<bool, AllocError>
    requires few { box_count bounds.now.board ≤ MAX_BOXES }
    requires ready { IsMemoryFor bounds.now.board memory.old }
    requires list { IsListFor bounds.now.board kept.old }
    ensures ready { IsMemoryFor bounds.now.board memory.new }
{
    for pushes in 1..=bounds.cap() {
        front.pushes = pushes;
        front.left = bounds.cap() - pushes;
        let is_solved = list_layer(alloc, bounds, front, kept, memory, progress)?;
        if is_solved || kept.len() == front.begin {
            return Ok(is_solved);
        }
    }
    Ok(false)
}

// Lists a layer, and keeps the best of its states. Returns whether the last of them is solved.
fn list_layer<P: Progress>(
    alloc: Global,
    bounds: &Bounds<'_>,
    front: &mut Front<'_>,
    kept: &mut Visited,
    memory: &mut Memory<'_>,
    progress: &mut P,
) -> Result<bool, AllocError>
    requires few { box_count bounds.now.board ≤ MAX_BOXES }
    requires ready { IsMemoryFor bounds.now.board memory.old }
    requires list { IsListFor bounds.now.board kept.old }
    ensures ready { IsMemoryFor bounds.now.board memory.new }
    ensures list { IsListFor bounds.now.board kept.new }
{
    let level = bounds.level();
    let mut listed = Visited::of(alloc, level.boxes(), level.squares());
    front.vicinity.go_to(front.trail, front.pushes as usize);
    let end = expand_all(bounds, front, kept, &mut listed, memory, progress);
    let is_solved = end.and(keep_best(alloc, bounds, front, &listed, kept, memory));
    drop(listed);
    is_solved
}

// Lists the states after those that were kept last, until the time is up.
fn expand_all<P: Progress>(
    bounds: &Bounds<'_>,
    front: &Front<'_>,
    kept: &Visited,
    listed: &mut Visited,
    memory: &mut Memory<'_>,
    progress: &mut P,
) -> Result<(), AllocError>
    requires ready { IsMemoryFor bounds.now.board memory.old }
    requires before { IsListFor bounds.now.board kept.now }
    requires list { IsListFor bounds.now.board listed.old }
    ensures ready { IsMemoryFor bounds.now.board memory.new }
{
    for place in front.begin..kept.len() {
        if is_late(front.form.seconds, progress) {
            break;
        }
        let from = reached_at(kept, place);
        if from.state.fits(bounds.level()) {
            expand(bounds, front, &from, place, kept, listed, memory)?;
        }
    }
    Ok(())
}

// Keeps the states with the best ranks, or the best solved one. Returns which of these.
fn keep_best(
    alloc: Global,
    bounds: &Bounds<'_>,
    front: &mut Front<'_>,
    listed: &Visited,
    kept: &mut Visited,
    memory: &mut Memory<'_>,
) -> Result<bool, AllocError>
    requires ready { IsMemoryFor bounds.now.board memory.old }
    requires list { IsListFor bounds.now.board kept.old }
    ensures ready { IsMemoryFor bounds.now.board memory.new }
    ensures list { IsListFor bounds.now.board kept.new }
{
    front.begin = kept.len();
    if let Some(place) = solved_in(bounds.level(), listed) {
        keep(bounds.level(), listed, place, kept)?;
        return Ok(true);
    }
    let width = front.form.width;
    let ranked = ranks_of(alloc, front.trail, front.pushes, listed)?;
    let ranked = allowed_of(
        alloc,
        bounds,
        front.trail,
        front.left,
        width,
        ranked,
        listed,
        &mut memory.workspace.matching,
    )?;
    front.is_cut |= ranked.len() > width;
    let most = front.form.states.min(kept.len().saturating_add(width));
    for row in ranked.as_slice() {
        if kept.len() >= most {
            break;
        }
        let (_, place) = *row;
        keep(bounds.level(), listed, place, kept)?;
    }
    Ok(false)
}

// Keeps the listed state at a place.
fn keep(level: &Level, listed: &Visited, place: usize, kept: &mut Visited) -> Result<(), AllocError>
    requires { IsListFor level.now kept.old }
    ensures { IsListFor level.now kept.new }
{
    if place >= listed.len() {
        return Ok(());
    }
    let state = listed.position(place);
    if state.fits(level) {
        let _ = kept.enter(&state, listed.label(place))?;
    }
    Ok(())
}

// Lists the states after each push of the state at a place. The state's number of pushes is that of its moves.
fn expand(
    bounds: &Bounds<'_>,
    front: &Front<'_>,
    from: &Reached,
    place: usize,
    kept: &Visited,
    listed: &mut Visited,
    memory: &mut Memory<'_>,
) -> Result<(), AllocError>
    requires fits { FitsLevel bounds.now.board from.now.state }
    requires before { IsListFor bounds.now.board kept.now }
    requires ready { IsMemoryFor bounds.now.board memory.old }
    requires list { IsListFor bounds.now.board listed.old }
    ensures ready { IsMemoryFor bounds.now.board memory.new }
    ensures list { IsListFor bounds.now.board listed.new }
{
    memory.workspace.expander.find_pushes(&from.state);
    memory.walks.measure(bounds.level(), &from.state);
    bounds
        .distances()
        .meet(&from.state, &mut memory.workspace.matching);
    let slack = Slack::of(
        bounds.distances(),
        &from.state,
        Some(front.left),
        &memory.workspace.matching,
    );
    for index in 0..memory.workspace.expander.pushes().len() {
        let push = memory.workspace.expander.pushes()[index];
        list_after(
            bounds, front, from, place, push, &slack, kept, listed, memory,
        )?;
    }
    Ok(())
}

// Lists the state after a push, if it is near the solution, the bounds allow it, and no layer before kept it.
fn list_after(
    bounds: &Bounds<'_>,
    front: &Front<'_>,
    from: &Reached,
    place: usize,
    push: Push,
    slack: &Slack<'_>,
    kept: &Visited,
    listed: &mut Visited,
    memory: &mut Memory<'_>,
) -> Result<(), AllocError>
    requires fits { FitsLevel bounds.now.board from.now.state }
    requires ready { IsMemoryFor bounds.now.board memory.old }
    requires found { HasPushesOf memory.old.workspace.expander from.now.state }
    requires possible { CanPush bounds.now.board from.now.state push }
    requires slack { (slack.now.board ≡ bounds.now.board) × (slack.now.scene ≡ from.now.state) ×
        (slack.now.left ≡ Some front.now.left) }
    requires before { IsListFor bounds.now.board kept.now }
    requires list { IsListFor bounds.now.board listed.old }
    ensures ready { IsMemoryFor bounds.now.board memory.new }
    ensures kept { memory.new.workspace.expander ≡ memory.old.workspace.expander }
    ensures list { IsListFor bounds.now.board listed.new }
{
    let Push { square, dir } = push;
    let ahead = bounds.level().next(square, dir);
    let behind = bounds.level().next(square, dir.opposite());
    let boxes = from.state.boxes();
    let Some(nearness) = front
        .vicinity
        .nearness(boxes, square, ahead, front.form.displaced)
    else {
        return Ok(());
    };
    let after = next_state(
        bounds,
        front,
        from,
        Push { square, dir },
        slack,
        &mut memory.workspace,
    );
    let Some(after) = after else {
        return Ok(());
    };
    let walk = memory.walks.length_to(behind);
    let moves = from.pushes.saturating_add(walk).saturating_add(1);
    let rank = rank_of(
        bounds,
        front.form.aim,
        nearness,
        &after,
        &mut memory.workspace,
    );
    let parent = Parent {
        place: u32::try_from(place).unwrap_or(u32::MAX),
        push: Push { square, dir },
    };
    enter(kept, &after, label_of(moves, rank, Some(parent)), listed)
}

// The state after a push, if the bounds allow it. Where pushes are counted, the player is on the least square of his
// area, so that states which differ in his walks alone are one.
fn next_state(
    bounds: &Bounds<'_>,
    front: &Front<'_>,
    from: &Reached,
    push: Push,
    slack: &Slack<'_>,
    workspace: &mut Workspace<'_>,
) -> Option<Position>
    requires board { workspace.old.expander.problem.board ≡ bounds.now.board }
    requires fits { FitsLevel bounds.now.board from.now.state }
    requires found { HasPushesOf workspace.old.expander from.now.state }
    requires possible { CanPush bounds.now.board from.now.state push }
    requires slack { (slack.now.board ≡ bounds.now.board) × (slack.now.scene ≡ from.now.state) ×
        (slack.now.left ≡ Some front.now.left) }
    ensures fits { IfSome result (FitsLevel bounds.now.board) }
    ensures kept { workspace.new.expander ≡ workspace.old.expander }
{
    let Push { square, dir } = push;
    if front.form.aim == Aim::FewerMoves {
        return state_after(
            bounds,
            from,
            front.left,
            Push { square, dir },
            slack,
            workspace,
        );
    }
    if slack.never_helps(square, dir) {
        return None;
    }
    let Some(after) = workspace
        .expander
        .try_push(&from.state, Push { square, dir })
    else {
        return None;
    };
    workspace.next_matching.copy_from(&workspace.matching);
    let low = bounds
        .distances()
        .lower(&after, &mut workspace.next_matching);
    if low > u64::from(front.left) {
        return None;
    }
    Some(after)
}

// Enters a state, if no layer before kept it, or gives it a label with fewer moves.
fn enter(
    kept: &Visited,
    state: &Position,
    label: Label,
    listed: &mut Visited,
) -> Result<(), AllocError>
    requires before { FitsGrid kept.now.boxes kept.now.squares state.now }
    requires list { FitsGrid listed.old.boxes listed.old.squares state.now }
    ensures { (listed.new.boxes ≡ listed.old.boxes) × (listed.new.squares ≡ listed.old.squares) }
{
    if kept.find(state).is_none() {
        let _ = listed.enter(state, label)?;
    }
    Ok(())
}
