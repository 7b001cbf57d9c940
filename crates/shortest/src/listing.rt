//! Lists the states that plays with the fewest pushes may reach, by their numbers of pushes.
ghost use Rattle.std.specs.Prelude.{◌≡◌, ℕ, suc, ◌<◌, ◌≤◌, IfOk, IfSome, None, OnOk, Some, [], length, slice_get};
ghost use Rattle.grid.specs.Board.{start};
ghost use Rattle.grid.specs.Lawful.{box_count};
ghost use Rattle.grid.specs.States.{FitsLevel};
ghost use Rattle.area.specs.Pushes.{CanPush};
ghost use Rattle.prices.specs.Timing.{IsLate};
ghost use Rattle.store.specs.FoundView.{FitsGrid};
ghost use Rattle.store.specs.Visited.{Node};
ghost use Rattle.successors.specs.Capping.{capped};
ghost use Rattle.successors.specs.Expanding.{HasPushesOf};
ghost use Rattle.shortest.specs.inside.Nearby.{IsListFor};
ghost use Rattle.shortest.specs.inside.Listing.{EndsListing, IsAfter, IsEntryAt, IsStateList, ListsIf};

use crate::bounds::Bounds;
use crate::states::{Reached, reached_at};
use grid::{Level, MAX_BOXES, Position, Push};
use prices::{Matching, Progress, Slack, is_late};
use std::alloc::{AllocError, Global};
use std::sync::Arc;
use store::{Label, Visited};
use successors::{Expander, Problem};

/// How a listing ends.
#[derive(Clone, Copy)]
pub(crate) enum ListEnd {
    /// All states are listed.
    Whole,
    /// There are more than the limit.
    Limit,
    /// The time is up.
    Stopped,
}

/// Memory to expand states: for their pushes, and for the matchings of a state and of one after it.
#[derive(Drop)]
pub(crate) struct Workspace<'a> {
    pub(crate) expander: Expander<'a>,
    pub(crate) matching: Matching,
    pub(crate) next_matching: Matching,
}

impl<'a> Workspace<'a> {
    /// The memory for a problem. Fails only if out of memory.
    pub(crate) fn new(alloc: Global, problem: &'a Problem) -> Result<Workspace<'a>, AllocError>
        ensures { IfOk result (λ workspace. workspace.expander.problem ≡ problem.now) }
    {
        Ok(Workspace {
            expander: Expander::new(alloc, problem)?,
            matching: Matching::new(),
            next_matching: Matching::new(),
        })
    }
}

/// Lists the start in an empty list. Fails only if out of memory.
pub(crate) fn begin(level: &Level, first: &Position, listed: &mut Visited) -> Result<(), AllocError>
    requires first { first.now ≡ start level.now }
    requires fits { FitsLevel level.now (start level.now) }
    requires empty { listed.old.entries ≡ [] }
    requires size { IsListFor level.now listed.old }
    ensures { OnOk result ((most : ℕ) → IsStateList level.now most 0 listed.new) }
{
    let _ = listed.enter(first, label_of(0))?;
    Ok(())
}

/// Lists the states that plays with at most `most` pushes may reach. It stops once these are more than `limit`, or it has
/// run as many seconds as it may. Fails only if out of memory.
pub(crate) fn list_states<P: Progress>(
    alloc: Global,
    level: &Level,
    most: u32,
    limit: u32,
    seconds: Option<u32>,
    listed: &mut Visited,
    progress: &mut P,
) -> Result<ListEnd, AllocError>
    requires listing { IsStateList level.now most 0 listed.old }
    requires few { box_count level.now ≤ MAX_BOXES }
    ensures { IfOk result (λ end. EndsListing level.now most limit
        (IsLate seconds (P.told progress.new)) listed.new end) }
{
    let problem = problem_of(alloc, level)?;
    let end = list_over(alloc, &problem, most, limit, seconds, listed, progress);
    drop(problem);
    end
}

/// The problem of a level, with no cap: the bounds prune in its place. Fails only if out of memory.
pub(crate) fn problem_of(alloc: Global, level: &Level) -> Result<Problem, AllocError>
    ensures { IfOk result (λ problem. problem ≡ capped level.now None) }
{
    let shared = Arc::new(alloc, level.copy()?)?;
    Problem::of(alloc, &shared, None)
}

// Lists the states of a problem.
fn list_over<P: Progress>(
    alloc: Global,
    problem: &Problem,
    most: u32,
    limit: u32,
    seconds: Option<u32>,
    listed: &mut Visited,
    progress: &mut P,
) -> Result<ListEnd, AllocError>
    requires listing { IsStateList problem.now.board most 0 listed.old }
    requires few { box_count problem.now.board ≤ MAX_BOXES }
    ensures { IfOk result (λ end. EndsListing problem.now.board most limit
        (IsLate seconds (P.told progress.new)) listed.new end) }
{
    let mut bounds = Bounds::of(alloc, problem.level(), most)?;
    let mut workspace = Workspace::new(alloc, problem)?;
    let end = list_all(
        alloc,
        &mut bounds,
        limit,
        seconds,
        listed,
        &mut workspace,
        progress,
    );
    drop(workspace);
    drop(bounds);
    end
}

// Expands the states in order. Makes tables of larger regions the more states are listed.
fn list_all<P: Progress>(
    alloc: Global,
    bounds: &mut Bounds<'_>,
    limit: u32,
    seconds: Option<u32>,
    listed: &mut Visited,
    workspace: &mut Workspace<'_>,
    progress: &mut P,
) -> Result<ListEnd, AllocError>
    requires board { workspace.old.expander.problem.board ≡ bounds.old.board }
    requires listing { IsStateList bounds.old.board bounds.old.cap 0 listed.old }
    ensures { IfOk result (λ end. EndsListing bounds.old.board bounds.old.cap limit
        (IsLate seconds (P.told progress.new)) listed.new end) }
{
    let mut place = 0;
    while place < listed.len() {
        if listed.len() > limit as usize {
            return Ok(ListEnd::Limit);
        }
        let late = is_late(seconds, progress);
        if late {
            return Ok(ListEnd::Stopped);
        }
        bounds.make_tables_at(alloc, listed.len())?;
        expand(bounds, listed, place, workspace)?;
        place += 1;
    }
    Ok(ListEnd::Whole)
}

// Lists the states that the pushes of the state at a place lead to.
fn expand(
    bounds: &Bounds<'_>,
    listed: &mut Visited,
    place: usize,
    workspace: &mut Workspace<'_>,
) -> Result<(), AllocError>
    requires listing { IsStateList bounds.now.board bounds.now.cap place listed.old }
    requires place { place < length listed.old.entries }
    requires board { workspace.old.expander.problem.board ≡ bounds.now.board }
    ensures listing { OnOk result (IsStateList bounds.now.board bounds.now.cap (suc place) listed.new) }
    ensures board { workspace.new.expander.problem.board ≡ bounds.now.board }
{
    let from = reached_at(listed, place);
    if from.pushes >= bounds.cap() {
        return Ok(());
    }
    list_after(bounds, &from, place, listed, workspace)
}

// Lists the states after each push of a state.
fn list_after(
    bounds: &Bounds<'_>,
    from: &Reached,
    place: usize,
    listed: &mut Visited,
    workspace: &mut Workspace<'_>,
) -> Result<(), AllocError>
    requires listing { IsStateList bounds.now.board bounds.now.cap place listed.old }
    requires at_place { IsEntryAt listed.old.entries place from.now.state from.now.pushes }
    requires fewer { from.now.pushes < bounds.now.cap }
    requires board { workspace.old.expander.problem.board ≡ bounds.now.board }
    ensures listing { OnOk result (IsStateList bounds.now.board bounds.now.cap (suc place) listed.new) }
    ensures board { workspace.new.expander.problem.board ≡ bounds.now.board }
{
    workspace.expander.find_pushes(&from.state);
    workspace.matching = Matching::new();
    bounds
        .distances()
        .meet(&from.state, &mut workspace.matching);
    let left = bounds.cap() - from.pushes - 1;
    let slack = Slack::of(
        bounds.distances(),
        &from.state,
        Some(left),
        &workspace.matching,
    );
    for index in 0..workspace.expander.pushes().len() {
        let push = workspace.expander.pushes()[index];
        let after = state_after(bounds, from, left, push, &slack, workspace);
        list_if_some(listed, &after, from.pushes + 1)?;
    }
    Ok(())
}

/// The state after a push. `None` only if no play goes on from there and ends solved with at most `left` pushes.
pub(crate) fn state_after(
    bounds: &Bounds<'_>,
    from: &Reached,
    left: u32,
    push: Push,
    slack: &Slack<'_>,
    workspace: &mut Workspace<'_>,
) -> Option<Position>
    requires board { workspace.old.expander.problem.board ≡ bounds.now.board }
    requires found { HasPushesOf workspace.old.expander from.now.state }
    requires possible { CanPush bounds.now.board from.now.state push }
    requires fits { FitsLevel bounds.now.board from.now.state }
    requires slack { (slack.now.board ≡ bounds.now.board) × (slack.now.scene ≡ from.now.state) ×
        (slack.now.left ≡ Some left) }
    ensures after { IsAfter bounds.now.board left from.now.state push result }
    ensures kept { workspace.new.expander ≡ workspace.old.expander }
{
    let Push { square, dir } = push;
    if slack.never_helps(square, dir) {
        return None;
    }
    let Some(mut after) = workspace
        .expander
        .try_push(&from.state, Push { square, dir })
    else {
        return None;
    };
    after.set_player(square);
    workspace.next_matching.copy_from(&workspace.matching);
    let allowed = bounds.allow(&after, left, &mut workspace.next_matching);
    if !allowed {
        return None;
    }
    Some(after)
}

// Lists a state, if there is one that is not listed yet.
fn list_if_some(
    listed: &mut Visited,
    state: &Option<Position>,
    pushes: u32,
) -> Result<(), AllocError>
    requires fits { IfSome state.now (λ s. FitsGrid listed.old.boxes listed.old.squares s) }
    requires most { (i : ℕ) (x : Node) → slice_get listed.old.entries i ≡ Some x → x.pushes ≤ pushes }
    ensures lists { OnOk result (ListsIf listed.old.entries listed.new.entries pushes state.now) }
    ensures size { (listed.new.boxes ≡ listed.old.boxes) × (listed.new.squares ≡ listed.old.squares) }
{
    let Some(state) = state else {
        return Ok(());
    };
    let _ = listed.enter(state, label_of(pushes))?;
    Ok(())
}

// The label of a state that this many pushes lead to.
fn label_of(pushes: u32) -> Label
    ensures { result ≡ record { pushes = pushes; least = None; parent = None } }
{
    Label {
        pushes,
        least: None,
        parent: None,
    }
}
