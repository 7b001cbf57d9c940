//! Rounds: in each the search expands several open positions side by side, and then enters what was found.
ghost use Rattle.std.specs.Prelude.{◌≡◌, ◌<◌, ◌≤◌, ◌^◌, List, IfOk, OnOk, length};
ghost use Rattle.store.specs.Visited.{Node};
ghost use Rattle.successors.specs.Problems.{Problem};
ghost use Rattle.prover.specs.inside.Rounds.{AreLanes, IsDesk, IsPick, IsLane};
ghost use Rattle.prover.specs.inside.Working.{GetsOn, HasSize, IsSearchOnBoard};

use crate::expansion::expand;
use crate::frontier::Frontier;
use crate::lane::{Lane, Pick, do_picks};
use crate::pruner::Pruner;
use crate::recording::enter;
use crate::searching::is_solved;
use crate::workspace::Workspace;
use spreading::for_each_spread;
use std::alloc::{AllocError, Global};
use std::thread::Threads;

/// The number of lanes. It bounds the workers of a round.
const LANES: usize = 16;

/// A round takes one position for each `FOUND_EACH` that were found. More of them keep more workers busy, but the
/// search expands them before it knows what the first ones lead to.
const FOUND_EACH: usize = 64;

/// The greatest number of positions of a round.
const MOST: usize = 64;

/// The memory of a search: the caller's workspace, and the lanes once a round needs them.
#[derive(Drop)]
pub(crate) struct Desk<'a> {
    pub(crate) workspace: Workspace<'a>,
    lanes: Vec<Lane<'a>>,
}

impl<'a> Desk<'a> {
    /// A desk without lanes. Fails only if out of memory.
    pub(crate) fn new(alloc: Global, pruner: &Pruner<'a>) -> Result<Desk<'a>, AllocError>
        ensures { IfOk result (λ desk. (all : List Node) → IsDesk pruner.now all desk) }
    {
        Ok(Desk {
            workspace: Workspace::new(alloc, pruner.problem())?,
            lanes: Vec::new(alloc),
        })
    }
}

/// Expands the open positions that a round has beside its first one, by at most `workers` threads, and enters what they
/// open. They have least totals of at most `reach`. A search that has found more positions than the limit expands none.
pub(crate) fn expand_more<'a, R: Threads + Sync>(
    rt: &R,
    alloc: Global,
    pruner: &Pruner<'a>,
    frontier: &mut Frontier,
    reach: u32,
    limit: u32,
    workers: u8,
    desk: &mut Desk<'a>,
) -> Result<(), AllocError>
    requires searched { IsSearchOnBoard pruner.now.board pruner.now.cap frontier.old }
    requires desk { IsDesk pruner.now frontier.old.entries desk.old }
    ensures searched { OnOk result (IsSearchOnBoard pruner.now.board pruner.now.cap frontier.new) }
    ensures goes_on { OnOk result (GetsOn frontier.old.entries frontier.new.entries) }
    ensures desk { OnOk result (IsDesk pruner.now frontier.new.entries desk.new) }
{
    let many = frontier.len() / FOUND_EACH;
    if many < 2 || frontier.len() > limit as usize {
        return Ok(());
    }
    let most = (many - 1).min(MOST - 1);
    add_lanes(alloc, pruner, &mut desk.lanes)?;
    let count = deal(
        alloc,
        pruner,
        frontier,
        reach,
        most,
        desk.lanes.as_mut_slice(),
    )?;
    do_each(
        rt,
        pruner,
        frontier,
        count.min(workers as usize),
        desk.lanes.as_mut_slice(),
    );
    enter_each(
        pruner,
        frontier,
        limit,
        desk.lanes.as_slice(),
        count,
        &mut desk.workspace,
    )
}

// Makes the lanes, unless they were made before.
fn add_lanes<'a>(
    alloc: Global,
    pruner: &Pruner<'a>,
    lanes: &mut Vec<Lane<'a>>,
) -> Result<(), AllocError>
    ensures lanes { OnOk result ((all : List Node) → AreLanes pruner.now all lanes.old.items →
        AreLanes pruner.now all lanes.new.items) }
    ensures all { OnOk result (LANES ≤ length lanes.new.items) }
{
    for _ in lanes.len()..LANES {
        let lane = Lane::new(alloc, pruner)?;
        lanes.push(lane)?;
    }
    Ok(())
}

// Deals the next open positions with least totals of at most `reach`, up to `most` of them, one to each lane in turn.
// Stops at a solved one. Returns how many were dealt.
fn deal(
    alloc: Global,
    pruner: &Pruner<'_>,
    frontier: &mut Frontier,
    reach: u32,
    most: usize,
    lanes: &mut [Lane<'_>],
) -> Result<usize, AllocError>
    requires searched { IsSearchOnBoard pruner.now.board pruner.now.cap frontier.old }
    requires few { length frontier.old.entries < 2 ^ 32 }
    requires lanes { AreLanes pruner.now frontier.old.entries lanes.old }
    requires all { LANES ≤ length lanes.old }
    ensures same { OnOk result (frontier.new ≡ frontier.old) }
    ensures lanes { OnOk result (AreLanes pruner.now frontier.old.entries lanes.new) }
    ensures all { OnOk result (length lanes.new ≡ length lanes.old) }
{
    clear_all(lanes);
    let mut count = 0;
    for index in 0..most {
        let Some(place) = frontier.take_open(reach)? else {
            break;
        };
        let from = frontier.expanded(place, reach);
        let solved = is_solved(pruner.level(), &from.position);
        if solved {
            break;
        }
        lanes[index % LANES].add(alloc, pruner, from)?;
        count = index + 1;
    }
    Ok(count)
}

// Forgets the picks of each lane.
fn clear_all(lanes: &mut [Lane<'_>])
    ensures lanes { (t : Problem) (all : List Node) → AreLanes t all lanes.old → AreLanes t all lanes.new }
    ensures all { length lanes.new ≡ length lanes.old }
{
    for index in 0..lanes.len() {
        lanes[index].clear();
    }
}

// Does the picks of each lane, in at most `threads` threads. Each pick sees the frontier as it was before the round.
fn do_each<R: Threads + Sync>(
    rt: &R,
    pruner: &Pruner<'_>,
    frontier: &Frontier,
    threads: usize,
    lanes: &mut [Lane<'_>],
)
    requires size { HasSize pruner.now.board frontier.now }
    requires lanes { AreLanes pruner.now frontier.now.entries lanes.old }
    ensures lanes { AreLanes pruner.now frontier.now.entries lanes.new }
    ensures all { length lanes.new ≡ length lanes.old }
{
    for_each_spread(
        rt,
        lanes,
        threads,
        &|_, lane: &mut Lane<'_>|
            requires size { HasSize pruner.now.board frontier.now }
            requires lane { IsLane pruner.now frontier.now.entries lane.now }
            ensures { IsLane pruner.entry.now frontier.entry.now.entries lane.exit.now }
        { do_picks(pruner, frontier, lane) },
    );
}

// Enters what the first picks have found, in the order in which they were dealt, until the search has found more
// positions than the limit.
fn enter_each(
    pruner: &Pruner<'_>,
    frontier: &mut Frontier,
    limit: u32,
    lanes: &[Lane<'_>],
    count: usize,
    workspace: &mut Workspace<'_>,
) -> Result<(), AllocError>
    requires searched { IsSearchOnBoard pruner.now.board pruner.now.cap frontier.old }
    requires lanes { AreLanes pruner.now frontier.old.entries lanes.now }
    requires all { LANES ≤ length lanes.now }
    requires problem { workspace.old.expander.problem ≡ pruner.now }
    ensures searched { OnOk result (IsSearchOnBoard pruner.now.board pruner.now.cap frontier.new) }
    ensures goes_on { OnOk result (GetsOn frontier.old.entries frontier.new.entries) }
    ensures problem { workspace.new.expander.problem ≡ workspace.old.expander.problem }
{
    for index in 0..count {
        let picks = lanes[index % LANES].picks.as_slice();
        if index / LANES >= picks.len() || frontier.len() > limit as usize {
            break;
        }
        enter_pick(pruner, frontier, &picks[index / LANES], workspace)?;
    }
    Ok(())
}

// Enters what a pick has found. Leaves it out if the position was found with fewer pushes meanwhile, was closed, or was
// put off to greater totals. Expands the position here if the pick's thread ran out of memory.
fn enter_pick(
    pruner: &Pruner<'_>,
    frontier: &mut Frontier,
    pick: &Pick,
    workspace: &mut Workspace<'_>,
) -> Result<(), AllocError>
    requires searched { IsSearchOnBoard pruner.now.board pruner.now.cap frontier.old }
    requires pick { IsPick pruner.now frontier.old.entries pick.now }
    requires problem { workspace.old.expander.problem ≡ pruner.now }
    ensures searched { OnOk result (IsSearchOnBoard pruner.now.board pruner.now.cap frontier.new) }
    ensures goes_on { OnOk result (GetsOn frontier.old.entries frontier.new.entries) }
    ensures problem { workspace.new.expander.problem ≡ workspace.old.expander.problem }
{
    let waits = frontier.waits(&pick.from);
    if !waits {
        return Ok(());
    }
    if !pick.is_done {
        return expand(pruner, frontier, &pick.from, workspace);
    }
    enter(
        pruner,
        frontier,
        &pick.from,
        pick.opened.as_slice(),
        pick.next,
    )
}
