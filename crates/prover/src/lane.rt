//! Lanes: each expands some positions of a round, one after the other, in a workspace of its own.
ghost use Rattle.std.specs.Prelude.{◌≡◌, List, IfOk, OnOk};
ghost use Rattle.store.specs.Visited.{Node};
ghost use Rattle.successors.specs.Problems.{Problem};
ghost use Rattle.prover.specs.inside.Rounds.{ArePicks, IsPick, IsLane};
ghost use Rattle.prover.specs.inside.Working.{HasSize, MayBeExpanded};

use crate::expansion::open_all;
use crate::frontier::Frontier;
use crate::pruner::Pruner;
use crate::pushing::{Expanded, Opened};
use crate::workspace::Workspace;
use std::alloc::{AllocError, Global};
use std::mem::swap;

/// A position of a round. Once the pick is done, also the positions that its expansion has opened, and the least total
/// of the pushes that it has left for later.
#[derive(Drop)]
pub(crate) struct Pick {
    pub(crate) from: Expanded,
    pub(crate) opened: Vec<Opened>,
    pub(crate) next: Option<u32>,
    pub(crate) is_done: bool,
}

/// A workspace with the picks of a round that are done in it. A lane's findings depend on its picks and on what was found
/// before the round. The picks that it gets do not depend on the number of workers, so its findings do not either.
#[derive(Drop)]
pub(crate) struct Lane<'a> {
    pub(crate) workspace: Workspace<'a>,
    pub(crate) picks: Vec<Pick>,
}

impl<'a> Lane<'a> {
    /// A lane without picks. Fails only if out of memory.
    pub(crate) fn new(alloc: Global, pruner: &Pruner<'a>) -> Result<Lane<'a>, AllocError>
        ensures { IfOk result (λ lane. (all : List Node) → IsLane pruner.now all lane) }
    {
        Ok(Lane {
            workspace: Workspace::new(alloc, pruner.problem())?,
            picks: Vec::new(alloc),
        })
    }

    /// Forgets the picks.
    pub(crate) fn clear(&mut self)
        ensures { (t : Problem) (all : List Node) → IsLane t all self.old → IsLane t all self.new }
    {
        self.picks.clear();
    }

    /// Adds a position to be expanded. Fails only if out of memory.
    pub(crate) fn add(
        &mut self,
        alloc: Global,
        pruner: &Pruner<'_>,
        from: Expanded,
    ) -> Result<(), AllocError>
        requires { MayBeExpanded pruner.now.board from }
        ensures { OnOk result ((all : List Node) → IsLane pruner.now all self.old → IsLane pruner.now all self.new) }
    {
        self.picks.push(Pick {
            from,
            opened: Vec::new(alloc),
            next: None,
            is_done: false,
        })?;
        Ok(())
    }
}

/// Does the picks of a lane. One that runs out of memory stays undone.
pub(crate) fn do_picks(pruner: &Pruner<'_>, frontier: &Frontier, lane: &mut Lane<'_>)
    requires size { HasSize pruner.now.board frontier.now }
    requires lane { IsLane pruner.now frontier.now.entries lane.old }
    ensures { IsLane pruner.now frontier.now.entries lane.new }
{
    do_all(
        pruner,
        frontier,
        lane.picks.as_mut_slice(),
        &mut lane.workspace,
    );
}

// Expands the positions of all picks.
fn do_all(
    pruner: &Pruner<'_>,
    frontier: &Frontier,
    picks: &mut [Pick],
    workspace: &mut Workspace<'_>,
)
    requires size { HasSize pruner.now.board frontier.now }
    requires picks { ArePicks pruner.now frontier.now.entries picks.old }
    requires problem { workspace.old.expander.problem ≡ pruner.now }
    ensures picks { ArePicks pruner.now frontier.now.entries picks.new }
    ensures problem { workspace.new.expander.problem ≡ pruner.now }
{
    for index in 0..picks.len() {
        do_pick(pruner, frontier, &mut picks[index], workspace);
    }
}

// Expands the position of a pick, and leaves in the pick what was found. If memory runs out, the pick stays undone.
fn do_pick(pruner: &Pruner<'_>, frontier: &Frontier, pick: &mut Pick, workspace: &mut Workspace<'_>)
    requires size { HasSize pruner.now.board frontier.now }
    requires pick { IsPick pruner.now frontier.now.entries pick.old }
    requires problem { workspace.old.expander.problem ≡ pruner.now }
    ensures pick { IsPick pruner.now frontier.now.entries pick.new }
    ensures problem { workspace.new.expander.problem ≡ pruner.now }
{
    let done = open_all(pruner, frontier, &pick.from, workspace).is_ok();
    pick.is_done = done;
    pick.next = workspace.next;
    swap(&mut pick.opened, &mut workspace.opened);
}
