//! The position that a push leads to.
ghost use Rattle.std.specs.Prelude.{◌≡◌, ◌+◌, ℕ, suc, OnOk};
ghost use Rattle.area.specs.Pushes.{CanPush};
ghost use Rattle.successors.specs.Expanding.{HasPushesOf};
ghost use Rattle.prover.specs.inside.Working.{Defers, HasSize, IsChosen, IsExpandable, IsKept, IsPushDone, Opens};
ghost use Rattle.prover.specs.inside.Working.{lesser_total, tighter};

use crate::frontier::Frontier;
use crate::pruner::{Pruner, total_of};
use crate::workspace::Workspace;
use grid::{Position, Push};
use prices::{NEVER, Slack};
use std::alloc::AllocError;

/// A position that is expanded, with the number of pushes that led to it, the greatest total that it is expanded for,
/// and its place.
#[derive(Drop)]
pub(crate) struct Expanded {
    pub(crate) position: Position,
    pub(crate) pushes: u32,
    pub(crate) reach: u32,
    pub(crate) place: u32,
}

/// A position that an expansion has opened, with the push that leads to it and its total.
#[derive(Drop)]
pub(crate) struct Opened {
    pub(crate) position: Position,
    pub(crate) push: Push,
    pub(crate) total: u32,
}

/// Opens the position that a push leads to. With `only`, it leaves out a push of another box than the corral's. It also
/// leaves out a push that costs more than the cap allows, and leaves for later one that costs more than `from.reach`.
#[tactic(auto, using(crate::proofs::Steps::opens_none, crate::proofs::Deferring::defers_none))]
pub(crate) fn try_push(
    pruner: &Pruner<'_>,
    frontier: &Frontier,
    from: &Expanded,
    push: Push,
    slack: &Slack<'_>,
    only: bool,
    workspace: &mut Workspace<'_>,
) -> Result<(), AllocError>
    requires problem { workspace.old.expander.problem ≡ pruner.now }
    requires found { HasPushesOf workspace.old.expander from.now.position }
    requires possible { CanPush pruner.now.board from.now.position push }
    requires expandable { IsExpandable pruner.now.board from.now }
    requires size { HasSize pruner.now.board frontier.now }
    requires slack { (slack.now.board ≡ pruner.now.board) × (slack.now.scene ≡ from.now.position) }
    ensures taken { OnOk result (IsChosen only workspace.old.corral.held push →
        IsPushDone pruner.now.board (tighter pruner.now.cap workspace.new.next)
        (IsKept frontier.now.entries from.now.pushes workspace.new.opened.items) from.now.pushes from.now.position
        push) }
    ensures defers { OnOk result (Defers pruner.now.cap from.now.reach workspace.old.next workspace.new.next) }
    ensures opens { OnOk result (Opens pruner.now.board pruner.now.cap from.now workspace.old.opened.items
        workspace.new.opened.items) }
    ensures kept { (workspace.new.expander ≡ workspace.old.expander) × (workspace.new.corral ≡ workspace.old.corral) }
{
    let Push { square, dir } = push;
    let held = workspace.corral.holds(square);
    if only && !held {
        return Ok(());
    }
    let least = slack.least(square, dir);
    let low = pruner.rounded(total_of(from.pushes, least));
    let allowed = pruner.allows(low);
    if !allowed {
        return Ok(());
    }
    // a push that leads to no solution at all goes to `open_after`, which drops it instead of putting it off again
    let later = low > from.reach && least < u64::from(NEVER);
    if later {
        workspace.next = lesser(workspace.next, low);
        return Ok(());
    }
    open_after(pruner, frontier, from, Push { square, dir }, workspace)
}

// Opens the position that a push leads to, unless the frontier has it with as few pushes, or no play that the cap
// allows goes on from there and ends solved. A position with a total greater than `from.reach` is left for later.
#[tactic(auto, using(crate::proofs::Steps::opens_none, crate::proofs::Deferring::defers_none))]
fn open_after(
    pruner: &Pruner<'_>,
    frontier: &Frontier,
    from: &Expanded,
    push: Push,
    workspace: &mut Workspace<'_>,
) -> Result<(), AllocError>
    requires problem { workspace.old.expander.problem ≡ pruner.now }
    requires found { HasPushesOf workspace.old.expander from.now.position }
    requires possible { CanPush pruner.now.board from.now.position push }
    requires expandable { IsExpandable pruner.now.board from.now }
    requires size { HasSize pruner.now.board frontier.now }
    ensures taken { OnOk result (IsPushDone pruner.now.board (tighter pruner.now.cap workspace.new.next)
        (IsKept frontier.now.entries from.now.pushes workspace.new.opened.items) from.now.pushes from.now.position
        push) }
    ensures defers { OnOk result (Defers pruner.now.cap from.now.reach workspace.old.next workspace.new.next) }
    ensures opens { OnOk result (Opens pruner.now.board pruner.now.cap from.now workspace.old.opened.items
        workspace.new.opened.items) }
    ensures kept { (workspace.new.expander ≡ workspace.old.expander) × (workspace.new.corral ≡ workspace.old.corral) }
{
    let Push { square, dir } = push;
    let Some(after) = workspace
        .expander
        .try_push(&from.position, Push { square, dir })
    else {
        return Ok(());
    };
    let pushes = from.pushes + 1;
    let found = frontier.has_within(&after, pushes);
    if found {
        return Ok(());
    }
    workspace.next_matching.copy_from(&workspace.matching);
    let Some(total) = pruner.allowed_total(&after, pushes, &mut workspace.next_matching) else {
        return Ok(());
    };
    if total > from.reach {
        workspace.next = lesser(workspace.next, total);
        return Ok(());
    }
    workspace.opened.push(Opened {
        position: after,
        push: Push { square, dir },
        total,
    })?;
    Ok(())
}

// The total, or the number, if it is less.
fn lesser(next: Option<u32>, total: u32) -> Option<u32>
    ensures { result ≡ lesser_total next total }
{
    match next {
        None => Some(total),
        Some(known) => Some(known.min(total)),
    }
}
