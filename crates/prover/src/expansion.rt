//! Expansions: each opens the positions that the pushes of one position lead to. It leaves out pushes that no shortest
//! solution needs and those to positions that were found with as few pushes, and leaves those with a greater total for
//! later.
ghost use Rattle.std.specs.Prelude.{◌≡◌, ℕ, ◌<◌, ◌≤◌, OnOk, [], length};
ghost use Rattle.prover.specs.inside.Working.{GetsOn, HasSize, IsExpandable, IsExpansion, IsSearchOnBoard};
ghost use Rattle.prover.specs.inside.Working.{IsWaiting, MayBeExpanded, turns_left};

use crate::frontier::Frontier;
use crate::pruner::Pruner;
use crate::pushing::{Expanded, try_push};
use crate::recording::enter;
use crate::workspace::Workspace;
use prices::Slack;
use std::alloc::AllocError;

/// Expands an open position for totals up to `from.reach`. Its least total becomes the least of the totals that are
/// left for later. It is closed if there is none.
pub(crate) fn expand(
    pruner: &Pruner<'_>,
    frontier: &mut Frontier,
    from: &Expanded,
    workspace: &mut Workspace<'_>,
) -> Result<(), AllocError>
    requires searched { IsSearchOnBoard pruner.now.board pruner.now.cap frontier.old }
    requires waits { IsWaiting frontier.old.entries from.now }
    requires ready { MayBeExpanded pruner.now.board from.now }
    requires problem { workspace.old.expander.problem ≡ pruner.now }
    ensures searched { OnOk result (IsSearchOnBoard pruner.now.board pruner.now.cap frontier.new) }
    ensures goes_on { OnOk result (GetsOn frontier.old.entries frontier.new.entries) }
    ensures fewer_turns { OnOk result ((limit : ℕ) → length frontier.new.entries ≤ limit →
        turns_left limit frontier.new.entries < turns_left limit frontier.old.entries) }
    ensures problem { workspace.new.expander.problem ≡ workspace.old.expander.problem }
{
    open_all(pruner, frontier, from, workspace)?;
    enter(
        pruner,
        frontier,
        from,
        workspace.opened.as_slice(),
        workspace.next,
    )
}

/// Opens the positions that the pushes of a position lead to, up to a total, except those that the frontier has with as
/// few pushes. The workspace then holds the opened positions, and the least total of those that are left for later.
pub(crate) fn open_all(
    pruner: &Pruner<'_>,
    frontier: &Frontier,
    from: &Expanded,
    workspace: &mut Workspace<'_>,
) -> Result<(), AllocError>
    requires size { HasSize pruner.now.board frontier.now }
    requires expandable { IsExpandable pruner.now.board from.now }
    requires problem { workspace.old.expander.problem ≡ pruner.now }
    ensures expansion { OnOk result (IsExpansion pruner.now.board pruner.now.cap frontier.now.entries from.now
        workspace.new.opened.items workspace.new.next) }
    ensures problem { workspace.new.expander.problem ≡ workspace.old.expander.problem }
{
    workspace.opened.clear();
    workspace.expander.find_pushes(&from.position);
    pruner.level().tell();
    workspace.next = None;
    workspace.matching.copy_from(pruner.seed());
    pruner
        .distances()
        .meet(&from.position, &mut workspace.matching);
    let left = pruner.left(from.pushes);
    let slack = Slack::of(
        pruner.distances(),
        &from.position,
        left,
        &workspace.matching,
    );
    let only = corrals::find(
        pruner.level(),
        pruner.problem().dead(),
        &from.position,
        workspace.expander.scratch(),
        &slack,
        &mut workspace.corral,
    );
    for index in 0..workspace.expander.pushes().len() {
        let push = workspace.expander.pushes()[index];
        try_push(pruner, frontier, from, push, &slack, only, workspace)?;
    }
    Ok(())
}
