//! What an expansion has found enters the frontier.
ghost use Rattle.std.specs.Prelude.{◌≡◌, ℕ, suc, ◌<◌, ◌≤◌, OnOk, length};
ghost use Rattle.grid.specs.Board.{Scene};
ghost use Rattle.store.specs.Earlier.{IsFoundWithin};
ghost use Rattle.prover.specs.inside.Working.{AreOpenedBy, IsExpanding, IsExpansion, IsOpenedPosition};
ghost use Rattle.prover.specs.inside.Working.{IsOpenedBy, IsSearchOnBoard};
ghost use Rattle.prover.specs.inside.Working.{GetsOn, MayBeExpanded, IsWaiting, Widens, turns_left};

use crate::frontier::Frontier;
use crate::pruner::Pruner;
use crate::pushing::{Expanded, Opened};
use std::alloc::AllocError;
use store::Parent;

/// Enters what the expansion of the open position at a place has found. Its least total becomes that of what is left
/// for later. It is closed if there is none. Fails only if out of memory.
pub(crate) fn enter(
    pruner: &Pruner<'_>,
    frontier: &mut Frontier,
    from: &Expanded,
    opened: &[Opened],
    next: Option<u32>,
) -> Result<(), AllocError>
    requires searched { IsSearchOnBoard pruner.now.board pruner.now.cap frontier.old }
    requires waits { IsWaiting frontier.old.entries from.now }
    requires ready { MayBeExpanded pruner.now.board from.now }
    requires expansion { IsExpansion pruner.now.board pruner.now.cap frontier.old.entries from.now opened.now next }
    ensures searched { OnOk result (IsSearchOnBoard pruner.now.board pruner.now.cap frontier.new) }
    ensures goes_on { OnOk result (GetsOn frontier.old.entries frontier.new.entries) }
    ensures fewer_turns { OnOk result ((limit : ℕ) → length frontier.new.entries ≤ limit →
        turns_left limit frontier.new.entries < turns_left limit frontier.old.entries) }
{
    enter_all(pruner, frontier, from, opened)?;
    frontier.set_least(from.place as usize, next)
}

// Enters the positions that an expansion has opened.
#[tactic(auto, using(crate::proofs::Steps::widens_none))]
fn enter_all(
    pruner: &Pruner<'_>,
    frontier: &mut Frontier,
    from: &Expanded,
    opened: &[Opened],
) -> Result<(), AllocError>
    requires expanding { IsExpanding pruner.now.board pruner.now.cap frontier.old from.now }
    requires each { AreOpenedBy pruner.now.board pruner.now.cap from.now opened.now }
    ensures widens { OnOk result (Widens pruner.now.board pruner.now.cap from.now.pushes frontier.old frontier.new) }
    ensures entered { OnOk result ((t : Scene) → IsOpenedPosition opened.now t →
        IsFoundWithin frontier.new.entries (suc from.now.pushes) t) }
{
    for index in 0..opened.len() {
        enter_one(pruner, frontier, from, &opened[index])?;
    }
    Ok(())
}

// Enters one of them.
fn enter_one(
    pruner: &Pruner<'_>,
    frontier: &mut Frontier,
    from: &Expanded,
    one: &Opened,
) -> Result<(), AllocError>
    requires expanding { IsExpanding pruner.now.board pruner.now.cap frontier.old from.now }
    requires opened { IsOpenedBy pruner.now.board pruner.now.cap from.now one.now }
    ensures widens { OnOk result (Widens pruner.now.board pruner.now.cap from.now.pushes frontier.old frontier.new) }
    ensures found { OnOk result (IsFoundWithin frontier.new.entries (suc from.now.pushes) one.now.position) }
{
    let parent = Parent {
        place: from.place,
        push: one.push,
    };
    frontier.open_at(&one.position, from.pushes + 1, one.total, Some(parent))
}
