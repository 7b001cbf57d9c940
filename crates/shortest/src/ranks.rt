//! The ranks of the states of a layer.
ghost use Rattle.std.specs.Prelude.{◌≡◌, length};
ghost use Rattle.grid.specs.States.{FitsLevel};

use crate::aim::Aim;
use crate::bounds::Bounds;
use crate::listing::Workspace;
use crate::trail::{Nearness, Trail};
use grid::{Level, Position, Push};
use prices::Matching;
use std::alloc::{AllocError, Global};
use store::{Label, Parent, Visited};

/// The rank of a state rises by this much with each box that is elsewhere, if moves are counted.
const DISPLACED_MOVES: u32 = 10;

/// The rank of a state rises by this much with each box that is elsewhere and with each push that is left, if pushes
/// are counted: usually more than the difference between the moves of two states with equal pushes.
const RANK_PUSHES: u32 = 1_000;

/// More than the moves of any solution.
const RANK_BASE: u32 = 1 << 21;

/// An odd number with ones and zeros at many places.
const MIXER: u64 = 0x9e37_79b9_7f4a_7c15;

/// The label of a state: its moves, what its rank has beside them, and the push before it.
pub(crate) fn label_of(moves: u32, rank: u32, parent: Option<Parent>) -> Label {
    Label {
        pushes: moves,
        least: Some(rank),
        parent,
    }
}

/// The part of a state's rank beside its moves. Lower ranks are better.
pub(crate) fn rank_of(
    bounds: &Bounds<'_>,
    aim: Aim,
    nearness: Nearness,
    state: &Position,
    workspace: &mut Workspace<'_>,
) -> u32
    requires { FitsLevel bounds.now.board state.now }
    ensures { workspace.new.expander ≡ workspace.old.expander }
{
    let displaced = nearness.displaced;
    match aim {
        Aim::FewerMoves => {
            (RANK_BASE + DISPLACED_MOVES * displaced.min(2)).saturating_sub(nearness.walked)
        }
        Aim::FewerPushes => {
            let low = bounds
                .distances()
                .lower(state, &mut workspace.next_matching);
            let low = u32::try_from(low).unwrap_or(u32::MAX);
            low.saturating_add(displaced).saturating_mul(RANK_PUSHES)
        }
    }
}

/// The place of the solved state with the fewest moves.
pub(crate) fn solved_in(level: &Level, listed: &Visited) -> Option<usize> {
    let mut best = None;
    let mut fewest = u32::MAX;
    for place in 0..listed.len() {
        let moves = listed.label(place).pushes;
        if moves < fewest && level.are_on_goals(listed.position(place).boxes()) {
            best = Some(place);
            fewest = moves;
        }
    }
    best
}

/// The ranks and places of the states of the layer after this many pushes, by rising rank. The state of the solution
/// comes first. Without a solution chance takes the place of moves.
pub(crate) fn ranks_of(
    alloc: Global,
    trail: &Trail,
    pushes: u32,
    listed: &Visited,
) -> Result<Vec<(u32, usize)>, AllocError> {
    let mut ranked = Vec::new(alloc);
    for place in 0..listed.len() {
        let label = listed.label(place);
        let state = listed.position(place);
        let moves = if trail.is_empty() {
            chance_of(&state)
        } else {
            label.pushes
        };
        let rank = moves.saturating_add(label.least.unwrap_or(0));
        let is_own = trail.passes(pushes as usize, &state);
        ranked.push((if is_own { 0 } else { rank }, place))?;
    }
    ranked.sort_unstable();
    Ok(ranked)
}

// A number below half of `RANK_PUSHES` that depends on the state alone.
fn chance_of(state: &Position) -> u32 {
    let mut mixed = u64::from(state.player().0);
    for square in state.boxes() {
        mixed = mixed.wrapping_add(u64::from(square.0)).wrapping_mul(MIXER);
        mixed ^= mixed >> 29;
    }
    (mixed % u64::from(RANK_PUSHES / 2)) as u32
}

/// Without a solution, those of the ranked states that the tables allow with the pushes that are left, by rising rank
/// with what the tables add. Ends with twice as many as the width. All states near a solution.
pub(crate) fn allowed_of(
    alloc: Global,
    bounds: &Bounds<'_>,
    trail: &Trail,
    left: u32,
    width: usize,
    ranked: Vec<(u32, usize)>,
    listed: &Visited,
    matching: &mut Matching,
) -> Result<Vec<(u32, usize)>, AllocError> {
    if !trail.is_empty() {
        return Ok(ranked);
    }
    let mut allowed = Vec::new(alloc);
    for row in ranked.as_slice() {
        let (rank, place) = *row;
        if place >= listed.len() || allowed.len() / 2 >= width {
            break;
        }
        let low = bounds.least(&listed.position(place), matching);
        let rank = low
            .saturating_mul(RANK_PUSHES)
            .saturating_add(rank % RANK_PUSHES);
        if low <= left {
            allowed.push((rank, place))?;
        }
    }
    allowed.sort_unstable();
    Ok(allowed)
}

/// The pushes that lead to the last state.
pub(crate) fn pushes_to_last(alloc: Global, kept: &Visited) -> Result<Vec<Push>, AllocError> {
    let mut pushes = Vec::new(alloc);
    let mut here = kept.len().saturating_sub(1);
    for _ in 0..kept.len() {
        if here >= kept.len() {
            break;
        }
        let Some(parent) = kept.label(here).parent else {
            break;
        };
        pushes.push(parent.push)?;
        here = parent.place as usize;
    }
    pushes.reverse();
    Ok(pushes)
}
