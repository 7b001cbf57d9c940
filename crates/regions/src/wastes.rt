//! What pushes waste under tolls, and the squares from which a box can come to a goal. It has no contract: the wastes
//! are checked.

use crate::table::{ENDLESS, waste_at};
use grid::{Dir, Level, Square};
use prices::{Distances, NEVER};
use std::alloc::{AllocError, Global};

/// The wastes of the pushes from each square, in the order of the directions, with a toll for each goal: at most 254,
/// or [`ENDLESS`] if the box can come to no goal after the push.
pub(crate) fn wastes_of(
    alloc: Global,
    level: &Level,
    distances: &Distances,
    tolls: &[u32],
) -> Result<Vec<u8>, AllocError> {
    level.tell();
    let mut wastes = Vec::new(alloc);
    for index in 0..level.squares() {
        for dir in Dir::ALL {
            let waste = waste_of(level, distances, tolls, Square(index as u16), dir);
            wastes.push(waste)?;
        }
    }
    Ok(wastes)
}

/// The square beside a square. `None` if it is a wall, or the first square is outside the grid.
#[inline(always)]
pub(crate) fn beside(level: &Level, square: Square, dir: Dir) -> Option<Square> {
    if square.0 as usize >= level.squares() {
        return None;
    }
    let next = level.next(square, dir);
    if level.is_wall(next) {
        None
    } else {
        Some(next)
    }
}

/// Whether a box on the square can come to a goal.
pub(crate) fn is_live(level: &Level, wastes: &[u8], square: Square) -> bool {
    let mut is_live = level.is_goal(square);
    for dir in Dir::ALL {
        is_live |= waste_at(wastes, square, dir) != ENDLESS;
    }
    is_live
}

// The waste of a push of a box from a square.
fn waste_of(level: &Level, distances: &Distances, tolls: &[u32], square: Square, dir: Dir) -> u8 {
    let Some(player) = beside(level, square, dir.opposite()) else {
        return ENDLESS;
    };
    let Some(to) = beside(level, square, dir) else {
        return ENDLESS;
    };
    if level.is_wall(square) {
        return ENDLESS;
    }
    let after = need_of(distances.row(to, square), tolls);
    if after >= NEVER {
        return ENDLESS;
    }
    let before = need_of(distances.row(square, player), tolls);
    after.saturating_add(1).saturating_sub(before).min(254) as u8
}

// The least sum of a distance and the toll of its goal, or `NEVER` if the box can come to no goal.
fn need_of(row: &[u32], tolls: &[u32]) -> u32 {
    let mut need = NEVER;
    for (place, far) in row.iter().enumerate() {
        if *far < NEVER {
            need = need.min(far.saturating_add(toll_at(tolls, place)));
        }
    }
    need
}

// The toll of a goal.
fn toll_at(tolls: &[u32], goal: usize) -> u32 {
    match tolls.get(goal) {
        Some(toll) => *toll,
        None => 0,
    }
}
