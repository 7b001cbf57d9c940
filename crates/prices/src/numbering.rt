//! A depth-first numbering of the squares, and what can be reached only through a square. It has no contract: what uses
//! it is checked.

use grid::{Dir, Level, Square};
use std::alloc::{AllocError, Global};

/// No square: the parent of the first one.
pub(crate) const NO_SQUARE: u16 = u16::MAX;

/// The visit of a square: its number from 1, or 0 if it was not visited; the least number beside it or beside the
/// squares that were reached through it; one more than the greatest number of those; its parent; and the number of
/// directions that were tried.
#[derive(Clone, Copy, Default)]
pub(crate) struct Visit {
    pub(crate) number: u32,
    pub(crate) least: u32,
    pub(crate) end: u32,
    pub(crate) before: u16,
    tried: u8,
}

/// The visits of all squares.
pub(crate) fn visits(alloc: Global, level: &Level) -> Result<Vec<Visit>, AllocError> {
    level.tell();
    let squares = level.squares();
    let mut visits = vec![in alloc; Visit::default(); squares]?;
    let mut next = 1;
    for index in 0..squares {
        let square = Square(index as u16);
        if !level.is_wall(square) && visit_of(visits.as_slice(), square).number == 0 {
            next = walk_from(level, visits.as_mut_slice(), square, next);
        }
    }
    Ok(visits)
}

/// The visit of a square.
pub(crate) fn visit_of(visits: &[Visit], square: Square) -> Visit {
    match visits.get(square.0 as usize) {
        Some(visit) => *visit,
        None => Visit::default(),
    }
}

// Numbers the squares that can be reached from a square, from the number `next` on, and returns the number after them.
// Each iteration tries a direction or goes back.
fn walk_from(level: &Level, visits: &mut [Visit], root: Square, mut next: u32) -> u32 {
    let mut square = root;
    next = enter(visits, root, NO_SQUARE, next);
    for _ in 0..visits.len().saturating_mul(5) {
        let visit = visit_of(visits, square);
        if let Some(dir) = direction(visit.tried) {
            let to = try_step(level, visits, square, dir);
            if visit_of(visits, to).number == 0 {
                next = enter(visits, to, square.0, next);
                square = to;
            }
        } else {
            leave(visits, square, next);
            if visit.before == NO_SQUARE {
                return next;
            }
            square = Square(visit.before);
        }
    }
    next
}

// The direction to try after `tried` others.
fn direction(tried: u8) -> Option<Dir> {
    match tried {
        0 => Some(Dir::D),
        1 => Some(Dir::L),
        2 => Some(Dir::R),
        3 => Some(Dir::U),
        _ => None,
    }
}

// Gives a square its number, and returns the next number.
fn enter(visits: &mut [Visit], square: Square, before: u16, next: u32) -> u32 {
    if let Some(visit) = visits.get_mut(square.0 as usize) {
        *visit = Visit {
            number: next,
            least: next,
            end: 0,
            before,
            tried: 0,
        };
    }
    next.saturating_add(1)
}

// Counts a direction as tried, and returns the square next to a square, or the square itself if that is a wall. The
// number of a visited square may become the least.
fn try_step(level: &Level, visits: &mut [Visit], square: Square, dir: Dir) -> Square {
    let place = square.0 as usize;
    if place >= visits.len() || place >= level.squares() {
        return square;
    }
    let to = level.next(square, dir);
    let number = visit_of(visits, to).number;
    visits[place].tried = visits[place].tried.saturating_add(1);
    if level.is_wall(to) {
        return square;
    }
    if number != 0 {
        visits[place].least = visits[place].least.min(number);
    }
    to
}

// Ends the visit of a square, and carries its least number to its parent.
fn leave(visits: &mut [Visit], square: Square, next: u32) {
    let visit = visit_of(visits, square);
    if let Some(left) = visits.get_mut(square.0 as usize) {
        left.end = next;
    }
    if let Some(before) = visits.get_mut(visit.before as usize) {
        before.least = before.least.min(visit.least);
    }
}
