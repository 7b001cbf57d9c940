//! The sides of each square: the parts into which a box on it cuts the room. They have no contract: what uses them is
//! checked.

use crate::numbering::{NO_SQUARE, Visit, visit_of, visits};
use crate::table::{Side, Spot};
use grid::{Dir, Level, Square};
use std::alloc::{AllocError, Global};

/// The greatest cost of the check of the sides, in squares. Each side costs one look at each square, so the largest
/// rooms have at most a thousand squares with sides, and rooms of up to 8,192 squares any number.
const MOST_LOOKS: usize = 1 << 26;

/// The squares and the sides of a level, for a table with this number of goals, and the number of its distances.
#[derive(Drop)]
pub(crate) struct Sides {
    pub(crate) spots: Vec<Spot>,
    pub(crate) sides: Vec<Side>,
    pub(crate) len: u32,
}

/// The sides of each square of the level, for a table with this number of goals.
pub(crate) fn sides_of(alloc: Global, level: &Level, goals: u32) -> Result<Sides, AllocError> {
    let visits = visits(alloc, level)?;
    level.tell();
    let squares = level.squares();
    let mut found = Sides {
        spots: Vec::with_capacity(alloc, squares)?,
        sides: Vec::new(alloc),
        len: 0,
    };
    for index in 0..squares {
        found.add(level, visits.as_slice(), Square(index as u16), goals)?;
    }
    Ok(found)
}

impl Sides {
    // Adds a square with its sides, and a row for its distances.
    fn add(
        &mut self,
        level: &Level,
        visits: &[Visit],
        square: Square,
        goals: u32,
    ) -> Result<(), AllocError> {
        let number = visit_of(visits, square).number;
        let first = self.count();
        if !level.is_wall(square) {
            for dir in Dir::ALL {
                self.add_side(level, visits, square, dir, goals)?;
            }
        }
        let spot = Spot {
            number,
            first,
            count: self.count().saturating_sub(first),
            row: self.len,
        };
        if !level.is_wall(square) {
            self.len = self.len.saturating_add(goals);
        }
        self.spots.push(spot)?;
        Ok(())
    }

    // Adds the side of a square in a direction, if all squares there can only be reached through the square.
    fn add_side(
        &mut self,
        level: &Level,
        visits: &[Visit],
        square: Square,
        dir: Dir,
        goals: u32,
    ) -> Result<(), AllocError> {
        if square.0 as usize >= level.squares() || !self.has_room(level) {
            return Ok(());
        }
        let here = visit_of(visits, square);
        let beside = level.next(square, dir);
        let there = visit_of(visits, beside);
        if !level.is_wall(beside) && is_cut_off(here, square, there) {
            self.sides.push(Side {
                from: there.number,
                to: there.end,
                row: self.len,
            })?;
            self.len = self.len.saturating_add(goals);
        }
        Ok(())
    }

    // The number of sides.
    fn count(&self) -> u32 {
        u32::try_from(self.sides.len()).unwrap_or(u32::MAX)
    }

    // Whether the check can afford one more side.
    fn has_room(&self, level: &Level) -> bool {
        self.sides.len().saturating_mul(level.squares()) < MOST_LOOKS
    }
}

// Whether what was reached through the second square, the child of the first, can only be reached through the first.
// One direction of the first square of all needs no side of its own.
fn is_cut_off(here: Visit, square: Square, there: Visit) -> bool {
    let is_root_way = here.before == NO_SQUARE && there.number == here.number.saturating_add(1);
    there.before == square.0 && there.least >= here.number && !is_root_way
}
