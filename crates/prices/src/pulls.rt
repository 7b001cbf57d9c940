//! The distances of a table, found by pulls from each goal. They have no contract: they are checked.

use crate::table::DistanceTable;
use grid::{Dir, Level, Square};
use std::alloc::{AllocError, Global};

/// The distance of a box that cannot come to the goal. All other distances are less, since a box need not come to a
/// square twice with the player on the same side. The sum of a hundred of them is less than [`u32::MAX`].
pub const NEVER: u32 = 1 << 24;

/// A box on a square, with the player on the side whose distances begin at `row`.
#[derive(Clone, Copy)]
struct Pulled {
    square: Square,
    row: u32,
}

/// The distances to a goal and those before it as far as they were found, and the boxes that were found, in order.
#[derive(Drop)]
struct GoalPulls {
    place: usize,
    far: Vec<u32>,
    queue: Vec<Pulled>,
}

/// The distances to each goal, for the squares and sides of the table.
pub(crate) fn distances(
    alloc: Global,
    level: &Level,
    table: &DistanceTable,
) -> Result<Vec<u32>, AllocError> {
    let mut filling = GoalPulls {
        place: 0,
        far: vec![in alloc; NEVER; table.rows_end()]?,
        queue: Vec::with_capacity(alloc, table.spots.len())?,
    };
    for goal in table.goals.as_slice() {
        filling.queue.clear();
        filling.begin(table, *goal)?;
        filling.spread(level, table)?;
        filling.place = filling.place.saturating_add(1);
    }
    Ok(filling.far)
}

impl GoalPulls {
    // A box on the goal needs no push, wherever the player is.
    fn begin(&mut self, table: &DistanceTable, goal: Square) -> Result<(), AllocError> {
        for side in table.sides(goal) {
            self.mark(goal, side.row, 0)?;
        }
        self.mark(goal, table.spot(goal).row, 0)
    }

    // Pulls the box from each square and side that was found.
    fn spread(&mut self, level: &Level, table: &DistanceTable) -> Result<(), AllocError> {
        for head in 0..self.far.len() {
            if head >= self.queue.len() {
                return Ok(());
            }
            let Pulled { square, row } = self.queue[head];
            self.pull_around(level, table, square, row)?;
        }
        Ok(())
    }

    // Pulls the box by one square in each direction.
    fn pull_around(
        &mut self,
        level: &Level,
        table: &DistanceTable,
        square: Square,
        row: u32,
    ) -> Result<(), AllocError> {
        for dir in Dir::ALL {
            self.pull(level, table, square, row, dir)?;
        }
        Ok(())
    }

    // Pulls the box by one square, if the player has two free squares there and is on this side of it.
    #[tactic(auto, using(grid::proofs::lemmas::Steps::inside_grid))]
    fn pull(
        &mut self,
        level: &Level,
        table: &DistanceTable,
        square: Square,
        row: u32,
        dir: Dir,
    ) -> Result<(), AllocError> {
        if level.is_wall(square) {
            return Ok(());
        }
        let from = level.next(square, dir);
        if level.is_wall(from) || table.row_start(square, from) != row {
            return Ok(());
        }
        let player = level.next(from, dir);
        if level.is_wall(player) {
            return Ok(());
        }
        let far = self.distance(row).saturating_add(1);
        self.mark(from, table.row_start(from, player), far)
    }

    // The distance to the goal in a row.
    fn distance(&self, row: u32) -> u32 {
        match self.far.get((row as usize).saturating_add(self.place)) {
            Some(far) => *far,
            None => NEVER,
        }
    }

    // Enters the distance of a box on the square to the goal in a row, unless one is known.
    fn mark(&mut self, square: Square, row: u32, far: u32) -> Result<(), AllocError> {
        let at = (row as usize).saturating_add(self.place);
        if at < self.far.len() && self.far[at] == NEVER {
            self.far[at] = far;
            self.queue.push(Pulled { square, row })?;
        }
        Ok(())
    }
}
