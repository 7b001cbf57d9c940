//! A matching of boxes with goals at least cost, and the tolls that it gives the goals. It has no contract: the bound
//! holds for any tolls.
ghost use Rattle.std.specs.Prelude.{◌≤◌, length};
ghost use Rattle.prices.specs.inside.Matchings.{IsCopy};

use crate::table::{DistanceTable, part};
use grid::{MAX_BOXES, Position, Square};

/// No box, and no goal.
pub(crate) const NONE: u8 = u8::MAX;

/// The boxes of a position matched with the goals, at least cost. It is mended from one position to the next: boxes
/// that did not move stay matched. The tolls of the goals make each box prefer the goal that it is matched with.
#[derive(Drop)]
pub struct Matching {
    // the index of each box's distances in the table, and the number of boxes
    pub(crate) rows: [u32; MAX_BOXES],
    pub(crate) count: usize,
    // the goal of each box, and the box of each goal
    pub(crate) goals: [u8; MAX_BOXES],
    pub(crate) boxes: [u8; MAX_BOXES],
    pub(crate) tolls: [u32; MAX_BOXES],
    // for the search for a goal: the least cost of each goal, the box from which it is reached, and whether it is done
    pub(crate) costs: [u32; MAX_BOXES],
    pub(crate) from: [u8; MAX_BOXES],
    pub(crate) done: [bool; MAX_BOXES],
}

impl Matching {
    /// An empty matching. It serves all positions of all levels.
    pub fn new() -> Matching {
        Matching {
            rows: [0; MAX_BOXES],
            count: 0,
            goals: [NONE; MAX_BOXES],
            boxes: [NONE; MAX_BOXES],
            tolls: [0; MAX_BOXES],
            costs: [0; MAX_BOXES],
            from: [NONE; MAX_BOXES],
            done: [false; MAX_BOXES],
        }
    }

    /// Copies another matching, to be mended to a position that differs by a push or two.
    pub fn copy_from(&mut self, other: &Matching)
        ensures { IsCopy self.new other.now }
    {
        self.rows = other.rows;
        self.count = other.count;
        self.goals = other.goals;
        self.boxes = other.boxes;
        self.tolls = other.tolls;
    }

    /// The tolls of the first `goals` goals.
    pub fn tolls(&self, goals: usize) -> &[u32]
        ensures { length result.now ≤ MAX_BOXES }
    {
        part(&self.tolls, 0, goals.min(MAX_BOXES))
    }

    /// Matches the boxes of a position with the goals.
    pub(crate) fn meet(&mut self, table: &DistanceTable, position: &Position) {
        let boxes = position.boxes();
        self.keep(table, boxes, position.player());
        for place in 0..boxes.len() {
            if self.goals[place] == NONE {
                self.find_goal(table, place as u8);
            }
        }
        self.lower_tolls(table.goals.len());
    }

    // Keeps the boxes matched whose distances have the same index as before; all other goals become free.
    fn keep(&mut self, table: &DistanceTable, boxes: &[Square], player: Square)
        requires { length boxes.now ≤ MAX_BOXES }
    {
        let mut rows = [0; MAX_BOXES];
        let mut goals = [NONE; MAX_BOXES];
        let mut old = 0;
        for (place, square) in boxes.iter().enumerate() {
            let row = table.row_start(*square, player);
            old = self.first_from(old, row);
            rows[place] = row;
            if old < self.count.min(MAX_BOXES) && self.rows[old] == row {
                goals[place] = self.goals[old];
                old += 1;
            }
        }
        self.rows = rows;
        self.goals = goals;
        self.count = boxes.len();
        self.list_boxes();
    }

    // The first box from an index on whose distances are not before the row. They rise with the boxes.
    fn first_from(&self, from: usize, row: u32) -> usize {
        let count = self.count.min(MAX_BOXES);
        let mut place = from;
        while place < count && self.rows[place] < row {
            place += 1;
        }
        place
    }

    // Lists the box of each goal.
    fn list_boxes(&mut self) {
        self.boxes = [NONE; MAX_BOXES];
        for place in 0..self.count.min(MAX_BOXES) {
            let goal = self.goals[place] as usize;
            if goal < MAX_BOXES {
                self.boxes[goal] = place as u8;
            }
        }
    }

    // Subtracts the least toll from all tolls.
    fn lower_tolls(&mut self, goals: usize) {
        let goals = goals.min(MAX_BOXES);
        let mut least = u32::MAX;
        for place in 0..goals {
            least = least.min(self.tolls[place]);
        }
        for place in 0..goals {
            self.tolls[place] = self.tolls[place].wrapping_sub(least);
        }
    }
}

impl Default for Matching {
    fn default() -> Self {
        Matching::new()
    }
}
