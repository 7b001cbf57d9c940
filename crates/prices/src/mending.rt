//! Matching one more box, by a cheapest path through boxes that change their goals.

ghost use Rattle.std.specs.Prelude.{◌<◌, ◌≤◌};

use crate::matching::{Matching, NONE};
use crate::pulls::NEVER;
use crate::table::DistanceTable;
use grid::MAX_BOXES;

impl Matching {
    /// Gives the box with an index a goal, and other boxes other goals where that costs less.
    pub(crate) fn find_goal(&mut self, table: &DistanceTable, place: u8) {
        let goals = table.goals.len().min(MAX_BOXES);
        self.begin(table, place);
        for _ in 0..goals {
            let goal = self.cheapest(goals);
            let owner = self.boxes[goal];
            if owner == NONE {
                self.raise_tolls(self.costs[goal], goals);
                self.change_goals(goal, place);
                return;
            }
            self.done[goal] = true;
            self.go_on(table, goal, owner);
        }
    }

    /// The goals of boxes that compete for too few: of a box without a goal, of the boxes that have the goals that it
    /// can reach, and so on. Empty if no box lacks a goal.
    pub(crate) fn wanted(&self, table: &DistanceTable) -> [bool; MAX_BOXES] {
        let mut wanted = [false; MAX_BOXES];
        let mut boxes = [self.first_without(table); MAX_BOXES];
        let mut found = 1;
        for turn in 0..MAX_BOXES {
            if turn >= found || boxes[turn] == NONE {
                return wanted;
            }
            let row = table.row_at(self.rows[boxes[turn] as usize % MAX_BOXES]);
            for (goal, far) in row.iter().enumerate() {
                if goal < MAX_BOXES && *far < NEVER && !wanted[goal] {
                    wanted[goal] = true;
                    if self.boxes[goal] != NONE && found < MAX_BOXES {
                        boxes[found] = self.boxes[goal];
                        found += 1;
                    }
                }
            }
        }
        wanted
    }

    // The first box that is not matched with a goal that it can reach.
    fn first_without(&self, table: &DistanceTable) -> u8 {
        for place in 0..self.count.min(MAX_BOXES) {
            let row = table.row_at(self.rows[place]);
            match row.get(self.goals[place] as usize) {
                Some(far) if *far < NEVER => {}
                _ => return place as u8,
            }
        }
        NONE
    }

    // The cost of each goal for a box is its distance and toll.
    fn begin(&mut self, table: &DistanceTable, place: u8) {
        self.costs = [u32::MAX; MAX_BOXES];
        self.from = [place; MAX_BOXES];
        self.done = [false; MAX_BOXES];
        let row = table.row_at(self.rows[place as usize % MAX_BOXES]);
        for (goal, far) in row.iter().enumerate() {
            if goal < MAX_BOXES {
                self.costs[goal] = far.wrapping_add(self.tolls[goal]);
            }
        }
    }

    // The goal with the least cost that is not done.
    fn cheapest(&self, goals: usize) -> usize
        requires { goals ≤ MAX_BOXES }
        ensures { result < MAX_BOXES }
    {
        let mut least = u32::MAX;
        let mut found = 0;
        for goal in 0..goals {
            if !self.done[goal] && self.costs[goal] < least {
                least = self.costs[goal];
                found = goal;
            }
        }
        found
    }

    // Goes on from a goal to those that its box could have instead.
    fn go_on(&mut self, table: &DistanceTable, goal: usize, owner: u8)
        requires { goal < MAX_BOXES }
    {
        let row = table.row_at(self.rows[owner as usize % MAX_BOXES]);
        let Some(far) = row.get(goal) else {
            return;
        };
        let base = self.costs[goal].wrapping_sub(far.wrapping_add(self.tolls[goal]));
        for (other, far) in row.iter().enumerate() {
            if other < MAX_BOXES {
                let cost = base.wrapping_add(far.wrapping_add(self.tolls[other]));
                if cost < self.costs[other] {
                    self.costs[other] = cost;
                    self.from[other] = owner;
                }
            }
        }
    }

    // Raises the toll of each goal that is done by the difference of its cost to `most`.
    fn raise_tolls(&mut self, most: u32, goals: usize)
        requires { goals ≤ MAX_BOXES }
    {
        for goal in 0..goals {
            if self.done[goal] {
                let less = most.wrapping_sub(self.costs[goal]);
                self.tolls[goal] = self.tolls[goal].wrapping_add(less);
            }
        }
    }

    // Gives a goal to the box from which it was reached, that box's goal to the box from which this one was reached,
    // and so on to the first box.
    fn change_goals(&mut self, free: usize, place: u8)
        requires { free < MAX_BOXES }
    {
        let mut goal = free;
        for _ in 0..MAX_BOXES {
            let owner = self.from[goal];
            let before = self.goals[owner as usize % MAX_BOXES];
            self.goals[owner as usize % MAX_BOXES] = goal as u8;
            self.boxes[goal] = owner;
            if owner == place || before == NONE {
                return;
            }
            goal = before as usize % MAX_BOXES;
        }
    }
}
