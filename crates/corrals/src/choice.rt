//! A guess at the boxes and squares of a corral. It has no contract; `checking` proves what it finds.

use crate::ground::Ground;
use crate::sketch::{Beside, Sketch, bit};
use grid::{Dir, Square};
use std::alloc::{AllocError, Global};

/// The chosen boxes and squares. For a position it keeps the boxes that are in no corral, by their bits, the boxes and
/// rooms of the corral that grows, and those of the corral with the fewest pushes so far.
#[derive(Drop)]
pub(crate) struct Choice {
    pub(crate) boxes: Vec<Square>,
    pub(crate) squares: Vec<Square>,
    sketch: Sketch,
    bad: u64,
    held: u64,
    rooms: u64,
    least: u32,
    best_held: u64,
    best_rooms: u64,
}

impl Choice {
    /// The memory for a level with `squares` squares. Fails only if out of memory.
    pub(crate) fn new(alloc: Global, squares: usize) -> Result<Choice, AllocError> {
        Ok(Choice {
            boxes: Vec::with_capacity(alloc, squares)?,
            squares: Vec::with_capacity(alloc, squares)?,
            sketch: Sketch::new(alloc, squares)?,
            bad: 0,
            held: 0,
            rooms: 0,
            least: u32::MAX,
            best_held: 0,
            best_rooms: 0,
        })
    }

    /// Chooses the corral with the fewest possible pushes among those it finds; `false` if it finds none.
    pub(crate) fn choose(&mut self, ground: &Ground<'_>) -> bool {
        self.sketch.draw(ground);
        self.find_mobile(ground);
        self.least = u32::MAX;
        self.try_rooms(ground);
        self.try_boxes(ground);
        if self.least == u32::MAX {
            return false;
        }
        self.list_boxes();
        self.list_squares();
        true
    }

    // Finds the boxes that the player can push to and fro, which the guess leaves out of all corrals.
    fn find_mobile(&mut self, ground: &Ground<'_>) {
        self.bad = 0;
        for place in 0..self.sketch.count() {
            if self.is_mobile(ground, place) {
                self.bad |= bit(place);
            }
        }
    }

    // Whether a box has a push from a square that the player reaches onto another such square.
    fn is_mobile(&mut self, ground: &Ground<'_>, place: usize) -> bool {
        self.is_mobile_along(ground, place, Dir::D) || self.is_mobile_along(ground, place, Dir::R)
    }

    // `is_mobile` for the pushes in a direction and its opposite.
    fn is_mobile_along(&mut self, ground: &Ground<'_>, place: usize, dir: Dir) -> bool {
        let behind = self.sketch.beside(place, dir.opposite());
        let ahead = self.sketch.beside(place, dir);
        is_reached(behind)
            && is_reached(ahead)
            && !(self.sketch.never_helps(ground, place, dir)
                && self.sketch.never_helps(ground, place, dir.opposite()))
    }

    // Tries the corral that grows from each room.
    fn try_rooms(&mut self, ground: &Ground<'_>) {
        for room in 0..self.sketch.rooms() {
            self.held = self.sketch.around(room);
            self.rooms = bit(room);
            if self.least > 0 && self.grow(ground) {
                self.note(ground);
            }
        }
    }

    // Tries the corral that grows from each box off goal.
    fn try_boxes(&mut self, ground: &Ground<'_>) {
        for place in 0..self.sketch.count() {
            self.held = bit(place) & self.sketch.off_goal();
            self.rooms = 0;
            if self.least > 0 && self.held != 0 {
                if self.grow(ground) {
                    self.note(ground);
                } else {
                    self.bad |= bit(place);
                }
            }
        }
    }

    // Adds what blocks the boxes and what shuts the rooms until nothing is left to add; `false` if a push leads out.
    fn grow(&mut self, ground: &Ground<'_>) -> bool {
        let mut done = 0;
        for _ in 0..64u32 {
            let rest = self.held & !done;
            if rest == 0 || self.held & self.bad != 0 {
                break;
            }
            let place = rest.trailing_zeros() as usize;
            if !self.bar_round(ground, place) {
                return false;
            }
            done |= bit(place);
        }
        self.held & !done == 0 && self.held & self.bad == 0
    }

    // Adds what blocks the pushes of a box; `false` if nothing does.
    fn bar_round(&mut self, ground: &Ground<'_>, place: usize) -> bool {
        self.bar(ground, place, Dir::D)
            && self.bar(ground, place, Dir::L)
            && self.bar(ground, place, Dir::R)
            && self.bar(ground, place, Dir::U)
    }

    // Adds what blocks a push of a held box that is not ready; `false` if nothing does.
    fn bar(&mut self, ground: &Ground<'_>, place: usize, dir: Dir) -> bool {
        let behind = self.sketch.beside(place, dir.opposite());
        let ahead = self.sketch.beside(place, dir);
        if self.is_shut(behind) || self.is_stopped(ahead) || self.leads_in(behind, ahead) {
            return true;
        }
        if self.sketch.never_helps(ground, place, dir)
            || self.sketch.may_freeze(ground, self.held, place, dir)
        {
            return true;
        }
        if is_reached(behind) || (self.is_good_box(ahead) && !self.is_good(behind)) {
            self.take(ahead)
        } else {
            self.take(behind)
        }
    }

    // Whether the player cannot be there before a held box is pushed.
    fn is_shut(&self, behind: Beside) -> bool {
        match behind {
            Beside::Room(room) => bit(room) & self.rooms != 0,
            it => self.is_stopped(it),
        }
    }

    // Whether no box can be pushed there before a held box is pushed.
    fn is_stopped(&self, ahead: Beside) -> bool {
        match ahead {
            Beside::Wall => true,
            Beside::Box(it) => bit(it) & self.held != 0,
            _ => false,
        }
    }

    // Whether a push leads into the room and is possible now.
    fn leads_in(&self, behind: Beside, ahead: Beside) -> bool {
        match ahead {
            Beside::Room(room) => bit(room) & self.rooms != 0 && is_reached(behind),
            _ => false,
        }
    }

    // Whether it is a box that a corral may hold.
    fn is_good_box(&self, it: Beside) -> bool {
        match it {
            Beside::Box(place) => bit(place) & self.bad == 0,
            _ => false,
        }
    }

    // Whether it is such a box, or a room with only such boxes around it.
    fn is_good(&self, it: Beside) -> bool {
        match it {
            Beside::Room(room) => self.sketch.around(room) & self.bad == 0,
            other => self.is_good_box(other),
        }
    }

    // Adds a box, or a room with all boxes around it; `false` if it is neither.
    fn take(&mut self, it: Beside) -> bool {
        match it {
            Beside::Box(place) => {
                self.held |= bit(place);
                true
            }
            Beside::Room(room) => {
                let around = self.sketch.around(room);
                self.held |= around;
                self.rooms |= bit(room);
                true
            }
            _ => false,
        }
    }

    // Keeps the grown corral if something has to change there and it has fewer pushes than all before.
    fn note(&mut self, ground: &Ground<'_>) {
        if self.held & self.sketch.off_goal() == 0 && self.rooms & self.sketch.goals() == 0 {
            return;
        }
        let count = self.count_pushes(ground);
        if count < self.least {
            self.least = count;
            self.best_held = self.held;
            self.best_rooms = self.rooms;
        }
    }

    // The number of possible pushes of held boxes.
    fn count_pushes(&mut self, ground: &Ground<'_>) -> u32 {
        let mut count: u32 = 0;
        for place in 0..self.sketch.count() {
            if bit(place) & self.held != 0 {
                count = count.saturating_add(self.count_round(ground, place));
            }
        }
        count
    }

    // The number of possible pushes of a held box.
    fn count_round(&mut self, ground: &Ground<'_>, place: usize) -> u32 {
        let mut count: u32 = 0;
        for dir in Dir::ALL {
            let behind = self.sketch.beside(place, dir.opposite());
            let ahead = self.sketch.beside(place, dir);
            if self.leads_in(behind, ahead) && !self.sketch.never_helps(ground, place, dir) {
                count = count.saturating_add(1);
            }
        }
        count
    }

    // Lists the boxes of the best corral.
    fn list_boxes(&mut self) {
        self.boxes.clear();
        for place in 0..self.sketch.count() {
            if bit(place) & self.best_held != 0 {
                let square = self.sketch.square(place);
                let _ = self.boxes.push(square);
            }
        }
    }

    // Lists the squares of the best corral's rooms.
    fn list_squares(&mut self) {
        self.squares.clear();
        for room in 0..self.sketch.rooms() {
            if bit(room) & self.best_rooms != 0 {
                self.sketch.append_room(room, &mut self.squares);
            }
        }
    }
}

// Whether the player reaches it.
fn is_reached(it: Beside) -> bool {
    match it {
        Beside::Reached => true,
        _ => false,
    }
}
