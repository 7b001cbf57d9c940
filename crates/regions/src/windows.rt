//! Sets of squares for regions: rooms behind one square, and windows round a square. They have no contract: any set of
//! squares serves.

use crate::rows::{MOST_SQUARES, entries_of, is_small};
use crate::wastes::{beside, is_live};
use grid::{Dir, Level, Square};
use std::alloc::{AllocError, Global};

/// The least number of seats of a room behind one square.
const FEWEST_SEATS: usize = 3;

/// How many places a table is estimated to have for the squares that are not seats. Some tables have more of them, and
/// become a little larger.
const COMPONENTS: usize = 3;

/// A search for sets of squares whose tables are small enough.
#[derive(Drop)]
pub(crate) struct Finder {
    /// Whether a box on each square can come to a goal.
    live: Vec<bool>,
    boxes: usize,
    entries: usize,
    // the number of the last search that came to each square, and that of the present one
    seen: Vec<u32>,
    search: u32,
    queue: Vec<Square>,
}

impl Finder {
    /// Looks for regions of at most `entries` entries, with at most `boxes` boxes in them.
    pub(crate) fn new(
        alloc: Global,
        level: &Level,
        wastes: &[u8],
        boxes: usize,
        entries: usize,
    ) -> Result<Finder, AllocError> {
        level.tell();
        let mut live = vec![in alloc; false; level.squares()]?;
        for index in 0..level.squares() {
            let square = Square(index as u16);
            live[index] = level.in_room(square) && is_live(level, wastes, square);
        }
        Ok(Finder {
            live,
            boxes,
            entries,
            seen: vec![in alloc; 0; level.squares()]?,
            search: 0,
            queue: Vec::new(alloc),
        })
    }

    /// Whether a box on the square can come to a goal.
    pub(crate) fn is_live(&self, square: Square) -> bool {
        match self.live.get(square.0 as usize) {
            Some(is_live) => *is_live,
            None => false,
        }
    }

    /// The largest rooms that have a goal and lie behind one square, each with that square.
    pub(crate) fn rooms(
        &mut self,
        alloc: Global,
        level: &Level,
    ) -> Result<Vec<Vec<Square>>, AllocError> {
        level.tell();
        let mut rooms = Vec::new(alloc);
        for index in 0..level.squares() {
            let gate = Square(index as u16);
            if level.in_room(gate) {
                for dir in Dir::ALL {
                    self.look_behind(alloc, level, gate, dir, &mut rooms)?;
                }
            }
        }
        Ok(rooms)
    }

    // Adds the room behind a square in a direction, if it serves and lies in no other.
    fn look_behind(
        &mut self,
        alloc: Global,
        level: &Level,
        gate: Square,
        dir: Dir,
        rooms: &mut Vec<Vec<Square>>,
    ) -> Result<(), AllocError> {
        let Some(first) = beside(level, gate, dir) else {
            return Ok(());
        };
        if !self.find_room(level, gate, first)? || !self.serves(level) {
            return Ok(());
        }
        for room in rooms.as_slice() {
            if self.common(room.as_slice()) == self.queue.len() {
                return Ok(());
            }
        }
        let mut kept = Vec::new(alloc);
        for _ in 0..rooms.len() {
            let Some(room) = rooms.pop() else {
                break;
            };
            if self.common(room.as_slice()) < room.len() {
                kept.push(room)?;
            }
        }
        kept.push(self.queue.clone()?)?;
        *rooms = kept;
        Ok(())
    }

    // Begins a search.
    fn begin(&mut self) {
        self.search = self.search.saturating_add(1);
        self.queue.clear();
    }

    // Appends a square to the queue, unless the search has visited it.
    fn visit(&mut self, square: Square) -> Result<(), AllocError> {
        let search = self.search;
        if let Some(seen) = self.seen.as_mut_slice().get_mut(square.0 as usize) {
            if *seen != search {
                *seen = search;
                self.queue.push(square)?;
            }
        }
        Ok(())
    }

    // The square at an index of the queue.
    fn queued(&self, at: usize) -> Option<Square> {
        match self.queue.get(at) {
            Some(square) => Some(*square),
            None => None,
        }
    }

    // Queues the gate and what can be reached from the first square without it. `false` if that is too large.
    fn find_room(
        &mut self,
        level: &Level,
        gate: Square,
        first: Square,
    ) -> Result<bool, AllocError> {
        self.begin();
        self.visit(gate)?;
        self.visit(first)?;
        for head in 1..MOST_SQUARES + 1 {
            let Some(from) = self.queued(head) else {
                return Ok(true);
            };
            self.visit_around(level, from)?;
        }
        Ok(false)
    }

    // Queues the squares beside a square.
    fn visit_around(&mut self, level: &Level, from: Square) -> Result<(), AllocError> {
        for dir in Dir::ALL {
            if let Some(to) = beside(level, from, dir) {
                self.visit(to)?;
            }
        }
        Ok(())
    }

    // Whether the queued squares have a goal and enough seats, and their table is small.
    fn serves(&self, level: &Level) -> bool {
        let mut has_goal = false;
        for square in self.queue.as_slice() {
            has_goal |= level.is_goal(*square);
        }
        let seats = self.seats(self.queue.as_slice());
        has_goal && seats >= FEWEST_SEATS && self.is_small(seats)
    }

    // The number of squares from which a box can come to a goal.
    fn seats(&self, squares: &[Square]) -> usize {
        let mut seats = 0_usize;
        for square in squares {
            seats = seats.saturating_add(usize::from(self.is_live(*square)));
        }
        seats
    }

    /// The number of entries of the table of a region.
    pub(crate) fn entries(&self, squares: &[Square]) -> u64 {
        let seats = self.seats(squares);
        entries_of(seats, seats.saturating_add(COMPONENTS), self.boxes)
    }

    // Whether a table with this many seats is small enough.
    fn is_small(&self, seats: usize) -> bool {
        let places = seats.saturating_add(COMPONENTS);
        is_small(seats, places, self.boxes, self.entries)
    }

    // The number of the squares that the last search came to.
    fn common(&self, squares: &[Square]) -> usize {
        let mut common = 0_usize;
        for square in squares {
            if let Some(seen) = self.seen.get(square.0 as usize) {
                common = common.saturating_add(usize::from(*seen == self.search));
            }
        }
        common
    }

    /// The squares that are nearest to a square, as many as fit into a table.
    pub(crate) fn window(
        &mut self,
        alloc: Global,
        level: &Level,
        middle: Square,
    ) -> Result<Vec<Square>, AllocError> {
        self.begin();
        self.visit(middle)?;
        let mut window = Vec::new(alloc);
        let mut seats = 0_usize;
        for head in 0..level.squares() {
            let Some(square) = self.queued(head) else {
                return Ok(window);
            };
            let more = seats.saturating_add(usize::from(self.is_live(square)));
            if self.is_small(more) {
                seats = more;
                window.push(square)?;
                self.visit_around(level, square)?;
            }
        }
        Ok(window)
    }
}
