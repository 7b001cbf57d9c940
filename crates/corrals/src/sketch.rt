//! A position as numbers: its boxes, the rooms that the player does not reach, and what is beside each box and holds
//! it. It has no contract.

ghost use Rattle.std.specs.Prelude.{◌<◌};

use crate::ground::Ground;
use crate::stuck::Holders;
use grid::{Dir, MAX_BOXES, Square};
use std::alloc::{AllocError, Global};

/// The greatest number of rooms.
const MAX_ROOMS: usize = 64;

/// The length of a list with four entries for each box.
const SIDES: usize = 4 * MAX_BOXES;

/// The code of a square of room 0; a square of another room has `ROOM` plus the room's number, and a box has its index.
const ROOM: u8 = 64;

/// The player reaches it.
const REACHED: u8 = 253;

/// A wall.
const WALL: u8 = 254;

/// A square that was not looked at.
const NOTHING: u8 = 255;

/// What is on the square beside a box.
#[derive(Clone, Copy)]
pub(crate) enum Beside {
    Wall,
    Reached,
    /// A box, by its index.
    Box(usize),
    /// A room, by its number.
    Room(usize),
    Unknown,
}

/// The boxes and the rooms of a position. `codes` says what is on each square. `squares` lists the rooms one after the
/// other; a room has those from `starts` to `ends`. `around` has the boxes around each room, `goals` the rooms with
/// goals and `off_goal` the boxes off goal, all as bits. `beside` has the codes of the four squares beside each box,
/// and `holders` what holds it. A bit of `asked` says that it is known whether a push of a box never helps, the bit of
/// `useless` that it never does.
#[derive(Drop)]
pub(crate) struct Sketch {
    codes: Vec<u8>,
    squares: Vec<Square>,
    rooms: usize,
    starts: [usize; MAX_ROOMS],
    ends: [usize; MAX_ROOMS],
    around: [u64; MAX_ROOMS],
    goals: u64,
    count: usize,
    boxes: [Square; MAX_BOXES],
    off_goal: u64,
    beside: [u8; SIDES],
    holders: [Holders; MAX_BOXES],
    asked: [u8; MAX_BOXES],
    useless: [u8; MAX_BOXES],
}

/// The bit of a number.
pub(crate) fn bit(number: usize) -> u64 {
    1u64 << (number % 64)
}

// The index of what is beside a box.
fn place_beside(place: usize, dir: Dir) -> usize
    ensures { result < 256 }
{
    place.wrapping_mul(4).wrapping_add(dir as usize) % SIDES
}

impl Sketch {
    /// The memory for a level with `squares` squares. Fails only if out of memory.
    pub(crate) fn new(alloc: Global, squares: usize) -> Result<Sketch, AllocError> {
        Ok(Sketch {
            codes: vec![in alloc; NOTHING; squares]?,
            squares: Vec::with_capacity(alloc, squares)?,
            rooms: 0,
            starts: [0; MAX_ROOMS],
            ends: [0; MAX_ROOMS],
            around: [0; MAX_ROOMS],
            goals: 0,
            count: 0,
            boxes: [Square(0); MAX_BOXES],
            off_goal: 0,
            beside: [NOTHING; SIDES],
            holders: [Holders::default(); MAX_BOXES],
            asked: [0; MAX_BOXES],
            useless: [0; MAX_BOXES],
        })
    }

    /// Sketches a position.
    pub(crate) fn draw(&mut self, ground: &Ground<'_>) {
        self.forget_boxes();
        self.forget_rooms();
        self.put_boxes(ground);
        self.find_rooms(ground);
        self.look_round(ground);
        self.find_holders(ground);
    }

    /// The number of boxes.
    pub(crate) fn count(&self) -> usize {
        self.count.min(MAX_BOXES)
    }

    /// The number of rooms.
    pub(crate) fn rooms(&self) -> usize {
        self.rooms.min(MAX_ROOMS)
    }

    /// The rooms with goals.
    pub(crate) fn goals(&self) -> u64 {
        self.goals
    }

    /// The boxes off goal.
    pub(crate) fn off_goal(&self) -> u64 {
        self.off_goal
    }

    /// The boxes around a room.
    pub(crate) fn around(&self, room: usize) -> u64 {
        self.around[room % MAX_ROOMS]
    }

    /// The square of a box.
    pub(crate) fn square(&self, place: usize) -> Square {
        self.boxes[place % MAX_BOXES]
    }

    /// The bit of the box on a square; zero if there is none.
    pub(crate) fn box_bit(&self, square: Square) -> u64 {
        let code = self.code(square);
        if code < ROOM { bit(code as usize) } else { 0 }
    }

    /// Appends the squares of a room to a list.
    pub(crate) fn append_room(&self, room: usize, squares: &mut Vec<Square>) {
        let start = self.starts[room % MAX_ROOMS];
        let end = self.ends[room % MAX_ROOMS];
        for place in start..end {
            if place < self.squares.len() {
                let _ = squares.push(self.squares[place]);
            }
        }
    }

    /// What is beside a box.
    pub(crate) fn beside(&self, place: usize, dir: Dir) -> Beside {
        match self.beside[place_beside(place, dir)] {
            WALL => Beside::Wall,
            REACHED => Beside::Reached,
            NOTHING => Beside::Unknown,
            code => {
                if code < ROOM {
                    Beside::Box(code as usize)
                } else {
                    Beside::Room((code - ROOM) as usize)
                }
            }
        }
    }

    /// What holds a box.
    pub(crate) fn holders(&self, place: usize) -> &Holders {
        &self.holders[place % MAX_BOXES]
    }

    /// Whether a push of a box never helps. Each answer is computed once.
    pub(crate) fn never_helps(&mut self, ground: &Ground<'_>, place: usize, dir: Dir) -> bool {
        let place = place % MAX_BOXES;
        let mask = 1u8 << (dir as u8 % 4);
        if self.asked[place] & mask == 0 {
            self.asked[place] |= mask;
            let square = self.square(place);
            if ground.never_helps(square, dir) {
                self.useless[place] |= mask;
            }
        }
        self.useless[place] & mask != 0
    }

    // Clears the boxes of the last position and the answers about them.
    fn forget_boxes(&mut self) {
        for place in 0..self.count() {
            let square = self.square(place);
            self.put(square, NOTHING);
        }
        self.off_goal = 0;
        self.asked = [0; MAX_BOXES];
        self.useless = [0; MAX_BOXES];
    }

    // Clears the rooms of the last position.
    fn forget_rooms(&mut self) {
        for place in 0..self.squares.len() {
            if place < self.squares.len() {
                let square = self.squares[place];
                self.put(square, NOTHING);
            }
        }
        self.squares.clear();
        self.rooms = 0;
        self.goals = 0;
    }

    // Enters the boxes of a position.
    fn put_boxes(&mut self, ground: &Ground<'_>) {
        let boxes = ground.position().boxes();
        self.count = boxes.len();
        for place in 0..boxes.len().min(MAX_BOXES) {
            self.boxes[place] = boxes[place];
            self.put(boxes[place], place as u8);
            if !ground.is_goal(boxes[place]) {
                self.off_goal |= bit(place);
            }
        }
    }

    // Sets what is on a square.
    fn put(&mut self, square: Square, code: u8) {
        if let Some(it) = self.codes.get_mut(square.0 as usize) {
            *it = code;
        }
    }

    // What is on a square.
    fn code(&self, square: Square) -> u8 {
        match self.codes.get(square.0 as usize) {
            Some(code) => *code,
            None => WALL,
        }
    }

    // Grows the rooms beside the boxes.
    fn find_rooms(&mut self, ground: &Ground<'_>) {
        for place in 0..self.count() {
            self.find_rooms_beside(ground, place);
        }
    }

    // Grows the rooms beside a box.
    fn find_rooms_beside(&mut self, ground: &Ground<'_>, place: usize) {
        let square = self.square(place);
        for dir in Dir::ALL {
            if ground.has(square) {
                self.grow(ground, ground.next(square, dir));
            }
        }
    }

    // Grows the room of a square, unless it has grown.
    fn grow(&mut self, ground: &Ground<'_>, start: Square) {
        if self.rooms >= MAX_ROOMS || self.code(start) != NOTHING {
            return;
        }
        if ground.is_wall(start) || ground.reaches(start) {
            return;
        }
        let room = self.rooms;
        let first = self.squares.len();
        self.rooms = room + 1;
        self.starts[room] = first;
        self.around[room] = 0;
        self.take(ground, start, room);
        self.spread(ground, first, room);
        self.ends[room] = self.squares.len();
    }

    // Adds a square to a room.
    fn take(&mut self, ground: &Ground<'_>, square: Square, room: usize) {
        self.put(square, ROOM + (room % MAX_ROOMS) as u8);
        let _ = self.squares.push(square);
        if ground.is_goal(square) {
            self.goals |= bit(room);
        }
    }

    // Adds all that is beside the squares of a room.
    fn spread(&mut self, ground: &Ground<'_>, first: usize, room: usize) {
        let mut place = first;
        for _ in 0..self.codes.len() {
            if place >= self.squares.len() {
                return;
            }
            let square = self.squares[place];
            self.spread_from(ground, square, room);
            place = place.saturating_add(1);
        }
    }

    // Adds what is beside a square of a room.
    fn spread_from(&mut self, ground: &Ground<'_>, square: Square, room: usize) {
        for dir in Dir::ALL {
            if ground.has(square) {
                self.take_beside(ground, ground.next(square, dir), room);
            }
        }
    }

    // Adds a square beside a room to it, or the box there to its boxes.
    fn take_beside(&mut self, ground: &Ground<'_>, square: Square, room: usize) {
        let code = self.code(square);
        if code < ROOM {
            self.around[room % MAX_ROOMS] |= bit(code as usize);
        } else if code == NOTHING && !ground.is_wall(square) {
            self.take(ground, square, room);
        }
    }

    // Enters what is beside each box.
    fn look_round(&mut self, ground: &Ground<'_>) {
        for place in 0..self.count() {
            self.look_beside(ground, place);
        }
    }

    // Enters, for each direction, what is on the square beside a box.
    fn look_beside(&mut self, ground: &Ground<'_>, place: usize) {
        let square = self.square(place);
        for dir in Dir::ALL {
            if ground.has(square) {
                let code = self.code_there(ground, ground.next(square, dir));
                self.beside[place_beside(place, dir)] = code;
            }
        }
    }

    // What is on a square beside a box.
    fn code_there(&self, ground: &Ground<'_>, square: Square) -> u8 {
        let code = self.code(square);
        if code != NOTHING {
            code
        } else if ground.is_wall(square) {
            WALL
        } else if ground.reaches(square) {
            REACHED
        } else {
            NOTHING
        }
    }

    // Enters what holds each box.
    fn find_holders(&mut self, ground: &Ground<'_>) {
        for place in 0..self.count() {
            let holders = Holders::of(self, ground, self.square(place));
            self.holders[place % MAX_BOXES] = holders;
        }
    }
}
