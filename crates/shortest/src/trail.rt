//! The positions that a solution passes, and how near other states are to them.
ghost use Rattle.std.specs.Prelude.{◌≡◌, ◌<◌, IfOk, length};

use grid::{Dir, Level, Moves, Position, Square};
use std::alloc::{AllocError, Global};

/// How many positions a vicinity holds.
const SPAN: usize = 64;

/// The positions of a solution: the start, and that after each push, with the player where the push leaves him. Empty
/// without a solution.
#[derive(Drop)]
pub(crate) struct Trail {
    positions: Vec<Position>,
    // for each position, the moves before it that push no box
    walked: Vec<u32>,
}

impl Trail {
    /// No positions. Takes no memory.
    pub(crate) fn new(alloc: Global) -> Trail {
        Trail {
            positions: Vec::new(alloc),
            walked: Vec::new(alloc),
        }
    }

    /// The positions that moves pass from the start on. Fails only if out of memory.
    pub(crate) fn of(
        alloc: Global,
        level: &Level,
        start: &Position,
        moves: &Moves,
    ) -> Result<Trail, AllocError>
        requires { start.now.player < length level.now.cells }
    {
        let mut positions = Vec::new(alloc);
        let mut walked = Vec::new(alloc);
        let mut position = start.copy();
        let mut walks: u32 = 0;
        positions.push(position.copy())?;
        walked.push(walks)?;
        for letter in moves.as_slice() {
            step(level, letter.dir, &mut position);
            if letter.push {
                positions.push(position.copy())?;
                walked.push(walks)?;
            } else {
                walks = walks.saturating_add(1);
            }
        }
        Ok(Trail { positions, walked })
    }

    /// Whether there is no solution.
    pub(crate) fn is_empty(&self) -> bool {
        self.positions.is_empty()
    }

    /// Whether the position after a number of pushes has the boxes of this one.
    pub(crate) fn passes(&self, pushes: usize, position: &Position) -> bool {
        match self.positions.get(pushes) {
            Some(own) => own.boxes() == position.boxes(),
            None => false,
        }
    }
}

// Makes a step, if neither a wall nor a second box bars it.
fn step(level: &Level, dir: Dir, position: &mut Position)
    requires { position.old.player < length level.now.cells }
    ensures { position.new.player < length level.now.cells }
{
    let ahead = level.next(position.player(), dir);
    if level.is_wall(ahead) {
        return;
    }
    if !position.contains(ahead) {
        position.set_player(ahead);
        return;
    }
    let beyond = level.next(ahead, dir);
    if !position.contains(beyond) {
        position.push(ahead, beyond);
    }
}

/// Positions of a trail that follow one another, as one bit of a word for each.
#[derive(Drop)]
pub(crate) struct Vicinity {
    // for each square, the positions with a box there
    boxes: Vec<u64>,
    positions: u64,
    walked: [u32; SPAN],
}

/// How near a state is to some positions: on how few squares its boxes differ from one of them, and the most moves
/// without a push before such a position.
#[derive(Clone, Copy)]
pub(crate) struct Nearness {
    pub(crate) displaced: u32,
    pub(crate) walked: u32,
}

impl Vicinity {
    /// The first positions of a trail, round the start. Fails only if out of memory.
    pub(crate) fn of(alloc: Global, level: &Level, trail: &Trail) -> Result<Vicinity, AllocError> {
        let mut vicinity = Vicinity {
            boxes: vec![in alloc; 0; level.squares()]?,
            positions: 0,
            walked: [0; SPAN],
        };
        for index in 0..SPAN / 2 {
            vicinity.take(trail, index);
        }
        Ok(vicinity)
    }

    /// Goes on by a push: the positions are those round the one after this number of pushes.
    pub(crate) fn go_to(&mut self, trail: &Trail, pushes: usize) {
        self.take(trail, pushes.saturating_add(SPAN / 2 - 1));
    }

    // Takes the position at an index of the trail, if there is one, in place of the one `SPAN` before it.
    fn take(&mut self, trail: &Trail, index: usize) {
        let place = index % SPAN;
        let bit = 1u64 << place;
        for word in self.boxes.iter_mut() {
            *word &= !bit;
        }
        self.positions &= !bit;
        let Some(position) = trail.positions.get(index) else {
            return;
        };
        let Some(walked) = trail.walked.get(index) else {
            return;
        };
        put(position.boxes(), bit, &mut self.boxes);
        self.positions |= bit;
        self.walked[place] = *walked;
    }

    /// How near the boxes are if the one on `from` moves to `to`. `None` if more than `most`, or more than two, differ
    /// from each position. Without positions all boxes are near.
    pub(crate) fn nearness(
        &self,
        boxes: &[Square],
        from: Square,
        to: Square,
        most: u32,
    ) -> Option<Nearness> {
        if self.positions == 0 {
            return Some(self.nearness_by(0, 0));
        }
        let (one, two, three) = self.missing(boxes, from, to);
        let same = !one & self.positions;
        if same != 0 {
            return Some(self.nearness_by(0, same));
        }
        let single = !two & self.positions;
        if single != 0 && most >= 1 {
            return Some(self.nearness_by(1, single));
        }
        let double = !three & self.positions;
        if double != 0 && most >= 2 {
            return Some(self.nearness_by(2, double));
        }
        None
    }

    // The positions in which at least one, two, three of these boxes are missing.
    fn missing(&self, boxes: &[Square], from: Square, to: Square) -> (u64, u64, u64) {
        let (mut one, mut two, mut three) = (0, 0, 0);
        for square in boxes {
            let here = if *square == from { to } else { *square };
            let absent = match self.boxes.get(here.0 as usize) {
                Some(word) => !*word,
                None => u64::MAX,
            };
            three |= two & absent;
            two |= one & absent;
            one |= absent;
        }
        (one, two, three)
    }

    // How near a state is from which this many boxes differ in the positions of a word.
    fn nearness_by(&self, displaced: u32, positions: u64) -> Nearness {
        let walked = self.most_walked(positions);
        Nearness { displaced, walked }
    }

    // The most moves without a push before one of the positions of a word.
    fn most_walked(&self, positions: u64) -> u32 {
        let mut most = 0;
        for place in 0..SPAN {
            if (positions >> place) & 1 == 1 {
                most = most.max(self.walked[place]);
            }
        }
        most
    }
}

// Sets a bit in the words of some squares.
fn put(squares: &[Square], bit: u64, words: &mut [u64]) {
    for square in squares {
        let index = square.0 as usize;
        if index < words.len() {
            words[index] |= bit;
        }
    }
}
