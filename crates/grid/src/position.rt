ghost use Rattle.std.specs.Prelude.{⊤, ◌≡◌, ℕ, ◌+◌, ◌-◌, ◌<◌, ◌≤◌, ◌↔◌, IsTrue, true, false, IfSome, IsSome, length};
ghost use Rattle.std.specs.Prelude.{slice_index, nat_lt};
ghost use Rattle.std.specs.List.{prefix_len, list_any, remove as remove_at};
ghost use Rattle.grid.specs.Board.{Board, Scene, is_wall, start};
ghost use Rattle.grid.specs.Lawful.{box_count};
ghost use Rattle.grid.specs.States.{FitsLevel, start_boxes};
ghost use Rattle.grid.specs.Squares.{contains, insert, remove};
ghost use Rattle.grid.specs.Rising.{is_rising};

use crate::level::Level;
use crate::limits::{MAX_BOXES, MAX_SQUARES};
use crate::square::Square;
use arrayvec::ArrayVec;
use std::alloc::AllocError;
use std::marker::Model;

/// The squares of the boxes, in rising order, and the player's square. Positions are compared by the boxes first.
#[derive(PartialEq, Eq, PartialOrd, Ord, Drop)]
pub struct Position {
    boxes: ArrayVec<Square, MAX_BOXES>,
    player: Square,
}

impl Model for Position {
    ghost use Rattle.std.specs.Prelude.{◌≡◌, true, length};
    ghost use Rattle.grid.specs.Board.{Scene};
    ghost use Rattle.grid.specs.Rising.{is_rising};

    ghost Value = { Scene };

    ghost view = { λ a. record { boxes = a.boxes.items; player = a.player } };

    ghost inverse = { λ s. record { boxes = record { items = s.boxes }; player = s.player } };

    ghost invariant = { λ a. is_rising a.boxes.items ≡ true };
}

impl Position {
    /// The position at the start of the level. `None` if the level has more boxes than [`MAX_BOXES`].
    pub fn start(level: &Level) -> Option<Position>
        ensures start { IfSome result (λ p. p ≡ start level.now) }
        ensures some { IsSome result ↔ (box_count level.now ≤ MAX_BOXES) }
    {
        if level.boxes() > MAX_BOXES {
            return None;
        }
        Some(Position {
            boxes: first_boxes(level),
            player: level.player(),
        })
    }

    /// The position with these boxes and this player. `None` if the boxes are not in rising order or more than
    /// [`MAX_BOXES`].
    pub fn of(boxes: &[Square], player: Square) -> Option<Position>
        ensures value { IfSome result (λ p. p ≡ record { boxes = boxes.now; player = player }) }
        ensures some { IsSome result ↔ ((is_rising boxes.now ≡ true) × (length boxes.now ≤ MAX_BOXES)) }
    {
        if !rises(boxes) || boxes.len() > MAX_BOXES {
            return None;
        }
        Some(Position::of_rising(boxes, player))
    }

    /// The position with these boxes, in rising order, and this player.
    pub fn of_rising(boxes: &[Square], player: Square) -> Position
        requires rising { is_rising boxes.now ≡ true }
        requires bound { length boxes.now ≤ MAX_BOXES }
        ensures { result ≡ record { boxes = boxes.now; player = player } }
    {
        let mut kept = ArrayVec::new();
        let _ = kept.try_extend_from_slice(boxes);
        Position {
            boxes: kept,
            player,
        }
    }

    /// An equal position.
    pub fn copy(&self) -> Position
        ensures { result ≡ self.now }
    {
        Position::of_rising(self.boxes(), self.player)
    }

    /// Makes the position equal to another, in place.
    pub fn copy_from(&mut self, other: &Position)
        ensures { self.new ≡ other.now }
    {
        if self.boxes.len() == other.boxes.len() {
            self.boxes
                .as_mut_slice()
                .copy_from_slice(other.boxes.as_slice());
        } else {
            self.boxes.clear();
            let _ = self.boxes.try_extend_from_slice(other.boxes.as_slice());
        }
        self.player = other.player;
    }

    /// Whether the position can be played on the level: it has as many boxes as the level, neither a box nor the
    /// player is on a wall or outside the grid, and the player is on no box.
    pub fn fits(&self, level: &Level) -> bool
        ensures { IsTrue result ↔ FitsLevel level.now self.now }
    {
        if self.boxes.len() != level.boxes() || level.is_wall(self.player) {
            return false;
        }
        if meets_wall(self.boxes.as_slice(), level) {
            return false;
        }
        !self.contains(self.player)
    }

    /// The boxes' squares, in rising order.
    pub fn boxes(&self) -> &[Square]
        ensures squares { result.now ≡ self.now.boxes }
        ensures rising { is_rising result.now ≡ true }
        ensures bound { length result.now ≤ MAX_BOXES }
    {
        self.boxes.as_slice()
    }

    /// Whether a box is on the square.
    pub fn contains(&self, square: Square) -> bool
        ensures { result ≡ contains self.now.boxes square }
    {
        is_among(self.boxes.as_slice(), square)
    }

    /// The player's square.
    pub fn player(&self) -> Square
        ensures { result ≡ self.now.player }
    {
        self.player
    }

    /// Sets the player's square.
    pub fn set_player(&mut self, player: Square)
        ensures { self.new ≡ record { boxes = self.old.boxes; player = player } }
    {
        self.player = player;
    }

    /// Moves the box on `from` to `to`, which has no box, and the player to `from`. `place` is a guess at the index of
    /// the box, which a caller that goes through the boxes in order knows; a wrong guess only costs time.
    pub fn push_at(&mut self, place: usize, from: Square, to: Square)
        requires box_there { contains self.old.boxes from ≡ true }
        requires free { contains self.old.boxes to ≡ false }
        ensures { self.new ≡ record { boxes = insert (remove self.old.boxes from) to; player = from } }
    {
        move_square(self.boxes.as_mut_slice(), place, from, to);
        self.player = from;
    }

    /// Moves the box on `from` to `to`, which has no box, and the player to `from`.
    pub fn push(&mut self, from: Square, to: Square)
        requires box_there { contains self.old.boxes from ≡ true }
        requires free { contains self.old.boxes to ≡ false }
        ensures { self.new ≡ record { boxes = insert (remove self.old.boxes from) to; player = from } }
    {
        self.push_at(0, from, to);
    }
}

impl Clone for Position {
    ghost is_clone = { λ position copied. copied ≡ position };

    ghost is_infallible = { λ _. ⊤ };

    fn clone(&self) -> Result<Position, AllocError> {
        Ok(self.copy())
    }
}

impl Default for Position {
    ghost use Rattle.std.specs.Prelude.{◌≡◌, []};

    ghost is_default = { λ position. position ≡ record { boxes = []; player = 0 } };

    /// No boxes, and the player on square 0.
    fn default() -> Self {
        Position {
            boxes: ArrayVec::new(),
            player: Square(0),
        }
    }
}

// The squares of the level's first boxes.
fn first_boxes(level: &Level) -> ArrayVec<Square, MAX_BOXES>
    requires { box_count level.now ≤ MAX_BOXES }
    ensures { result.items ≡ start_boxes level.now }
{
    let mut boxes = ArrayVec::new();
    let cells = level.cells();
    for (i, cell) in cells.iter().enumerate() {
        if cell.has_box() {
            boxes.push(Square(i as u16));
        }
    }
    boxes
}

// Whether the square is one of these. The loop has no early end, so that the compiler compares several at once.
fn is_among(squares: &[Square], square: Square) -> bool
    ensures { result ≡ contains squares.now square }
{
    let mut found = false;
    for other in squares {
        found |= *other == square;
    }
    found
}

// Whether some square is a wall.
fn meets_wall(squares: &[Square], level: &Level) -> bool
    ensures { result ≡ list_any (is_wall level.now) squares.now }
{
    squares.iter().any(|square| level.is_wall(*square))
}

// Whether each square is less than the next.
fn rises(squares: &[Square]) -> bool
    ensures { result ≡ is_rising squares.now }
{
    let mut least = 0;
    for square in squares {
        let number = u32::from(square.0);
        if number < least {
            return false;
        }
        least = number + 1;
    }
    true
}

// Replaces one square by another and keeps the list rising. `place` is a guess at its index.
fn move_square(squares: &mut [Square], place: usize, from: Square, to: Square)
    requires rising { is_rising squares.old ≡ true }
    requires bound { length squares.old ≤ MAX_SQUARES }
    requires there { contains squares.old from ≡ true }
    requires free { contains squares.old to ≡ false }
    ensures { squares.new ≡ insert (remove squares.old from) to }
{
    let left = place_by(squares, place, from);
    settle(squares, left, to);
}

// How many of the rising squares are less than this one. `place` is a guess at its index.
fn place_by(squares: &[Square], place: usize, square: Square) -> usize
    requires rising { is_rising squares.now ≡ true }
    requires bound { length squares.now ≤ MAX_SQUARES }
    ensures { result ≡ prefix_len (λ x. nat_lt x square) squares.now }
{
    if place < squares.len() && squares[place] == square {
        place
    } else {
        place_of(squares, square)
    }
}

// How many of the rising squares are less than this one. The loop has no early end, so that no branch is mispredicted.
fn place_of(squares: &[Square], square: Square) -> usize
    requires rising { is_rising squares.now ≡ true }
    requires bound { length squares.now ≤ MAX_SQUARES }
    ensures { result ≡ prefix_len (λ x. nat_lt x square) squares.now }
{
    let mut lesser: u16 = 0;
    for other in squares {
        lesser += u16::from(*other < square);
    }
    lesser as usize
}

// Removes the square at an index, and inserts another where the list stays rising.
fn settle(squares: &mut [Square], place: usize, square: Square)
    requires inside { place < length squares.old }
    requires rising { is_rising (remove_at squares.old place) ≡ true }
    requires free { contains (remove_at squares.old place) square ≡ false }
    ensures { squares.new ≡ insert (remove_at squares.old place) square }
{
    let hole = lesser_down(squares, place, square);
    let hole = greater_up(squares, hole, square);
    squares[hole] = square;
}

// Moves the lesser squares after a hole down by one, and returns where the hole is then.
fn lesser_down(squares: &mut [Square], mut hole: usize, square: Square) -> usize
    requires { hole < length squares.old }
    ensures inside { result < length squares.new }
    ensures others { remove_at squares.new result ≡ remove_at squares.old hole }
    ensures after { result + 1 < length squares.new → square ≤ slice_index squares.new (result + 1) }
{
    while hole + 1 < squares.len() && squares[hole + 1] < square {
        squares[hole] = squares[hole + 1];
        hole += 1;
    }
    hole
}

// Moves the greater squares before a hole up by one, and returns where the hole is then.
fn greater_up(squares: &mut [Square], mut hole: usize, square: Square) -> usize
    requires inside { hole < length squares.old }
    requires after { hole + 1 < length squares.old → square ≤ slice_index squares.old (hole + 1) }
    ensures inside { result < length squares.new }
    ensures others { remove_at squares.new result ≡ remove_at squares.old hole }
    ensures before { 0 < result → slice_index squares.new (result - 1) ≤ square }
    ensures after { result + 1 < length squares.new → square ≤ slice_index squares.new (result + 1) }
{
    while hole > 0 && squares[hole - 1] > square {
        squares[hole] = squares[hole - 1];
        hole -= 1;
    }
    hole
}
