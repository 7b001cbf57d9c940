//! The lengths of the shortest walks from a player's square.
ghost use Rattle.std.specs.Prelude.{◌≡◌, ℕ, ◌<◌, true, IfOk, length};
ghost use Rattle.grid.specs.States.{FitsLevel};
ghost use Rattle.grid.specs.Squares.{contains};
ghost use Rattle.area.specs.WalkLengths.{AreWalkLengths, walk_length};
ghost use Rattle.area.specs.inside.Spread.{AreBlocked};

use crate::spread::{BOX_MARK, spread};
use grid::{Level, Position, Square};
use std::alloc::{AllocError, Global};
use std::marker::Model;

/// The lengths of the shortest walks from the player's square of a position, and the memory to measure them: four bytes
/// a square, made once for levels of the same rows and columns.
#[derive(Drop)]
pub struct Walks {
    marks: Vec<u16>,
    queue: Vec<Square>,
}

impl Model for Walks {
    ghost use Rattle.std.specs.Prelude.{◌≡◌, ℕ, List, length};

    ghost Value = { List ℕ };

    ghost view = { λ a. a.marks.items };

    ghost invariant = { λ a. length a.queue.items ≡ length a.marks.items };
}

impl Walks {
    /// Takes all memory that later calls need, for levels of the same rows and columns as this one.
    ///
    /// # Errors
    ///
    /// [`AllocError`] if memory runs out.
    pub fn new(alloc: Global, level: &Level) -> Result<Walks, AllocError>
        ensures { IfOk result (λ walks. length walks ≡ length level.now.cells) }
    {
        let squares = level.squares();
        Ok(Walks {
            marks: vec![in alloc; 0; squares]?,
            queue: vec![in alloc; Square(0); squares]?,
        })
    }

    /// Measures the shortest walks from the player's square. Afterwards [`Walks::length_to`] gives their lengths. The
    /// position fits the level, and the memory is made for the level's size. Takes time in proportion to the squares
    /// of the grid.
    pub fn measure(&mut self, level: &Level, position: &Position)
        requires fits { FitsLevel level.now position.now }
        requires room { length self.old ≡ length level.now.cells }
        ensures lengths { AreWalkLengths level.now position.now self.new }
        ensures room { length self.new ≡ length self.old }
    {
        measure(level, position, &mut self.marks, &mut self.queue);
    }

    /// The number of moves of a shortest walk to a square. Without meaning if no walk from the measured position leads
    /// there.
    pub fn length_to(&self, square: Square) -> u32
        ensures { result ≡ walk_length self.now square }
    {
        let index = square.0 as usize;
        if index >= self.marks.len() {
            return 0;
        }
        u32::from(self.marks[index].saturating_sub(BOX_MARK + 1))
    }
}

// Marks every square that walks from the player's square reach, round the boxes.
fn measure(level: &Level, position: &Position, marks: &mut [u16], queue: &mut [Square])
    requires fits { FitsLevel level.now position.now }
    requires room { length marks.old ≡ length level.now.cells }
    requires places { length queue.old ≡ length level.now.cells }
    ensures lengths { AreWalkLengths level.now position.now marks.new }
{
    level.tell();
    mark_boxes(position.boxes(), marks);
    spread(level, position.player(), marks, queue);
}

// Gives the squares of the boxes their mark, and clears all other marks.
fn mark_boxes(boxes: &[Square], marks: &mut [u16])
    requires { (q : ℕ) → contains boxes.now q ≡ true → q < length marks.old }
    ensures blocked { AreBlocked BOX_MARK boxes.now marks.new }
    ensures room { length marks.new ≡ length marks.old }
{
    marks.fill(0);
    for square in boxes {
        marks[square.0 as usize] = BOX_MARK;
    }
}
