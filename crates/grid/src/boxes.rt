ghost use Rattle.std.specs.Prelude.{◌≡◌, IfOk, map};
ghost use Rattle.grid.specs.Board.{box_cell};
ghost use Rattle.grid.specs.States.{start_boxes};
ghost use Rattle.grid.specs.Squares.{contains, insert, remove};

use crate::cell::Cell;
use crate::level::Level;
use crate::square::Square;
use std::alloc::{AllocError, Global};
use std::marker::Model;

/// How many numbers a `Square` can have.
const SQUARE_NUMBERS: usize = 1 << 16;

/// The boxes of a state, in any number. Moving a box takes no memory, also if the state is played on a level with more
/// squares than the one in which it began.
#[derive(Drop)]
pub(crate) struct Boxes {
    // for each number of a square, whether a box is on it
    flags: Vec<bool>,
}

impl Model for Boxes {
    ghost use Rattle.std.specs.Prelude.{◌≡◌, length};
    ghost use Rattle.grid.specs.Squares.{Squares};
    ghost use Rattle.grid.specs.Marks.{marked};
    ghost use Rattle.grid.specs.declared.boxes.TheConstants.{SQUARE_NUMBERS};

    ghost Value = { Squares };

    ghost view = { λ a. marked a.flags.items };

    ghost invariant = { λ a. length a.flags.items ≡ SQUARE_NUMBERS };
}

impl Boxes {
    /// The boxes at the start of the level.
    pub(crate) fn of(alloc: Global, level: &Level) -> Result<Boxes, AllocError>
        ensures { IfOk result (λ boxes. boxes ≡ start_boxes level.now) }
    {
        let mut flags = box_flags(alloc, level.cells())?;
        flags.resize(SQUARE_NUMBERS, false)?;
        Ok(Boxes { flags })
    }

    /// Whether a box is on the square.
    #[tactic(auto, using(crate::proofs::Marked::contains_marked))]
    pub(crate) fn has(&self, square: Square) -> bool
        ensures { result ≡ contains self.now square }
    {
        self.flags[square.0 as usize]
    }

    /// Moves the box on `from` to `to`.
    #[tactic(auto, using(crate::proofs::Marked::marked_moved))]
    pub(crate) fn shift(&mut self, from: Square, to: Square)
        ensures { self.new ≡ insert (remove self.old from) to }
    {
        self.flags[from.0 as usize] = false;
        self.flags[to.0 as usize] = true;
    }
}

// A flag for each cell: whether it has a box.
fn box_flags(alloc: Global, cells: &[Cell]) -> Result<Vec<bool>, AllocError>
    ensures { IfOk result (λ flags. flags.items ≡ map box_cell cells.now) }
{
    cells.iter().map(|cell| cell.has_box()).collect(alloc)
}
