//! The boxes and the room of a corral, with the memory of the search for it.
ghost use Rattle.std.specs.Prelude.{◌≡◌};
ghost use Rattle.grid.specs.Masks.{has_bit};

use crate::choice::Choice;
use area::{Scratch, SquareSet};
use grid::{Level, Square};
use std::alloc::{AllocError, Global};
use std::marker::Model;

/// The corral that the last call of [`find`](crate::find) found, if that returned `true`, and the memory of the search,
/// made once for all levels with the same rows and columns; on a level of another size it finds none. Contracts see the
/// squares of its boxes and of its room, as words of bits.
#[derive(Drop)]
pub struct Corral {
    pub(crate) size: usize,
    pub(crate) choice: Choice,
    pub(crate) sets: Sets,
    // for the test whether boxes freeze
    pub(crate) spare: Scratch,
}

/// The squares of the held boxes, and those of the room.
#[derive(Drop)]
pub(crate) struct Sets {
    pub(crate) held: SquareSet,
    pub(crate) room: SquareSet,
}

impl Model for Corral {
    ghost use Rattle.std.specs.Prelude.{◌≡◌};
    ghost use Rattle.corrals.specs.Sets.{SetsView};
    ghost use Rattle.corrals.specs.inside.Views.{sets_view, HasRoom};

    ghost Value = { SetsView };

    ghost view = { sets_view };

    ghost invariant = { λ a. HasRoom a.size a.sets × (a.spare.size ≡ a.size) };
}

impl Corral {
    /// All memory that later calls need, some 14 bytes a square. Fails only if out of memory.
    pub fn new(alloc: Global, level: &Level) -> Result<Corral, AllocError> {
        level.tell();
        let squares = level.squares();
        Ok(Corral {
            size: squares,
            choice: Choice::new(alloc, squares)?,
            sets: Sets {
                held: SquareSet::none(alloc, squares)?,
                room: SquareSet::none(alloc, squares)?,
            },
            spare: Scratch::new(alloc, level)?,
        })
    }

    /// Whether the corral holds the box on the square. Without meaning unless the last call of
    /// [`find`](crate::find) returned `true`.
    pub fn holds(&self, square: Square) -> bool
        ensures { result ≡ has_bit self.now.held square }
    {
        self.sets.held.has(square)
    }
}
