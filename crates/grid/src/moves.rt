ghost use Rattle.std.specs.Prelude.{◌≡◌, [], ◌∷◌, ◌++◌, OnOk, OnErr, length, take};

use crate::dir::Dir;
use std::alloc::{AllocError, Global};
use std::marker::Model;

/// A letter of a solution: the direction of a step, and whether it pushes a box.
#[derive(Clone, Copy, PartialEq, Eq, Debug)]
pub struct Letter {
    pub dir: Dir,
    pub push: bool,
}

/// A list of letters.
#[derive(Debug, Drop)]
pub struct Moves {
    letters: Vec<Letter>,
}

impl Model for Moves {
    ghost use Rattle.std.specs.Prelude.{List};
    ghost use Rattle.grid.specs.declared.moves.Letter.{Letter};

    ghost Value = { List Letter };

    ghost view = { λ a. a.letters.items };
}

impl Moves {
    /// No letters.
    pub fn new(alloc: Global) -> Self
        ensures { result ≡ [] }
    {
        Moves {
            letters: Vec::new(alloc),
        }
    }

    /// Appends a letter. Fails only if out of memory, and then leaves the list unchanged.
    pub fn push(&mut self, letter: Letter) -> Result<(), AllocError>
        ensures ok { OnOk result (self.new ≡ self.old ++ letter ∷ []) }
        ensures err { OnErr result (self.new ≡ self.old) }
    {
        self.letters.push(letter)?;
        Ok(())
    }

    /// Shortens the list to `len` letters. A shorter list stays unchanged.
    pub fn truncate(&mut self, len: usize)
        ensures { self.new ≡ take len self.old }
    {
        self.letters.truncate(len);
    }

    /// The number of letters.
    pub fn len(&self) -> usize
        ensures { result ≡ length self.now }
    {
        self.letters.len()
    }

    /// The letters, in order.
    pub fn as_slice(&self) -> &[Letter]
        ensures { result.now ≡ self.now }
    {
        self.letters.as_slice()
    }
}
