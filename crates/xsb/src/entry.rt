ghost use Rattle.std.specs.Prelude.{◌≡◌, IfOk};
ghost use Rattle.xsb.specs.declared.entry.ReadFault.TheVariants.{OutOfMemory};

use crate::limits::MAX_FILE;
use grid::{Board, Level, LevelFault};
use std::alloc::{AllocError, Global};
use thiserror::Error;

/// A board of a collection.
#[derive(Drop)]
pub struct Entry {
    /// The name, without spaces and tabs at its ends; empty if the collection gives none.
    pub name: Vec<u8>,
    /// The number of the board's first line, from 1.
    pub first_line: u32,
    /// The level, or the first fault of the board. It is never [`LevelFault::OutOfMemory`].
    pub board: Result<Level, LevelFault>,
}

/// A board of a collection, without the tables of a level.
#[derive(Drop)]
pub struct BoardEntry {
    /// The name, as in an [`Entry`].
    pub name: Vec<u8>,
    /// The number of the board's first line, from 1.
    pub first_line: u32,
    /// The board, or its first fault. It is never [`LevelFault::OutOfMemory`].
    pub board: Result<Board, LevelFault>,
}

impl BoardEntry {
    /// The entry of the same board, with its level. Fails only if out of memory.
    pub fn into_entry(self, alloc: Global) -> Result<Entry, AllocError>
        ensures { IfOk result
            (λ entry. entry ≡ record { name = self.name; first_line = self.first_line; board = self.board }) }
    {
        let BoardEntry {
            name,
            first_line,
            board,
        } = self;
        Ok(Entry {
            name,
            first_line,
            board: level_of(alloc, board)?,
        })
    }
}

/// The level of a board, or the board's fault.
fn level_of(
    alloc: Global,
    board: Result<Board, LevelFault>,
) -> Result<Result<Level, LevelFault>, AllocError>
    ensures { IfOk result (λ level. level ≡ board) }
{
    match board {
        Ok(board) => Ok(Ok(Level::of_board(alloc, board)?)),
        Err(fault) => Ok(Err(fault)),
    }
}

/// Why a collection could not be read.
#[derive(Clone, Copy, PartialEq, Eq, Debug, Drop, Error)]
pub enum ReadFault {
    /// More bytes than [`MAX_FILE`](crate::MAX_FILE).
    #[error("more than {MAX_FILE} bytes")]
    TooLong,
    /// Out of memory.
    #[error("out of memory")]
    OutOfMemory,
}

impl From<AllocError> for ReadFault {
    ghost from_gives = { λ _ fault. fault ≡ OutOfMemory };

    fn from(_error: AllocError) -> ReadFault {
        ReadFault::OutOfMemory
    }
}
