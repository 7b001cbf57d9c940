ghost use Rattle.std.specs.Prelude.{◌≡◌, ◌%◌, ◌<◌, ◌≤◌, ◌↔◌, IsTrue, IfOk, IfErr, length};
ghost use Rattle.grid.specs.Board.{Scene, IsSolved, is_wall, is_goal, next, start, start_player};
ghost use Rattle.std.specs.List.{list_all};
ghost use Rattle.grid.specs.Lawful.{row_count, box_count, InRoom, IsLevel};
ghost use Rattle.grid.specs.Refusals.{IsRefusal};
ghost use Rattle.grid.specs.States.{FitsLevel, has_box};
ghost use Rattle.grid.specs.inside.AroundView.{around_of};
ghost use Rattle.grid.specs.RoomMask.{IsRoomMask};

use crate::around::{Around, neighbours};
use crate::board::Board;
use crate::cell::Cell;
use crate::dir::Dir;
use crate::fault::LevelFault;
use crate::limits::MAX_SQUARES;
use crate::masks::room_mask_of;
use crate::square::Square;
use std::alloc::{AllocError, Global};
use std::marker::Model;

/// A lawful level: one player, at least one box, as many boxes as goals, and no way from the player to the edge of
/// the grid. It is a [`Board`] with the tables that a search needs: the neighbours of each square, so that a step needs
/// no division, and a mask of the player's room, so that a flood works on words.
#[derive(Drop)]
pub struct Level {
    board: Board,
    around: Vec<Around>,
    room: Vec<u64>,
}

impl Model for Level {
    ghost use Rattle.grid.specs.Board.{Board};

    ghost Value = { Board };

    ghost use Rattle.grid.specs.inside.LevelView.{level_seen, HasTables};

    ghost view = { level_seen };

    ghost invariant = { HasTables };
}

impl Level {
    /// The level of these cells, row by row in rows of `cols`, at least 1; the number of cells is a multiple of it.
    /// Fails with the first [`LevelFault`] that applies, or if out of memory.
    pub fn from_cells(alloc: Global, cols: usize, cells: Vec<Cell>) -> Result<Level, LevelFault>
        requires columns { 1 ≤ cols }
        requires whole { length cells.items % cols ≡ 0 }
        ensures ok { IfOk result (λ level. level ≡ record { cols = cols; cells = cells.items }) }
        ensures lawful { IfOk result (λ level. IsLevel level) }
        ensures err { IfErr result (IsRefusal (record { cols = cols; cells = cells.items })) }
    {
        let board = Board::from_cells(alloc, cols, cells)?;
        Ok(Level::of_board(alloc, board)?)
    }

    /// The level of this board. Fails only if out of memory.
    pub fn of_board(alloc: Global, board: Board) -> Result<Level, AllocError>
        ensures { IfOk result (λ level. level ≡ board) }
    {
        let around = neighbours(alloc, board.cols(), board.cells())?;
        let room = room_mask_of(alloc, &board)?;
        Ok(Level {
            board,
            around,
            room,
        })
    }

    /// States that the level is lawful. It does nothing; call it in proofs.
    pub fn tell(&self)
        ensures { IsLevel self.now }
    {
        self.board.tell();
    }

    /// States that the level's start is a state of it, with as many boxes as the level has. It does nothing; call it in
    /// proofs.
    pub fn tell_start(&self)
        ensures { FitsLevel self.now (start self.now) }
    {
        self.tell();
    }

    /// The number of rows.
    pub fn rows(&self) -> usize
        ensures { result ≡ row_count self.now }
    {
        self.board.rows()
    }

    /// The number of columns.
    pub fn cols(&self) -> usize
        ensures { result ≡ self.now.cols }
    {
        self.board.cols()
    }

    /// The number of squares: rows times columns.
    pub fn squares(&self) -> usize
        ensures { result ≡ length self.now.cells }
    {
        self.board.cells().len()
    }

    // The cells, row by row.
    pub(crate) fn cells(&self) -> &[Cell]
        ensures value { result.now ≡ self.now.cells }
        ensures bound { length result.now ≤ MAX_SQUARES }
    {
        self.board.cells()
    }

    /// Whether the square is a wall. Every number outside the grid is one.
    pub fn is_wall(&self, square: Square) -> bool
        ensures { result ≡ is_wall self.now square }
    {
        self.board.is_wall(square)
    }

    /// Whether the square has a goal.
    pub fn is_goal(&self, square: Square) -> bool
        ensures { result ≡ is_goal self.now square }
    {
        self.board.is_goal(square)
    }

    /// Whether each of these boxes is on a goal, as at the end of a solution.
    pub fn are_on_goals(&self, boxes: &[Square]) -> bool
        ensures { (s : Scene) → boxes.now ≡ s.boxes → IsTrue result ↔ IsSolved self.now s }
    {
        are_goals(boxes, self)
    }

    /// Whether a box is on the square at the start.
    pub fn has_box(&self, square: Square) -> bool
        ensures { result ≡ has_box self.now square }
    {
        self.board.has_box(square)
    }

    /// The number of boxes.
    pub fn boxes(&self) -> usize
        ensures { result ≡ box_count self.now }
    {
        self.board.boxes()
    }

    /// The player's square at the start.
    pub fn player(&self) -> Square
        ensures { result ≡ start_player self.now }
    {
        self.board.player()
    }

    /// The square next to a square of the grid in a direction. Where the grid ends it is the number of squares, which
    /// is no square.
    pub fn next(&self, square: Square, dir: Dir) -> Square
        requires { square < length self.now.cells }
        ensures { result ≡ next self.now square dir }
    {
        let Around { d, l, r, u } = self.around(square);
        [d, l, r, u][dir.place()]
    }

    // The four squares next to a square.
    fn around(&self, square: Square) -> Around
        requires { square < length self.now.cells }
        ensures { result ≡ around_of self.now square }
    {
        self.around[square.0 as usize]
    }

    /// The squares of the player's room as bits of words: bit i of word k is the square `WORD_BITS * k + i`.
    pub fn room_mask(&self) -> &[u64]
        ensures { IsRoomMask self.now result.now }
    {
        self.room.as_slice()
    }

    /// Whether the square belongs to the player's room: the squares that the player reaches if boxes are ignored.
    pub fn in_room(&self, square: Square) -> bool
        ensures { IsTrue result ↔ InRoom self.now square }
    {
        self.board.in_room(square)
    }

    /// An equal level. Fails only if out of memory.
    pub fn copy(&self) -> Result<Level, AllocError>
        ensures { IfOk result (λ level. level ≡ self.now) }
    {
        Ok(Level {
            board: self.board.copy()?,
            around: self.around.clone()?,
            room: self.room.clone()?,
        })
    }
}

impl PartialEq for Level {
    ghost use Rattle.std.proofs.Common.{rules};
    ghost use Rattle.std.specs.Cmp.Rules.{comparing};
    ghost use Rattle.grid.specs.Equality.{same_board};

    ghost eq = { same_board };

    ghost laws = { Prim.search (comparing, rules) };

    /// Whether the levels have the same size and the same cells.
    fn eq(&self, other: &Level) -> bool
        ensures answer { result ≡ same_board self.now other.now }
        ensures same { IsTrue result ↔ (self.now ≡ other.now) }
    {
        self.cols() == other.cols() && same_cells(self.cells(), other.cells())
    }
}

impl Eq for Level {
    ghost use Rattle.std.proofs.Common.{rules};
    ghost use Rattle.std.specs.Cmp.Rules.{comparing};

    ghost laws = { Prim.search (comparing, rules) };
}

// Whether the cells are the same.
fn same_cells(cells: &[Cell], others: &[Cell]) -> bool
    ensures { IsTrue result ↔ (cells.now ≡ others.now) }
{
    if cells.len() != others.len() {
        return false;
    }
    are_same(cells, others)
}

// `same_cells` for equally many cells. The loop has no early end, so that the compiler compares several at once.
#[inline(always)]
fn are_same(cells: &[Cell], others: &[Cell]) -> bool
    requires { length cells.now ≡ length others.now }
    ensures { IsTrue result ↔ (cells.now ≡ others.now) }
{
    let mut same = true;
    for (place, cell) in cells.iter().enumerate() {
        same &= *cell == others[place];
    }
    same
}

// Whether each square has a goal.
fn are_goals(squares: &[Square], level: &Level) -> bool
    ensures { result ≡ list_all (is_goal level.now) squares.now }
{
    squares.iter().all(|square| level.is_goal(*square))
}
