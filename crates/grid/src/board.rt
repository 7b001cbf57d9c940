ghost use Rattle.std.specs.Prelude.{◌≡◌, ◌%◌, ◌≤◌, ◌↔◌, IsTrue, IfOk, IfErr, length};
ghost use Rattle.grid.specs.Board.{is_wall, is_goal, start_player};
ghost use Rattle.grid.specs.States.{has_box};
ghost use Rattle.grid.specs.Lawful.{row_count, box_count, InRoom, IsLevel};
ghost use Rattle.grid.specs.Refusals.{IsRefusal};

use crate::cell::Cell;
use crate::fault::LevelFault;
use crate::judging::{boxes_of, cell_fault, player_of};
use crate::limits::MAX_SQUARES;
use crate::room::room_of;
use crate::square::Square;
use std::alloc::{AllocError, Global};
use std::marker::Model;

/// A lawful board: a level without the tables that a search needs.
#[derive(Drop)]
pub struct Board {
    cols: usize,
    rows: usize,
    cells: Vec<Cell>,
    room: Vec<bool>,
    player: Square,
    boxes: usize,
}

impl Model for Board {
    ghost use Rattle.grid.specs.Board.{Board};

    ghost Value = { Board };

    ghost use Rattle.grid.specs.inside.BoardView.{board_seen, IsSound};

    ghost view = { board_seen };

    ghost invariant = { IsSound };
}

impl Board {
    /// The board of these cells, row by row in rows of `cols`, or its first fault. The number of cells must be a
    /// multiple of `cols`. Fails with the first [`LevelFault`] that applies, or if out of memory.
    pub fn from_cells(alloc: Global, cols: usize, cells: Vec<Cell>) -> Result<Board, LevelFault>
        requires columns { 1 ≤ cols }
        requires whole { length cells.items % cols ≡ 0 }
        ensures ok { IfOk result (λ board. board ≡ record { cols = cols; cells = cells.items }) }
        ensures lawful { IfOk result (λ board. IsLevel board) }
        ensures err { IfErr result (IsRefusal (record { cols = cols; cells = cells.items })) }
    {
        if let Some(fault) = cell_fault(cols, cells.as_slice()) {
            return Err(fault);
        }
        let player = player_of(cells.as_slice());
        let room = room_of(alloc, cols, cells.as_slice(), player)?;
        let boxes = boxes_of(cells.as_slice());
        Ok(Board {
            cols,
            rows: cells.len() / cols,
            cells,
            room,
            player,
            boxes,
        })
    }

    /// States that the board is lawful. It does nothing; call it in proofs.
    pub fn tell(&self)
        ensures { IsLevel self.now }
    {
        let _ = &self.cells;
    }

    /// The number of rows.
    pub fn rows(&self) -> usize
        ensures { result ≡ row_count self.now }
    {
        self.rows
    }

    /// The number of columns.
    pub fn cols(&self) -> usize
        ensures { result ≡ self.now.cols }
    {
        self.cols
    }

    /// The number of boxes.
    pub fn boxes(&self) -> usize
        ensures { result ≡ box_count self.now }
    {
        self.boxes
    }

    /// The cells, row by row.
    pub(crate) fn cells(&self) -> &[Cell]
        ensures value { result.now ≡ self.now.cells }
        ensures bound { length result.now ≤ MAX_SQUARES }
    {
        self.cells.as_slice()
    }

    /// Whether the square is a wall; everything outside the grid is.
    #[tactic(auto, unfolding(crate::specs::Board::is_wall))]
    pub(crate) fn is_wall(&self, square: Square) -> bool
        ensures { result ≡ is_wall self.now square }
    {
        self.cells
            .get(square.0 as usize)
            .map_or(true, |cell| cell.is_wall())
    }

    /// Whether the square has a goal.
    #[tactic(auto, unfolding(crate::specs::Board::is_goal))]
    pub(crate) fn is_goal(&self, square: Square) -> bool
        ensures { result ≡ is_goal self.now square }
    {
        self.cells
            .get(square.0 as usize)
            .map_or(false, |cell| cell.has_goal())
    }

    /// Whether a box is on the square at the start.
    #[tactic(auto, unfolding(crate::specs::States::has_box))]
    pub(crate) fn has_box(&self, square: Square) -> bool
        ensures { result ≡ has_box self.now square }
    {
        self.cells
            .get(square.0 as usize)
            .map_or(false, |cell| cell.has_box())
    }

    /// The player's square at the start.
    pub(crate) fn player(&self) -> Square
        ensures { result ≡ start_player self.now }
    {
        self.player
    }

    /// Whether the square is of the player's room.
    pub(crate) fn in_room(&self, square: Square) -> bool
        ensures { IsTrue result ↔ InRoom self.now square }
    {
        self.room.get(square.0 as usize).map_or(false, |flag| *flag)
    }

    /// An equal board.
    pub(crate) fn copy(&self) -> Result<Board, AllocError>
        ensures { IfOk result (λ board. board ≡ self.now) }
    {
        Ok(Board {
            cols: self.cols,
            rows: self.rows,
            cells: self.cells.clone()?,
            room: self.room.clone()?,
            player: self.player,
            boxes: self.boxes,
        })
    }
}
