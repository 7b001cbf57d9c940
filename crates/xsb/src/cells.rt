//! Cells and their bytes.
ghost use Rattle.std.specs.Prelude.{◌≡◌};
ghost use Rattle.xsb.specs.Boards.{is_floor};
ghost use Rattle.xsb.specs.inside.Bytes.{cell_of};
ghost use Rattle.xsb.specs.Rows.{cell_byte};

use crate::bytes::{
    BOX, BOX_ON_GOAL, FLOOR, FLOOR_DASH, FLOOR_LOW_LINE, GOAL, PLAYER, PLAYER_ON_GOAL, WALL,
};
use grid::Cell;

/// The cell of a byte.
pub(crate) fn cell_of(byte: u8) -> Option<Cell>
    ensures { result ≡ cell_of byte }
{
    match byte {
        WALL => Some(Cell::Wall),
        PLAYER => Some(Cell::Player),
        PLAYER_ON_GOAL => Some(Cell::PlayerOnGoal),
        BOX => Some(Cell::Box),
        BOX_ON_GOAL => Some(Cell::BoxOnGoal),
        GOAL => Some(Cell::Goal),
        FLOOR | FLOOR_DASH | FLOOR_LOW_LINE => Some(Cell::Floor),
        _ => None,
    }
}

/// The byte that [`write`](crate::write) writes for a cell.
pub fn cell_byte(cell: Cell) -> u8
    ensures { result ≡ cell_byte cell }
{
    match cell {
        Cell::Wall => WALL,
        Cell::Player => PLAYER,
        Cell::PlayerOnGoal => PLAYER_ON_GOAL,
        Cell::Box => BOX,
        Cell::BoxOnGoal => BOX_ON_GOAL,
        Cell::Goal => GOAL,
        Cell::Floor => FLOOR,
    }
}

/// Whether a cell is floor with nothing on it.
pub(crate) fn is_floor(cell: Cell) -> bool
    ensures { result ≡ is_floor cell }
{
    matches!(cell, Cell::Floor)
}
