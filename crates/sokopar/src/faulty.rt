//! The remark on a faulty board.
ghost use Rattle.std.specs.Prelude.{◌≡◌, ◌≤◌, length, slice_get, IfOk};
ghost use Rattle.grid.specs.Lawful.{HasFault};
ghost use Rattle.grid.specs.Squares.{places_from};
ghost use Rattle.sokopar.specs.Explaining.{IsRemarkOnFault};
ghost use Rattle.sokopar.specs.inside.Explaining.{AreBounded, IsWayOut, board_in, is_kind, is_open, is_unequal};

use crate::exits::exit_from;
use crate::remark::Remark;
use grid::{Cell, LevelFault, Square};
use std::alloc::{AllocError, Global};
use xsb::BoardRows;

/// What a cell may have on it.
#[derive(Clone, Copy)]
pub(crate) enum Kind {
    Player,
    Box,
    Goal,
}

/// Whether a cell has something of a kind on it.
fn is_kind(kind: Kind, cell: Cell) -> bool
    ensures { result ≡ is_kind kind cell }
{
    match kind {
        Kind::Player => matches!(cell, Cell::Player | Cell::PlayerOnGoal),
        Kind::Box => cell.has_box(),
        Kind::Goal => matches!(cell, Cell::Goal | Cell::BoxOnGoal | Cell::PlayerOnGoal),
    }
}

/// The squares of the cells that have something of a kind on them.
fn squares_among(alloc: Global, kind: Kind, cells: &[Cell]) -> Result<Vec<Square>, AllocError>
    requires { length cells.now ≤ 65535 }
    ensures { IfOk result (λ squares. squares.items ≡ places_from (is_kind kind) 0 cells.now) }
{
    let mut squares = Vec::new(alloc);
    for (place, cell) in cells.iter().enumerate() {
        if is_kind(kind, *cell) {
            squares.push(Square(place as u16))?;
        }
    }
    Ok(squares)
}

/// The squares of a board that have something of a kind on them.
pub(crate) fn squares_with(
    alloc: Global,
    kind: Kind,
    rows: &BoardRows,
) -> Result<Vec<Square>, AllocError>
    requires { length rows.now.cells.items ≤ 65535 }
    ensures { IfOk result (λ squares. squares.items ≡ places_from (is_kind kind) 0 rows.now.cells.items) }
{
    squares_among(alloc, kind, &rows.cells)
}

/// Whether the numbers of boxes and goals are at fault.
fn is_unequal(fault: LevelFault) -> bool
    ensures { result ≡ is_unequal fault }
{
    matches!(fault, LevelFault::NoBox | LevelFault::Counts { .. })
}

/// Whether the player gets out.
pub(crate) fn is_open(fault: LevelFault) -> bool
    ensures { result ≡ is_open fault }
{
    matches!(fault, LevelFault::Open)
}

/// The first of the squares.
fn first_of(squares: &[Square]) -> Option<Square>
    ensures { result ≡ slice_get squares.now 0 }
{
    squares.first().copied()
}

/// Where the player, of several the first, gets out of a board; `None` if nowhere.
pub(crate) fn exit_of(alloc: Global, rows: &BoardRows) -> Result<Option<Square>, AllocError>
    requires bounds { AreBounded rows.now }
    ensures { IfOk result (IsWayOut (board_in rows.now)) }
{
    let players = squares_with(alloc, Kind::Player, rows)?;
    let Some(player) = first_of(players.as_slice()) else {
        return Ok(None);
    };
    exit_from(alloc, rows, player)
}

/// The remark on a faulty board that is none too large, given where the player gets out.
pub(crate) fn remark_of_fault(
    alloc: Global,
    fault: LevelFault,
    rows: &BoardRows,
    exit: &Option<Square>,
) -> Result<Remark, AllocError>
    requires bounds { AreBounded rows.now }
    requires fault { HasFault (board_in rows.now) fault }
    requires exit { IsWayOut (board_in rows.now) exit.now }
    ensures { IfOk result (IsRemarkOnFault fault (board_in rows.now)) }
{
    if is_unequal(fault) {
        let boxes = squares_with(alloc, Kind::Box, rows)?;
        let goals = squares_with(alloc, Kind::Goal, rows)?;
        return Ok(Remark::Unequal { boxes, goals });
    }
    if is_open(fault) {
        let Some(square) = exit else {
            unreachable!();
        };
        return Ok(Remark::Exit(*square));
    }
    let players = squares_with(alloc, Kind::Player, rows)?;
    Ok(Remark::Players(players))
}
