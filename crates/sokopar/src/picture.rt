//! The picture of a board: its cells as they were read, and the dead squares of a level.
ghost use Rattle.std.specs.Prelude.{◌≡◌, ℕ, ◌≤◌, ◌++◌, List, length, map, IfOk, OnOk};
ghost use Rattle.sokopar.specs.Explaining.{AreShown, IsPicture, IsShown, drawn, shown_byte};
ghost use Rattle.sokopar.specs.inside.Explaining.{AreBounded, board_in};
ghost use Rattle.xsb.specs.Collection.{IsJudged};
ghost use Rattle.xsb.specs.Rows.{cell_byte};

use crate::dead::{mark_of, put_map};
use doom::Dead;
use grid::{Cell, Level, LevelFault, Square};
use judging::Text;
use std::alloc::{AllocError, Global};
use xsb::{BoardRows, cell_byte};

/// The byte of a cell of a level, given the mark of its square by `dead`, and whether the square is dead.
fn shown_byte(cell: Cell, mark: u8, dead: bool) -> u8
    ensures { result ≡ shown_byte cell mark dead }
{
    match cell {
        Cell::Floor => mark,
        Cell::Box => { if dead { b'!' } else { b'$' } }
        _ => cell_byte(cell),
    }
}

/// The byte of a cell on a square of a level.
fn byte_on(level: &Level, dead: &Dead, square: Square, cell: Cell) -> u8
    requires { dead.now ≡ level.now }
    ensures { IsShown level.now square cell result }
{
    shown_byte(cell, mark_of(level, dead, square), dead.is_dead(square))
}

/// The bytes of the cells of a level, given its dead squares.
fn bytes_by(
    alloc: Global,
    level: &Level,
    dead: &Dead,
    cells: &[Cell],
) -> Result<Vec<u8>, AllocError>
    requires dead { dead.now ≡ level.now }
    requires bound { length cells.now ≤ 65535 }
    requires cells { cells.now ≡ level.now.cells }
    ensures { IfOk result (λ bytes. AreShown level.now bytes.items) }
{
    let mut bytes = Vec::new(alloc);
    for (place, cell) in cells.iter().enumerate() {
        bytes.push(byte_on(level, dead, Square(place as u16), *cell))?;
    }
    Ok(bytes)
}

/// The bytes of the cells of a level.
fn bytes_on(alloc: Global, level: &Level, cells: &[Cell]) -> Result<Vec<u8>, AllocError>
    requires bound { length cells.now ≤ 65535 }
    requires cells { cells.now ≡ level.now.cells }
    ensures { IfOk result (λ bytes. AreShown level.now bytes.items) }
{
    let dead = Dead::of(alloc, level)?;
    bytes_by(alloc, level, &dead, cells)
}

/// The bytes of the cells of a faulty board.
fn bytes_of(alloc: Global, cells: &[Cell]) -> Result<Vec<u8>, AllocError>
    ensures { IfOk result (λ bytes. bytes.items ≡ map cell_byte cells.now) }
{
    cells.iter().map(|cell| cell_byte(*cell)).collect(alloc)
}

/// The bytes of the cells of a board.
fn picture_of(
    alloc: Global,
    rows: &BoardRows,
    board: &Result<Level, LevelFault>,
) -> Result<Vec<u8>, AllocError>
    requires bounds { AreBounded rows.now }
    requires judged { IsJudged (board_in rows.now) board.now }
    ensures { IfOk result (λ bytes. IsPicture board.now rows.now.cells.items bytes.items) }
{
    match board {
        Ok(level) => bytes_on(alloc, level, &rows.cells),
        Err(_) => bytes_of(alloc, &rows.cells),
    }
}

/// Appends the rows that the bytes of a board's cells make.
fn put_bytes(text: &mut Text, rows: &BoardRows, bytes: &[u8]) -> Result<(), AllocError>
    requires { 1 ≤ rows.now.cols }
    ensures { OnOk result (text.new ≡ text.old ++ drawn (board_in rows.now) bytes.now) }
{
    put_map(text, rows.cells.len() / rows.cols, rows.cols, bytes)
}

/// Appends the picture of a board.
pub(crate) fn put_drawn(
    alloc: Global,
    text: &mut Text,
    rows: &BoardRows,
    board: &Result<Level, LevelFault>,
) -> Result<(), AllocError>
    requires bounds { AreBounded rows.now }
    requires judged { IsJudged (board_in rows.now) board.now }
    ensures { OnOk result ((bytes : List ℕ) × IsPicture board.now rows.now.cells.items bytes ×
        (text.new ≡ text.old ++ drawn (board_in rows.now) bytes)) }
{
    let bytes = picture_of(alloc, rows, board)?;
    put_bytes(text, rows, bytes.as_slice())
}
