ghost use Rattle.std.specs.Prelude.{◌≡◌, ◌+◌, ◌*◌, ◌≤◌, ◌<◌, ◌++◌, [], ◌∷◌, length, take, drop, slice_index_or, OnOk};
ghost use Rattle.std.specs.Prelude.{OnErr};
ghost use Rattle.bstr.specs.Text.{Extends};
ghost use Rattle.grid.specs.Lawful.{IsLevel};
ghost use Rattle.xsb.specs.Boards.{cut_row};
ghost use Rattle.xsb.specs.Collection.{IsCollection};
ghost use Rattle.xsb.specs.Rereading.{cell_with, HasWallInEachRow, HasFullRow};
ghost use Rattle.xsb.specs.Written.{written};
ghost use Rattle.xsb.specs.inside.Bytes.{written_row};

use crate::bytes::LINE_FEED;
use crate::cells::{cell_byte, is_floor};
use grid::{Cell, Level, Square};
use std::alloc::AllocError;

/// Appends the level in plain rows: one byte for each cell, a space for floor, no floor at the end of a row, a line
/// feed after each row. Fails only if out of memory, and then leaves `out` unchanged.
pub fn write(level: &Level, out: &mut Vec<u8>) -> Result<(), AllocError>
    ensures ok { OnOk result (out.new.items ≡ out.old.items ++ written level.now) }
    ensures err { OnErr result (out.new.items ≡ out.old.items) }
    // reading gives the level back, without a name
    ensures again { HasWallInEachRow level.now → HasFullRow level.now
        → IsCollection (written level.now) (record { name = []; first_line = 1; board = level.now } ∷ []) }
{
    level.tell();
    let before = out.len();
    match push_rows(level, out) {
        Ok(()) => Ok(()),
        Err(error) => {
            out.truncate(before);
            Err(error)
        }
    }
}

/// Appends the rows of a level. After an error some of them may be appended.
fn push_rows(level: &Level, out: &mut Vec<u8>) -> Result<(), AllocError>
    requires { IsLevel level.now }
    ensures ok { OnOk result (out.new.items ≡ out.old.items ++ written level.now) }
    ensures more { Extends out.old.items out.new.items }
{
    for row in 0..level.rows() {
        push_row(level, row * level.cols(), out)?;
    }
    Ok(())
}

/// Appends the row that begins at an index of the cells. After an error a part of it may be appended.
fn push_row(level: &Level, start: usize, out: &mut Vec<u8>) -> Result<(), AllocError>
    requires level { IsLevel level.now }
    requires inside { start + level.now.cols ≤ length level.now.cells }
    ensures ok { OnOk result
        (out.new.items ≡ out.old.items ++ written_row (take level.now.cols (drop start level.now.cells))) }
    ensures more { Extends out.old.items out.new.items }
{
    let kept = kept_cells(level, start);
    for col in 0..kept {
        out.push(cell_byte(cell_at(level, start + col)))?;
    }
    out.push(LINE_FEED)?;
    Ok(())
}

/// The length of the row that begins at an index of the cells, without the floor at its end.
fn kept_cells(level: &Level, start: usize) -> usize
    requires level { IsLevel level.now }
    requires inside { start + level.now.cols ≤ length level.now.cells }
    ensures kept { result ≡ length (cut_row (take level.now.cols (drop start level.now.cells))) }
    ensures within { result ≤ level.now.cols }
{
    let mut kept = 0;
    for col in 0..level.cols() {
        if !is_floor(cell_at(level, start + col)) {
            kept = col + 1;
        }
    }
    kept
}

/// The cell at an index.
fn cell_at(level: &Level, place: usize) -> Cell
    requires level { IsLevel level.now }
    requires inside { place < length level.now.cells }
    ensures { result ≡ slice_index_or level.now.cells place Cell.Wall }
{
    let square = Square(place as u16);
    let is_player = level.player() == square;
    cell_with(
        level.is_wall(square),
        level.has_box(square),
        is_player,
        level.is_goal(square),
    )
}

/// The cell with or without a wall, a box, the player and a goal.
fn cell_with(wall: bool, boxed: bool, player: bool, goal: bool) -> Cell
    ensures { result ≡ cell_with wall boxed player goal }
{
    if wall {
        Cell::Wall
    } else if boxed {
        if goal { Cell::BoxOnGoal } else { Cell::Box }
    } else if player {
        if goal {
            Cell::PlayerOnGoal
        } else {
            Cell::Player
        }
    } else if goal {
        Cell::Goal
    } else {
        Cell::Floor
    }
}
