//! Where the player gets out of a board.
ghost use Rattle.std.specs.Prelude.{◌≡◌, ℕ, ◌+◌, ◌≤◌, ◌<◌, ◌∷◌, false, length, drop, slice_get, IfOk, MatchBool, OnOk};
ghost use Rattle.grid.specs.Board.{is_wall, next, start_player};
ghost use Rattle.grid.specs.inside.Filling.{IsFilling, IsLook, IsMarked};
ghost use Rattle.sokopar.specs.Explaining.{IsExit};
ghost use Rattle.sokopar.specs.inside.Explaining.{AreBounded, HasTurned, IsExitOrNone, board_in};

use grid::{Dir, Square};
use std::alloc::{AllocError, Global};
use xsb::BoardRows;

/// The square next to a square of a board; the number of cells where the grid ends.
#[tactic(auto, unfolding(grid::specs::Board::next))]
fn next_to(rows: &BoardRows, square: Square, dir: Dir) -> usize
    requires bounds { AreBounded rows.now }
    requires inside { square < length rows.now.cells.items }
    ensures { result ≡ next (board_in rows.now) square dir }
{
    let cols = rows.cols;
    let end = rows.cells.len();
    let from = square.0 as usize;
    match dir {
        Dir::D => { if from + cols < end { from + cols } else { end } }
        Dir::L => { if from % cols == 0 { end } else { from - 1 } }
        Dir::R => {
            if (from + 1) % cols == 0 {
                end
            } else {
                from + 1
            }
        }
        Dir::U => { if from < cols { end } else { from - cols } }
    }
}

/// Whether the square is a wall; everything outside the grid is.
#[tactic(auto, unfolding(grid::specs::Board::is_wall))]
fn is_wall(rows: &BoardRows, place: usize) -> bool
    ensures { result ≡ is_wall (board_in rows.now) place }
{
    rows.cells.get(place).map_or(true, |cell| cell.is_wall())
}

/// Adds a square to the pending ones and marks it, unless it is a wall or marked.
fn look(
    rows: &BoardRows,
    marks: &mut [bool],
    pending: &mut Vec<Square>,
    place: usize,
) -> Result<(), AllocError>
    requires bound { length rows.now.cells.items ≤ 65535 }
    requires size { length marks.old ≡ length rows.now.cells.items }
    requires inside { place < length rows.now.cells.items }
    ensures { OnOk result (IsLook (board_in rows.now) place marks.old pending.old.items marks.new pending.new.items) }
{
    if is_wall(rows, place) {
        return Ok(());
    }
    if marks[place] {
        return Ok(());
    }
    pending.push(Square(place as u16))?;
    marks[place] = true;
    Ok(())
}

/// Looks at the squares next to the pending square at place `turn`. Returns whether the grid ends beside it.
fn look_round(
    rows: &BoardRows,
    marks: &mut [bool],
    pending: &mut Vec<Square>,
    turn: usize,
    square: Square,
) -> Result<bool, AllocError>
    requires bounds { AreBounded rows.now }
    requires turn { turn + 1 ≤ length pending.old.items }
    requires filling { IsFilling (board_in rows.now) marks.old (square ∷ drop (turn + 1) pending.old.items) }
    ensures { IfOk result (λ ends. MatchBool ends (IsExit (board_in rows.now) square)
        (HasTurned (board_in rows.now) (turn + 1) marks.old pending.old.items marks.new pending.new.items)) }
{
    for dir in Dir::ALL {
        let place = next_to(rows, square, dir);
        if place == rows.cells.len() {
            return Ok(true);
        }
        look(rows, marks, pending, place)?;
    }
    Ok(false)
}

/// The pending square at a place, if there is one.
fn pending_at(pending: &[Square], turn: usize) -> Option<Square>
    ensures { result ≡ slice_get pending.now turn }
{
    pending.get(turn).copied()
}

/// The first of the pending squares beside which the grid ends, if any; looks at the squares next to each.
fn first_exit(
    rows: &BoardRows,
    marks: &mut [bool],
    pending: &mut Vec<Square>,
) -> Result<Option<Square>, AllocError>
    requires bounds { AreBounded rows.now }
    requires filling { IsFilling (board_in rows.now) marks.old pending.old.items }
    ensures { IfOk result (IsExitOrNone (board_in rows.now)) }
{
    let mut turn = 0;
    'turns: while let Some(square) = pending_at(pending.as_slice(), turn) {
        let ends = look_round(rows, marks, pending, turn, square)?;
        if ends {
            return Ok(Some(square));
        }
        turn += 1;
    }
    Ok(None)
}

/// `exit_from`, given a clear mark for each square.
fn exit_by(
    alloc: Global,
    rows: &BoardRows,
    marks: &mut [bool],
    player: Square,
) -> Result<Option<Square>, AllocError>
    requires bounds { AreBounded rows.now }
    requires start { player ≡ start_player (board_in rows.now) }
    requires floor { is_wall (board_in rows.now) player ≡ false }
    requires size { length marks.old ≡ length rows.now.cells.items }
    requires clear { (q : ℕ) → ¬ (IsMarked marks.old q) }
    ensures { IfOk result (IsExitOrNone (board_in rows.now)) }
{
    let mut pending = vec![in alloc; player; 1]?;
    marks[player.0 as usize] = true;
    first_exit(rows, marks, &mut pending)
}

/// A square at the edge of the grid that steps lead to from the player, boxes ignored: the nearest. `None` if none do.
pub(crate) fn exit_from(
    alloc: Global,
    rows: &BoardRows,
    player: Square,
) -> Result<Option<Square>, AllocError>
    requires bounds { AreBounded rows.now }
    requires start { player ≡ start_player (board_in rows.now) }
    requires floor { is_wall (board_in rows.now) player ≡ false }
    ensures { IfOk result (IsExitOrNone (board_in rows.now)) }
{
    let mut marks = vec![in alloc; false; rows.cells.len()]?;
    exit_by(alloc, rows, &mut marks, player)
}
