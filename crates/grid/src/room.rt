ghost use Rattle.std.specs.Prelude.{◌≡◌, ℕ, ◌<◌, ◌≤◌, ◌⊎◌, ◌↔◌, ◌∷◌, ◌++◌, [], IfOk, IfErr, OnOk, false, length};
ghost use Rattle.grid.specs.Board.{is_wall, start_player};
ghost use Rattle.grid.specs.Lawful.{InRoom, IsOpen};
ghost use Rattle.grid.specs.inside.Filling.{IsFilling, IsLook, IsMarked, IsRoomFault, IsSized, board_of, work};

use crate::around::neighbours_of;
use crate::cell::Cell;
use crate::dir::Dir;
use crate::fault::LevelFault;
use crate::square::Square;
use std::alloc::{AllocError, Global};

/// A mark for each square of the player's room: the squares that the player reaches if boxes are ignored. Fails if the
/// room is open, or if out of memory.
pub(crate) fn room_of(
    alloc: Global,
    cols: usize,
    cells: &[Cell],
    player: Square,
) -> Result<Vec<bool>, LevelFault>
    requires sized { IsSized cols cells.now }
    requires start { player ≡ start_player (board_of cols cells.now) }
    requires floor { is_wall (board_of cols cells.now) player ≡ false }
    ensures marked { IfOk result (λ room. (q : ℕ) → IsMarked room.items q ↔ InRoom (board_of cols cells.now) q) }
    ensures closed { IfOk result (λ _. ¬ (IsOpen (board_of cols cells.now))) }
    ensures err { IfErr result (λ f. IsRoomFault (board_of cols cells.now) f) }
{
    let mut room = vec![in alloc; false; cells.len()]?;
    fill(alloc, cols, cells, &mut room, player)?;
    Ok(room)
}

// Marks the player's square and, beside each marked square, the squares that are no walls. Each pending square is
// marked, and the squares beside it are still to be looked at.
fn fill(
    alloc: Global,
    cols: usize,
    cells: &[Cell],
    room: &mut [bool],
    player: Square,
) -> Result<(), LevelFault>
    requires sized { IsSized cols cells.now }
    requires start { player ≡ start_player (board_of cols cells.now) }
    requires floor { is_wall (board_of cols cells.now) player ≡ false }
    requires size { length room.old ≡ length cells.now }
    requires clear { (q : ℕ) → ¬ (IsMarked room.old q) }
    ensures marked { OnOk result ((q : ℕ) → IsMarked room.new q ↔ InRoom (board_of cols cells.now) q) }
    ensures closed { OnOk result (¬ (IsOpen (board_of cols cells.now))) }
    ensures err { IfErr result (λ f. IsRoomFault (board_of cols cells.now) f) }
{
    let mut pending = vec![in alloc; player; 1]?;
    room[player.0 as usize] = true;
    while let Some(square) = pending.pop() {
        look_round(cols, cells, room, &mut pending, square)?;
    }
    Ok(())
}

// Looks at the squares beside a square.
fn look_round(
    cols: usize,
    cells: &[Cell],
    room: &mut [bool],
    pending: &mut Vec<Square>,
    square: Square,
) -> Result<(), LevelFault>
    requires sized { IsSized cols cells.now }
    requires filling { IsFilling (board_of cols cells.now) room.old (square ∷ pending.old.items) }
    ensures filling { OnOk result (IsFilling (board_of cols cells.now) room.new pending.new.items) }
    ensures work { OnOk result (work room.new pending.new.items ≤ work room.old pending.old.items) }
    ensures err { IfErr result (λ f. IsRoomFault (board_of cols cells.now) f) }
{
    let at = square.0 as usize;
    let around = neighbours_of(cols, cells, at, at % cols);
    for dir in Dir::ALL {
        look(cells, room, pending, around.to(dir))?;
    }
    Ok(())
}

// Looks at a square: if it is neither a wall nor marked, marks it and makes it pending. Fails with `Open` at the number
// past the grid.
#[inline(always)]
fn look(
    cells: &[Cell],
    room: &mut [bool],
    pending: &mut Vec<Square>,
    square: Square,
) -> Result<(), LevelFault>
    requires size { length room.old ≡ length cells.now }
    requires inside { square ≤ length cells.now }
    ensures ok { OnOk result ((cols : ℕ) →
        IsLook (board_of cols cells.now) square room.old pending.old.items room.new pending.new.items) }
    ensures err { IfErr result (λ f. (f ≡ LevelFault.OutOfMemory) ⊎
        ((f ≡ LevelFault.Open) × (square ≡ length cells.now))) }
{
    let at = square.0 as usize;
    if at == cells.len() {
        return Err(LevelFault::Open);
    }
    if is_wall_at(cells, at) {
        return Ok(());
    }
    if room[at] {
        return Ok(());
    }
    append(pending, square)?;
    room[at] = true;
    Ok(())
}

// Appends a square to the pending ones.
#[inline(always)]
fn append(pending: &mut Vec<Square>, square: Square) -> Result<(), AllocError>
    ensures { OnOk result (pending.new.items ≡ pending.old.items ++ square ∷ []) }
{
    pending.push(square)?;
    Ok(())
}

// Whether the square of the grid is a wall.
#[inline(always)]
#[tactic(auto, unfolding(crate::specs::Board::is_wall))]
fn is_wall_at(cells: &[Cell], place: usize) -> bool
    requires { place < length cells.now }
    ensures { (cols : ℕ) → result ≡ is_wall (board_of cols cells.now) place }
{
    cells[place].is_wall()
}
