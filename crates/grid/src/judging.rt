//! Checks of the cells of a board: its size, and the numbers of players, boxes and goals.
ghost use Rattle.std.specs.Prelude.{◌≡◌, ℕ, ◌%◌, ◌≤◌, length, count_by};
ghost use Rattle.grid.specs.Board.{box_cell, goal_cell, player_cell, start_player};
ghost use Rattle.grid.specs.Lawful.{cell_fault};
ghost use Rattle.grid.specs.inside.Counting.{count_fault};

use crate::cell::Cell;
use crate::fault::LevelFault;
use crate::limits::{MAX_COLS, MAX_ROWS, MAX_SQUARES};
use crate::square::Square;

/// The first fault that the cells alone show.
pub(crate) fn cell_fault(cols: usize, cells: &[Cell]) -> Option<LevelFault>
    requires columns { 1 ≤ cols }
    requires whole { length cells.now % cols ≡ 0 }
    ensures { result ≡ cell_fault (record { cols = cols; cells = cells.now }) }
{
    if cells.len() / cols > MAX_ROWS {
        return Some(LevelFault::TooTall);
    }
    if cols > MAX_COLS {
        return Some(LevelFault::TooWide);
    }
    count_fault(cells)
}

// The fault of the numbers of players, boxes and goals, if there is one.
fn count_fault(cells: &[Cell]) -> Option<LevelFault>
    requires { length cells.now ≤ MAX_SQUARES }
    ensures { (cols : ℕ) → result ≡ count_fault (record { cols = cols; cells = cells.now }) }
{
    let players = players_of(cells);
    if players == 0 {
        return Some(LevelFault::NoPlayer);
    }
    if players > 1 {
        return Some(LevelFault::TwoPlayers);
    }
    let boxes = boxes_of(cells);
    let goals = goals_of(cells);
    if boxes == 0 {
        return Some(LevelFault::NoBox);
    }
    if boxes != goals {
        return Some(LevelFault::Counts { boxes, goals });
    }
    None
}

// Cells are counted in 16 bits, so that the compiler makes vector instructions.
fn players_of(cells: &[Cell]) -> usize
    requires { length cells.now ≤ MAX_SQUARES }
    ensures { result ≡ count_by player_cell cells.now }
{
    let mut players: u16 = 0;
    for cell in cells {
        players += u16::from(cell.has_player());
    }
    players as usize
}

/// The number of boxes.
pub(crate) fn boxes_of(cells: &[Cell]) -> usize
    requires { length cells.now ≤ MAX_SQUARES }
    ensures { result ≡ count_by box_cell cells.now }
{
    let mut boxes: u16 = 0;
    for cell in cells {
        boxes += u16::from(cell.has_box());
    }
    boxes as usize
}

fn goals_of(cells: &[Cell]) -> usize
    requires { length cells.now ≤ MAX_SQUARES }
    ensures { result ≡ count_by goal_cell cells.now }
{
    let mut goals: u16 = 0;
    for cell in cells {
        goals += u16::from(cell.has_goal());
    }
    goals as usize
}

/// The square of the one player.
pub(crate) fn player_of(cells: &[Cell]) -> Square
    requires one { count_by player_cell cells.now ≡ 1 }
    requires bound { length cells.now ≤ MAX_SQUARES }
    ensures { (cols : ℕ) → result ≡ start_player (record { cols = cols; cells = cells.now }) }
{
    for (i, cell) in cells.iter().enumerate() {
        if cell.has_player() {
            return Square(i as u16);
        }
    }
    Square(0)
}
