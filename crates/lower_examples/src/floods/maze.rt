//! A walk of some thirty thousand steps, through a maze of the greatest size.
ghost use Rattle.std.specs.Prelude.{◌≡◌};
ghost use Rattle.grid.specs.States.{IsScene};

use super::is_text;
use crate::boards::cells_of;
use area::{Scratch, walk};
use grid::{Level, MAX_COLS, MAX_ROWS, Moves, Square, State};
use std::alloc::Global;
use std::process::Abort;

// The last square of the last corridor.
const LAST: Square = Square(64768);

// The cell of a maze that is one way: each second row is a corridor, and corridors are joined at the right and at the
// left end in turn. A box on its goal is in the wall below the first corridor.
fn cell_at(row: usize, col: usize) -> u8 {
    let is_edge = row == 0 || row == MAX_ROWS - 1 || col == 0 || col == MAX_COLS - 1;
    let joint = if row % 4 == 2 { MAX_COLS - 2 } else { 1 };
    match (row, col) {
        (1, 1) => b'@',
        (2, 1) => b'*',
        _ if is_edge || row % 2 == 0 && col != joint => b'#',
        _ => b' ',
    }
}

fn maze_level(rt: &impl Abort, alloc: Global) -> Level {
    let mut bytes = Vec::new(alloc);
    for row in 0..MAX_ROWS {
        for col in 0..MAX_COLS {
            bytes.push(cell_at(row, col)).expect(rt, "memory");
        }
    }
    let cells = cells_of(rt, alloc, &bytes);
    assert!(rt; cells.len() % MAX_COLS == 0);
    Level::from_cells(alloc, MAX_COLS, cells).expect(rt, "a level")
}

// The walk from the first to the last square of the maze.
fn way(rt: &impl Abort, alloc: Global) -> Vec<u8> {
    let mut way = Vec::new(alloc);
    for row in 0..MAX_ROWS / 2 {
        if row > 0 {
            way.extend_from_slice(b"dd").expect(rt, "memory");
        }
        for _ in 1..MAX_COLS - 2 {
            way.push(if row % 2 == 0 { b'r' } else { b'l' })
                .expect(rt, "memory");
        }
    }
    way
}

#[test]
fn the_way_through_a_maze_is_found(rt: HostRuntime) {
    let level = maze_level(&rt, rt.alloc());
    let state = State::start(rt.alloc(), &level).expect(&rt, "memory");
    check_way(&rt, rt.alloc(), &level, &state);
}

fn check_way(rt: &impl Abort, alloc: Global, level: &Level, state: &State)
    requires { IsScene level.now state.now }
{
    let mut scratch = Scratch::new(alloc, level).expect(rt, "memory");
    let mut moves = Moves::new(alloc);
    let found = walk(level, state, LAST, &mut scratch, &mut moves);
    assert_eq!(rt; found, Ok(true));
    assert_eq!(rt; moves.len(), 32_256);
    assert!(rt; is_text(&moves, &way(rt, alloc)));
}
