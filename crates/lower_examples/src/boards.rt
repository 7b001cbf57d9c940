//! Levels of boards that are written as bytes.
use grid::{Cell, Level};
use std::alloc::Global;
use std::process::Abort;

/// A board: its number of columns, and its rows one after the other.
pub(crate) type BoardText = (usize, &'static [u8]);

fn cell_of(byte: u8) -> Cell {
    match byte {
        b'#' => Cell::Wall,
        b'.' => Cell::Goal,
        b'$' => Cell::Box,
        b'*' => Cell::BoxOnGoal,
        b'@' => Cell::Player,
        b'+' => Cell::PlayerOnGoal,
        _ => Cell::Floor,
    }
}

/// The cells of a board.
pub(crate) fn cells_of(rt: &impl Abort, alloc: Global, bytes: &[u8]) -> Vec<Cell> {
    let mut cells = Vec::new(alloc);
    for byte in bytes {
        cells.push(cell_of(*byte)).expect(rt, "memory");
    }
    cells
}

/// The bytes of a board, row after row: walls at its edge and `inside` elsewhere, except on the squares of `changed`.
pub(crate) fn walled(
    rt: &impl Abort,
    alloc: Global,
    rows: usize,
    cols: usize,
    inside: u8,
    changed: &[(usize, u8)],
) -> Vec<u8> {
    let mut bytes = Vec::new(alloc);
    for row in 0..rows {
        for col in 0..cols {
            let is_edge = row == 0 || row == rows - 1 || col == 0 || col == cols - 1;
            bytes
                .push(if is_edge { b'#' } else { inside })
                .expect(rt, "memory");
        }
    }
    for (square, byte) in changed {
        assert!(rt; *square < bytes.len());
        bytes[*square] = *byte;
    }
    bytes
}

/// The level of a board.
pub(crate) fn level_of(rt: &impl Abort, alloc: Global, board: BoardText) -> Level {
    let (cols, bytes) = board;
    let cells = cells_of(rt, alloc, bytes);
    assert!(rt; cols >= 1);
    assert!(rt; cells.len() % cols == 0);
    Level::from_cells(alloc, cols, cells).expect(rt, "a level")
}

/// The level of a board below `rows` rows of walls, so that its squares have greater numbers.
pub(crate) fn level_below(rt: &impl Abort, alloc: Global, board: BoardText, rows: usize) -> Level {
    let (cols, bytes) = board;
    let mut cells = Vec::new(alloc);
    for _ in 0..rows {
        for _ in 0..cols {
            cells.push(Cell::Wall).expect(rt, "memory");
        }
    }
    for byte in bytes {
        cells.push(cell_of(*byte)).expect(rt, "memory");
    }
    assert!(rt; cols >= 1);
    assert!(rt; cells.len() % cols == 0);
    Level::from_cells(alloc, cols, cells).expect(rt, "a level")
}

/// One box next to its goal.
pub(crate) const ONE: &[u8] = b"#####\n#@$.#\n#####\n";

/// A box on its goal.
pub(crate) const SOLVED: &[u8] = b"####\n#@*#\n####\n";

/// A box in a corner room, with its goal at the other corner.
pub(crate) const CORNER: &[u8] = b"#####\n#.  #\n# $ #\n#  @#\n#####\n";

/// A box beside its goal, with the player behind it.
pub(crate) const HALL: &[u8] = b"######\n#.$  #\n#    #\n#   @#\n######\n";

/// Two boxes, one on each side of the player.
pub(crate) const TWO_ENDS: &[u8] = b"#######\n#.$@$.#\n#######\n";

/// A box that comes back to its first square, with the player on its other side.
pub(crate) const THERE_AND_BACK: &[u8] = b"8#|4#3-#|#.@$3-#|4#3-#|8#\n";

/// Two boxes side by side, with their goals beyond.
pub(crate) const BLOCKED: &[u8] =
    b"#######\n#     #\n#     #\n#@$$..#\n#     #\n#     #\n#######\n";

/// A box that the player does not reach.
pub(crate) const APART: &[u8] = b"########\n#@ # $.#\n########\n";
