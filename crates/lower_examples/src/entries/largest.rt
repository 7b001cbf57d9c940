//! Boards of the greatest size and one beyond, and the longest name.
use super::{Shape, only, shape, shape_of};
use crate::boards::{cells_of, walled};
use grid::{Level, LevelFault, MAX_COLS, MAX_ROWS, Square, State};
use std::alloc::Global;
use std::process::Abort;
use std::test::Fail;
use xsb::{MAX_FILE, write};

// A board: its numbers of rows and columns, what is inside its walls, and the squares that differ.
type Walled = (usize, usize, u8, &'static [(usize, u8)]);

// The last square inside the walls of a board of the greatest size.
const LAST: usize = (MAX_ROWS - 1) * MAX_COLS - 2;

// The greatest number of boxes.
const MOST: usize = (MAX_ROWS - 2) * (MAX_COLS - 2) - 1;

const LAWFUL: Walled = (
    MAX_ROWS,
    MAX_COLS,
    b' ',
    &[(256, b'@'), (257, b'$'), (258, b'.')],
);

const FULL: Walled = (MAX_ROWS, MAX_COLS, b'*', &[(256, b'@')]);

// The cells of a board, row after row.
fn bytes_of(rt: &impl Abort, alloc: Global, board: Walled) -> Vec<u8> {
    let (rows, cols, inside, changed) = board;
    walled(rt, alloc, rows, cols, inside, changed)
}

// The level of a board, or its fault.
fn judged(rt: &impl Abort, alloc: Global, board: Walled) -> Result<Level, LevelFault> {
    let cells = cells_of(rt, alloc, &bytes_of(rt, alloc, board));
    let cols = board.1;
    assert!(rt; cols >= 1);
    assert!(rt; cells.len() % cols == 0);
    Level::from_cells(alloc, cols, cells)
}

// The text of a board in plain rows.
fn text_of(rt: &impl Abort, alloc: Global, board: Walled) -> Vec<u8> {
    let mut text = Vec::new(alloc);
    let cols = board.1;
    assert!(rt; cols >= 1);
    for (place, byte) in bytes_of(rt, alloc, board).iter().enumerate() {
        text.push(*byte).expect(rt, "memory");
        if place % cols == cols - 1 {
            text.push(b'\n').expect(rt, "memory");
        }
    }
    text
}

#[test]
fn the_largest_boards_are_levels_or_have_a_fault(rt: HostRuntime) -> Result<(), Fail> {
    let counts = |boxes, goals| LevelFault::Counts { boxes, goals };
    let (rows, cols) = (MAX_ROWS, MAX_COLS);
    let cases: [(Walled, Shape); 9] = [
        (LAWFUL, Ok((rows, cols, 1))),
        (FULL, Ok((rows, cols, MOST))),
        ((rows + 1, cols, b'#', &[]), Err(LevelFault::TooTall)),
        ((rows, cols + 1, b'#', &[]), Err(LevelFault::TooWide)),
        ((rows, cols, b'*', &[]), Err(LevelFault::NoPlayer)),
        (
            (rows, cols, b'*', &[(256, b'@'), (LAST, b'@')]),
            Err(LevelFault::TwoPlayers),
        ),
        ((rows, cols, b'.', &[(LAST, b'@')]), Err(LevelFault::NoBox)),
        ((rows, cols, b'$', &[(LAST, b'@')]), Err(counts(MOST, 0))),
        (
            (rows, cols, b'*', &[(256, b'@'), (LAST + MAX_COLS, b'_')]),
            Err(LevelFault::Open),
        ),
    ];
    for (case, (board, want)) in cases.into_iter().enumerate() {
        let text = text_of(&rt, rt.alloc(), board);
        assert_eq!(&rt; shape(&only(rt.alloc(), &text)?), want, "case {case}");
        assert_eq!(&rt;
            shape_of(&judged(&rt, rt.alloc(), board)),
            want,
            "case {case}"
        );
    }
    Ok(())
}

#[test]
fn the_largest_levels_are_copied_and_written(rt: HostRuntime) {
    for (board, is_solved) in [(LAWFUL, false), (FULL, true)] {
        let level = judged(&rt, rt.alloc(), board).expect(&rt, "a level");
        let text = text_of(&rt, rt.alloc(), board);
        check_level(&rt, rt.alloc(), &level, &text, is_solved);
    }
}

// Checks that a level is equal to its copy, is written as this text, and begins solved or not.
fn check_level(rt: &impl Abort, alloc: Global, level: &Level, text: &[u8], is_solved: bool) {
    let copy = level.copy().expect(rt, "memory");
    assert!(rt; copy == *level);
    let mut out = Vec::new(alloc);
    write(level, &mut out).expect(rt, "memory");
    assert!(rt; out.as_slice() == text);
    let state = State::start(alloc, level).expect(rt, "memory");
    assert_eq!(rt;
        (level.player(), state.is_solved(level)),
        (Square(256), is_solved)
    );
}

// A text that repeats a byte.
fn repeated(alloc: Global, byte: u8, times: usize) -> Result<Vec<u8>, Fail> {
    let mut text = Vec::new(alloc);
    for _ in 0..times {
        text.push(byte)?;
    }
    Ok(text)
}

#[test]
fn the_longest_name_is_read(rt: HostRuntime) -> Result<(), Fail> {
    // `;`, the name, a line feed, and a row line of 11 bytes
    let name = repeated(rt.alloc(), b'n', MAX_FILE - 13)?;
    let mut text = b";".to_vec(rt.alloc())?;
    text.extend_from_slice(&name)?;
    text.extend_from_slice(b"\n5#|#@$.#|5#")?;
    assert_eq!(&rt; text.len(), MAX_FILE);
    let entry = only(rt.alloc(), &text)?;
    assert!(&rt; entry.name.as_slice() == name.as_slice());
    Ok(())
}
