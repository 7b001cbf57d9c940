//! Collections, read board by board, and levels made of boards.
use super::{Shape, shape};
use crate::boards::cells_of;
use grid::{Board, Level, LevelFault, Square};
use std::alloc::Global;
use std::process::Abort;
use xsb::{BoardEntry, Collection, Entry};

const BOARDS: &[u8] = b"; one\n#####\n#@$.#\n#####\n\n####\n#@$.\n####\nTitle: two\n";

// A hall of five columns: the player, a box and a goal between walls.
const HALL: &[u8] = b"######@$.######";

fn board_shape(entry: &BoardEntry) -> Shape {
    match &entry.board {
        Ok(board) => Ok((board.rows(), board.cols(), board.boxes())),
        Err(fault) => Err(*fault),
    }
}

fn is_board(rt: &impl Abort, board: &BoardEntry, name: &[u8], first_line: u32, wanted: Shape) {
    assert!(rt; board.name.as_slice() == name);
    assert_eq!(rt; board.first_line, first_line);
    assert_eq!(rt; board_shape(board), wanted);
}

fn is_entry(rt: &impl Abort, entry: &Entry, name: &[u8], first_line: u32, wanted: Shape) {
    assert!(rt; entry.name.as_slice() == name);
    assert_eq!(rt; entry.first_line, first_line);
    assert_eq!(rt; shape(entry), wanted);
}

fn next_of(rt: &impl Abort, alloc: Global, collection: &mut Collection<'_>) -> BoardEntry {
    let next = collection.next_board(alloc).expect(rt, "memory");
    next.expect(rt, "a board")
}

#[test]
fn boards_come_one_by_one(rt: HostRuntime) {
    let mut collection = Collection::of(BOARDS).expect(&rt, "a collection");
    let one = next_of(&rt, rt.alloc(), &mut collection);
    is_board(&rt, &one, b"one", 2, Ok((3, 5, 1)));
    let two = next_of(&rt, rt.alloc(), &mut collection);
    is_board(&rt, &two, b"two", 6, Err(LevelFault::Open));
    let none = collection.next_board(rt.alloc()).expect(&rt, "memory");
    assert!(&rt; none.is_none());
}

#[test]
fn entries_are_made_of_boards(rt: HostRuntime) {
    let mut collection = Collection::of(BOARDS).expect(&rt, "a collection");
    let one = next_of(&rt, rt.alloc(), &mut collection);
    let entry = one.into_entry(rt.alloc()).expect(&rt, "memory");
    is_entry(&rt, &entry, b"one", 2, Ok((3, 5, 1)));
    let two = next_of(&rt, rt.alloc(), &mut collection);
    let other = two.into_entry(rt.alloc()).expect(&rt, "memory");
    is_entry(&rt, &other, b"two", 6, Err(LevelFault::Open));
}

fn hall(rt: &impl Abort, alloc: Global) -> Board {
    let cells = cells_of(rt, alloc, HALL);
    assert!(rt; cells.len() % 5 == 0);
    Board::from_cells(alloc, 5, cells).expect(rt, "a board")
}

#[test]
fn levels_are_made_of_boards(rt: HostRuntime) {
    let board = hall(&rt, rt.alloc());
    assert_eq!(&rt; (board.rows(), board.cols(), board.boxes()), (3, 5, 1));
    let level = Level::of_board(rt.alloc(), board).expect(&rt, "memory");
    assert_eq!(&rt; (level.rows(), level.cols(), level.boxes()), (3, 5, 1));
    assert_eq!(&rt; level.player(), Square(6));
}

#[test]
fn levels_are_copied_and_compared(rt: HostRuntime) {
    let level = Level::of_board(rt.alloc(), hall(&rt, rt.alloc())).expect(&rt, "memory");
    let copy = level.copy().expect(&rt, "memory");
    assert!(&rt; copy == level);
    let mut cells = cells_of(&rt, rt.alloc(), HALL);
    cells.as_mut_slice().reverse();
    assert!(rt; cells.len() % 5 == 0);
    let other = Level::from_cells(rt.alloc(), 5, cells).expect(&rt, "a level");
    assert!(&rt; copy != other);
    assert!(&rt; level.in_room(Square(8)) && !level.in_room(Square(9)));
}
