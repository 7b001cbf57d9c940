//! Reports on a board of the greatest size, and on the longest name.
use super::{Command, WELL, run};
use grid::{MAX_COLS, MAX_ROWS};
use std::alloc::Global;
use std::process::Abort;
use std::sync::Wait;
use std::thread::Threads;
use xsb::MAX_FILE;

/// A row of the greatest length: its left end, what is repeated inside, and its right end.
type Row = (&'static [u8], u8, &'static [u8]);

/// A row of walls.
const WALLS: Row = (b"#", b'#', b"#");

/// A row of floor between walls.
const FLOOR: Row = (b"#", b' ', b"#");

// Appends a row.
fn push_row(rt: &impl Abort, text: &mut Vec<u8>, row: Row) {
    let (left, inside, right) = row;
    text.extend_from_slice(left).expect(rt, "memory");
    for _ in left.len().saturating_add(right.len())..MAX_COLS {
        text.push(inside).expect(rt, "memory");
    }
    text.extend_from_slice(right).expect(rt, "memory");
    text.push(b'\n').expect(rt, "memory");
}

// The text of the greatest number of rows: walls, the first row inside, rows like `middle`, the last one, and walls.
fn board(rt: &impl Abort, alloc: Global, first: Row, middle: Row, last: Row) -> Vec<u8> {
    let mut text = Vec::new(alloc);
    push_row(rt, &mut text, WALLS);
    push_row(rt, &mut text, first);
    for _ in 2..MAX_ROWS - 2 {
        push_row(rt, &mut text, middle);
    }
    push_row(rt, &mut text, last);
    push_row(rt, &mut text, WALLS);
    text
}

#[test]
fn a_board_of_the_greatest_size_is_reported(rt: HostRuntime) {
    let file = board(&rt, rt.alloc(), (b"#@$.", b' ', b"#"), FLOOR, FLOOR);
    let dead = board(
        &rt,
        rt.alloc(),
        (b"#x .", b' ', b"x#"),
        (b"#x", b' ', b"x#"),
        (b"#", b'x', b"#"),
    );
    check(
        &rt,
        rt.alloc(),
        &file,
        Command::Check,
        b"1 line 1 ok 255x255 1 boxes\n1 levels, 1 good\n",
    );
    check(&rt, rt.alloc(), &file, Command::Show(1), &file);
    check(&rt, rt.alloc(), &file, Command::Dead(1), &dead);
    check(
        &rt,
        rt.alloc(),
        &file,
        Command::Replay(1, b"R"),
        b"solved 1 pushes, 1 moves\n",
    );
    check(
        &rt,
        rt.alloc(),
        &file,
        Command::Solve(1, 1, 1),
        b"solved 1 pushes, 1 moves, 2 positions\nR\n",
    );
}

// Checks the report of a command on a file.
fn check(
    rt: &(impl Abort + Threads + Wait + Sync),
    alloc: Global,
    file: &[u8],
    command: Command<'_>,
    report: &[u8],
) {
    run(rt, alloc, file, command, WELL).is(rt, report, 0);
}

// A text that repeats a byte.
fn repeated(rt: &impl Abort, alloc: Global, byte: u8, times: usize) -> Vec<u8> {
    let mut text = Vec::new(alloc);
    for _ in 0..times {
        text.push(byte).expect(rt, "memory");
    }
    text
}

#[test]
fn the_longest_name_is_reported(rt: HostRuntime) {
    // `;`, the name, a line feed, and a row line of 11 bytes
    let name = repeated(&rt, rt.alloc(), b'n', MAX_FILE - 13);
    let file = framed(&rt, rt.alloc(), b";", &name, b"\n5#|#@$.#|5#");
    assert_eq!(&rt; file.len(), MAX_FILE);
    let report = framed(
        &rt,
        rt.alloc(),
        b"1 line 2 ok 3x5 1 boxes ",
        &name,
        b"\n1 levels, 1 good\n",
    );
    check(&rt, rt.alloc(), &file, Command::Check, &report);
}

// A name with a text before it and one after it.
fn framed(rt: &impl Abort, alloc: Global, before: &[u8], name: &[u8], after: &[u8]) -> Vec<u8> {
    let mut text = Vec::new(alloc);
    text.extend_from_slice(before).expect(rt, "memory");
    text.extend_from_slice(name).expect(rt, "memory");
    text.extend_from_slice(after).expect(rt, "memory");
    text
}
