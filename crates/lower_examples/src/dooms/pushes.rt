//! The freeze tests after a push.
ghost use Rattle.std.specs.Prelude.{◌≡◌, length};

use super::{
    ABOVE_A_FREE_BOX, BESIDE_A_FREE_BOX, COLUMN_AT_WALL, DEAD_ELSEWHERE, THERE_AND_BACK,
    THREE_BEFORE, THREE_FREE, THREE_FROZEN, TWO_ENDS,
};
use crate::boards::{BoardText, level_of};
use area::Scratch;
use doom::{Dangers, Dead, doomed, doomed_after};
use grid::{Dir, Level, Position, Push, Square};
use std::alloc::Global;
use std::process::Abort;

#[test]
fn the_group_of_a_pushed_box_freezes_or_any_box_is_doomed(rt: HostRuntime) {
    let rows = [
        (THREE_FROZEN, Dir::L, (true, true)),
        (THREE_FREE, Dir::R, (false, false)),
        (DEAD_ELSEWHERE, Dir::R, (false, true)),
    ];
    for (row, (board, dir, want)) in rows.into_iter().enumerate() {
        let level = level_of(&rt, rt.alloc(), board);
        let found = dooms_of_start(&rt, rt.alloc(), &level, dir);
        assert_eq!(&rt; found, want, "row {row}");
    }
}

// The answers of `doomed_after` and `doomed` for the start of a level, if a push from square 17 leads there.
fn dooms_of_start(rt: &impl Abort, alloc: Global, level: &Level, dir: Dir) -> (bool, bool) {
    let dead = Dead::of(alloc, level).expect(rt, "memory");
    let mut scratch = Scratch::new(alloc, level).expect(rt, "memory");
    let position = Position::start(level).expect(rt, "few boxes");
    dooms_of(rt, level, &dead, &position, dir, &mut scratch)
}

// `dooms_of_start` for any position.
fn dooms_of(
    rt: &impl Abort,
    level: &Level,
    dead: &Dead,
    position: &Position,
    dir: Dir,
    scratch: &mut Scratch,
) -> (bool, bool)
    requires dead_of_level { dead.now ≡ level.now }
    requires room { scratch.old.size ≡ length level.now.cells }
{
    let square = Square(17);
    assert!(rt; position.fits(level));
    assert!(rt; 17 < level.squares());
    assert!(rt; position.contains(level.next(square, dir)));
    let group = doomed_after(level, dead, position, Push { square, dir }, scratch);
    (group, doomed(level, dead, position, scratch))
}

// The position after a push.
pub(crate) fn pushed(
    rt: &impl Abort,
    before: &Position,
    square: Square,
    ahead: Square,
) -> Position {
    assert!(rt; before.contains(square));
    assert!(rt; !before.contains(ahead));
    let mut after = before.copy();
    after.push(square, ahead);
    after
}

// Whether a push from a position dooms it by `doomed_after`, and whether `Dangers` spares the push.
pub(crate) fn verdicts(
    rt: &impl Abort,
    alloc: Global,
    level: &Level,
    dead: &Dead,
    before: &Position,
    push: Push,
) -> (bool, bool)
    requires dead_of_level { dead.now ≡ level.now }
{
    let Push { square, dir } = push;
    assert!(rt; before.fits(level));
    assert!(rt; usize::from(square.0) < level.squares());
    let ahead = level.next(square, dir);
    let mut scratch = Scratch::new(alloc, level).expect(rt, "memory");
    area::flood(level, before, &mut scratch);
    let mut dangers = Dangers::unknown();
    dangers.find(level, dead, &scratch);
    let spared = dangers.spare(ahead, dir);
    let after = pushed(rt, before, square, ahead);
    assert!(rt; after.fits(level));
    assert!(rt; after.contains(ahead));
    let dooms = doomed_after(level, dead, &after, Push { square, dir }, &mut scratch);
    (dooms, spared)
}

// `verdicts` for a push from the start of a board.
fn verdicts_at_start(
    rt: &impl Abort,
    alloc: Global,
    board: BoardText,
    square: u16,
    dir: Dir,
) -> (bool, bool) {
    let level = level_of(rt, alloc, board);
    let dead = Dead::of(alloc, &level).expect(rt, "memory");
    let start = Position::start(&level).expect(rt, "few boxes");
    let square = Square(square);
    verdicts(rt, alloc, &level, &dead, &start, Push { square, dir })
}

#[test]
fn a_push_freezes_three_boxes_or_none(rt: HostRuntime) {
    for (dir, want) in [(Dir::L, true), (Dir::R, false)] {
        let (dooms, _) = verdicts_at_start(&rt, rt.alloc(), THREE_BEFORE, 17, dir);
        assert_eq!(&rt; dooms, want);
    }
}

#[test]
fn pushed_boxes_are_spared_or_not(rt: HostRuntime) {
    let rows = [
        (TWO_ENDS, 9, Dir::L, false),
        (COLUMN_AT_WALL, 11, Dir::R, true),
        (BESIDE_A_FREE_BOX, 17, Dir::D, true),
        (BESIDE_A_FREE_BOX, 18, Dir::R, false),
        (ABOVE_A_FREE_BOX, 17, Dir::U, true),
        (ABOVE_A_FREE_BOX, 22, Dir::D, false),
        (THERE_AND_BACK, 19, Dir::R, true),
    ];
    for (row, (board, square, dir, want)) in rows.into_iter().enumerate() {
        let (_, spared) = verdicts_at_start(&rt, rt.alloc(), board, square, dir);
        assert_eq!(&rt; spared, want, "row {row}");
    }
}
