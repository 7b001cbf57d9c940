//! The pushes that a position allows.
ghost use Rattle.std.specs.Prelude.{◌≡◌, length};
ghost use Rattle.grid.specs.States.{FitsLevel};

use super::PAIR;
use crate::boards::{BoardText, level_of};
use area::{Scratch, possible_pushes};
use arrayvec::ArrayVec;
use grid::{Dir, Level, Position, Square};
use std::alloc::Global;
use std::process::Abort;

// A field of two words of squares, with two boxes.
const FIELD: BoardText = (
    10,
    b"###########@$.     ##  $.    ##        ##        ##        ##        ##        ###########",
);

// Whether the position allows exactly these pushes, in this order.
fn allows(
    level: &Level,
    position: &Position,
    scratch: &mut Scratch,
    expected: &[(u16, Dir)],
) -> bool
    requires fits { FitsLevel level.now position.now }
    requires room { scratch.old.size ≡ length level.now.cells }
{
    let mut pushes = ArrayVec::new();
    possible_pushes(level, position, scratch, &mut pushes);
    if pushes.len() != expected.len() {
        return false;
    }
    for (push, (square, dir)) in pushes.iter().zip(expected) {
        if push.square != Square(*square) || push.dir != *dir {
            return false;
        }
    }
    true
}

#[test]
fn boxes_are_pushed_from_reached_squares_onto_free_ones(rt: HostRuntime) {
    let rows: [(BoardText, [u16; 2], u16, &[(u16, Dir)]); 6] = [
        (PAIR, [13, 20], 7, &[(13, Dir::D), (20, Dir::L)]),
        (PAIR, [8, 9], 7, &[]),
        (PAIR, [9, 15], 7, &[(9, Dir::L), (9, Dir::R)]),
        (
            FIELD,
            [12, 63],
            11,
            &[
                (12, Dir::L),
                (12, Dir::R),
                (63, Dir::D),
                (63, Dir::L),
                (63, Dir::R),
                (63, Dir::U),
            ],
        ),
        (
            FIELD,
            [63, 64],
            11,
            &[(63, Dir::D), (63, Dir::U), (64, Dir::D), (64, Dir::U)],
        ),
        (
            FIELD,
            [12, 64],
            11,
            &[
                (12, Dir::L),
                (12, Dir::R),
                (64, Dir::D),
                (64, Dir::L),
                (64, Dir::R),
                (64, Dir::U),
            ],
        ),
    ];
    for (board, boxes, player, expected) in rows {
        let level = level_of(&rt, rt.alloc(), board);
        let [first, second] = boxes;
        let position = Position::of(&[Square(first), Square(second)], Square(player)).expect(
            &rt,
            "a position",
        );
        check_pushes(&rt, rt.alloc(), &level, &position, expected);
    }
}

fn check_pushes(
    rt: &impl Abort,
    alloc: Global,
    level: &Level,
    position: &Position,
    expected: &[(u16, Dir)],
) {
    let mut scratch = Scratch::new(alloc, level).expect(rt, "memory");
    assert!(rt; position.fits(level));
    assert!(rt; allows(level, position, &mut scratch, expected));
}
