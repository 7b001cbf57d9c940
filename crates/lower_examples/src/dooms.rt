//! Dead squares, the bound of lone squares, and positions that are doomed.
mod compared;
mod pushes;

use crate::boards::{BoardText, level_of};
use area::Scratch;
use doom::laws::{
    a_loose_box_dooms_nothing, a_push_lessens_the_bound_by_one, doomed_are_lost, solution_is_safe,
};
use doom::{Bound, Dead, doomed};
use grid::{Level, Position, Square};
use std::alloc::Global;
use std::process::Abort;

const PUSH_RIGHT: BoardText = (5, b"######@$.######");

const SOLVED: BoardText = (4, b"#####@*#####");

const CORNER: BoardText = (5, b"######.  ## $ ##  @######");

const TWO_ENDS: BoardText = (7, b"########.$@$.########");

const PAIR_AT_WALL: BoardText = (6, b"#######.$$.##  @ #######");

const COLUMN_AT_WALL: BoardText = (5, b"######.  ##$  ##$ @##.  ######");

const NO_PUSH: BoardText = (8, b"#########@ # $.#########");

const BETWEEN_DEAD: BoardText = (5, b"#######.####$### $ ## @.######");

const DEAD_ROWS: BoardText = (6, b"#######    ## @$.#######");

const BESIDE_A_FREE_BOX: BoardText = (7, b"########  #  ##. $$ ##@  . ########");

const ABOVE_A_FREE_BOX: BoardText = (5, b"###### .@##   ###$ ## $.##   ######");

const THERE_AND_BACK: BoardText = (8, b"############   ##.@$   #####   #########");

const ALL_HOME: BoardText = (
    35,
    b"####################################@********************************####################################",
);

const COLUMN_IN_TWO_WORDS: BoardText = (
    8,
    b"#########.     ##      ##      ##      ##      ##      ##$     ##$ @   ##      ##.     #########",
);

const PAIR_IN_TWO_WORDS: BoardText = (
    10,
    b"###########        ##        ##        ##        ##   @    ##. $$   .###########",
);

const ONE_AFTER_ANOTHER: BoardText = (
    10,
    b"###########        ##        ##        ##  ...   ##        ##  $$    ##   $@   ##        ###########",
);

const THREE_FROZEN: BoardText = (7, b"########@    ###$   ## $$. ## .#. ##     ########");

const THREE_FREE: BoardText = (7, b"########@    ###  $ ## $$. ## .#. ##     ########");

const DEAD_ELSEWHERE: BoardText = (7, b"########@   $###  $ ##  $. ## .#. ##     ########");

const THREE_BEFORE: BoardText = (7, b"########     ### $@ ## $$. ## .#. ##     ########");

#[test]
fn live_squares_are_those_that_reach_a_goal(rt: HostRuntime) {
    let rows: [(BoardText, &[u16]); 6] = [
        (PUSH_RIGHT, &[7, 8]),
        (CORNER, &[6, 7, 11, 12]),
        (TWO_ENDS, &[8, 9, 10, 11, 12]),
        (BETWEEN_DEAD, &[7, 12, 17, 22, 23]),
        (DEAD_ROWS, &[14, 15, 16]),
        (THERE_AND_BACK, &[17, 18, 19, 20, 21]),
    ];
    for (board, live) in rows {
        let level = level_of(&rt, rt.alloc(), board);
        let dead = Dead::of(rt.alloc(), &level).expect(&rt, "memory");
        check_live(&rt, &dead, live);
    }
}

// Checks which of squares 0 to 63 are dead.
fn check_live(rt: &impl Abort, dead: &Dead, live: &[u16]) {
    for index in 0..64 {
        assert_eq!(rt;
            !dead.is_dead(Square(index)),
            live.contains(&index),
            "square {index}"
        );
    }
}

#[test]
fn boxes_need_the_sum_of_their_pushes(rt: HostRuntime) {
    let rows: [(BoardText, &[Square], u16, Option<u32>); 11] = [
        (TWO_ENDS, &[Square(9), Square(11)], 10, Some(2)),
        (TWO_ENDS, &[Square(8), Square(11)], 9, Some(1)),
        (TWO_ENDS, &[Square(9), Square(12)], 10, Some(1)),
        (TWO_ENDS, &[Square(8), Square(12)], 9, Some(0)),
        (TWO_ENDS, &[Square(10), Square(11)], 9, Some(3)),
        (THERE_AND_BACK, &[Square(19)], 17, Some(2)),
        (THERE_AND_BACK, &[Square(20)], 17, Some(3)),
        (THERE_AND_BACK, &[Square(21)], 17, Some(4)),
        (BETWEEN_DEAD, &[Square(12), Square(17)], 22, Some(3)),
        (BETWEEN_DEAD, &[Square(12), Square(18)], 22, None),
        (BETWEEN_DEAD, &[Square(16), Square(17)], 22, None),
    ];
    for (row, (board, boxes, player, pushes)) in rows.into_iter().enumerate() {
        let low = needed(&rt, rt.alloc(), board, boxes, Square(player));
        assert_eq!(&rt; low, pushes, "row {row}");
    }
}

// The lower bound of the board's level with its boxes on these squares.
fn needed(
    rt: &impl Abort,
    alloc: Global,
    board: BoardText,
    boxes: &[Square],
    player: Square,
) -> Option<u32> {
    let level = level_of(rt, alloc, board);
    let bound = Bound::of(alloc, &level).expect(rt, "memory");
    let position = Position::of(boxes, player).expect(rt, "a position");
    assert!(rt; position.fits(&level));
    bound.lower(&position)
}

#[test]
fn starts_are_doomed_or_not(rt: HostRuntime) {
    let rows = [
        (PAIR_AT_WALL, true),
        (COLUMN_AT_WALL, true),
        (BETWEEN_DEAD, true),
        (COLUMN_IN_TWO_WORDS, true),
        (PAIR_IN_TWO_WORDS, true),
        (ONE_AFTER_ANOTHER, false),
        (PUSH_RIGHT, false),
        (SOLVED, false),
        (CORNER, false),
        (TWO_ENDS, false),
        (BESIDE_A_FREE_BOX, false),
        (ABOVE_A_FREE_BOX, false),
        (NO_PUSH, false),
        (THERE_AND_BACK, false),
        (ALL_HOME, false),
    ];
    for (row, (board, want)) in rows.into_iter().enumerate() {
        let level = level_of(&rt, rt.alloc(), board);
        assert_eq!(&rt; is_doomed(&rt, rt.alloc(), &level), want, "row {row}");
    }
}

// Whether the start of a level is doomed.
fn is_doomed(rt: &impl Abort, alloc: Global, level: &Level) -> bool {
    let dead = Dead::of(alloc, level).expect(rt, "memory");
    let mut scratch = Scratch::new(alloc, level).expect(rt, "memory");
    let position = Position::start(level).expect(rt, "few boxes");
    assert!(rt; position.fits(level));
    doomed(level, &dead, &position, &mut scratch)
}

#[test]
fn laws_can_be_called(rt: HostRuntime) {
    let level = level_of(&rt, rt.alloc(), PUSH_RIGHT);
    doomed_are_lost(&level);
    solution_is_safe(&level);
    a_loose_box_dooms_nothing(&level);
    a_push_lessens_the_bound_by_one(&level);
}
