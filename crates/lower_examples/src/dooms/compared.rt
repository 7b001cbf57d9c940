//! Each push of small boards, compared with the definitions.
ghost use Rattle.std.specs.Prelude.{◌≡◌};

use super::pushes::{pushed, verdicts};
use super::{
    ABOVE_A_FREE_BOX, BESIDE_A_FREE_BOX, BETWEEN_DEAD, COLUMN_AT_WALL, DEAD_ROWS, THERE_AND_BACK,
    THREE_BEFORE, TWO_ENDS,
};
use crate::boards::level_below;
use doom::Dead;
use grid::{Dir, Level, Position, Push, Square};
use std::alloc::Global;
use std::process::Abort;

// The square beside one, or the square itself outside the grid.
fn beside(level: &Level, square: Square, dir: Dir) -> Square {
    if usize::from(square.0) < level.squares() {
        level.next(square, dir)
    } else {
        square
    }
}

// Whether a wall, a member or two dead squares hold a box on the axis of the direction.
fn is_held(level: &Level, dead: &Dead, members: &[Square], square: Square, dir: Dir) -> bool {
    let ahead = beside(level, square, dir);
    let behind = beside(level, square, dir.opposite());
    level.is_wall(ahead)
        || level.is_wall(behind)
        || members.contains(&ahead)
        || members.contains(&behind)
        || (dead.is_dead(ahead) && dead.is_dead(behind))
}

// Whether a box is held on both axes.
fn is_held_twice(level: &Level, dead: &Dead, members: &[Square], square: Square) -> bool {
    is_held(level, dead, members, square, Dir::R) && is_held(level, dead, members, square, Dir::D)
}

// The members that are held on both axes.
fn held_among(
    rt: &impl Abort,
    alloc: Global,
    level: &Level,
    dead: &Dead,
    members: &[Square],
) -> Vec<Square> {
    let mut held = Vec::new(alloc);
    for square in members {
        if is_held_twice(level, dead, members, *square) {
            held.push(*square).expect(rt, "memory");
        }
    }
    held
}

// The boxes that are in a group or beside one of its boxes.
fn joined(
    rt: &impl Abort,
    alloc: Global,
    level: &Level,
    boxes: &[Square],
    group: &[Square],
) -> Vec<Square> {
    let mut joined = Vec::new(alloc);
    for square in boxes {
        let mut is_joined = group.contains(square);
        for dir in Dir::ALL {
            is_joined |= group.contains(&beside(level, *square, dir));
        }
        if is_joined {
            joined.push(*square).expect(rt, "memory");
        }
    }
    joined
}

// Whether some boxes connected to the one on the square, at least one of them off goal, are frozen, by the definition.
fn is_group_frozen(
    rt: &impl Abort,
    alloc: Global,
    level: &Level,
    dead: &Dead,
    boxes: &[Square],
    square: Square,
) -> bool {
    let mut members = joined(rt, alloc, level, boxes, &[square]);
    for _ in boxes {
        members = joined(rt, alloc, level, boxes, members.as_slice());
    }
    for _ in boxes {
        members = held_among(rt, alloc, level, dead, members.as_slice());
    }
    !members
        .as_slice()
        .iter()
        .all(|member| level.is_goal(*member))
}

// The position before a push, with the player behind the box; `None` if the push is not possible.
fn before_push(level: &Level, boxes: &[Square], push: Push) -> Option<Position> {
    let Push { square, dir } = push;
    let ahead = beside(level, square, dir);
    if level.is_wall(ahead) || boxes.contains(&ahead) {
        return None;
    }
    let before = Position::of(boxes, beside(level, square, dir.opposite()))?;
    if before.fits(level) {
        Some(before)
    } else {
        None
    }
}

// Compares the verdicts on a push with the definitions, if the push is possible.
fn compare_push(
    rt: &impl Abort,
    alloc: Global,
    level: &Level,
    dead: &Dead,
    boxes: &[Square],
    push: Push,
)
    requires dead_of_level { dead.now ≡ level.now }
{
    let Push { square, dir } = push;
    let Some(before) = before_push(level, boxes, Push { square, dir }) else {
        return;
    };
    let ahead = beside(level, square, dir);
    let after = pushed(rt, &before, square, ahead);
    let is_dead = dead.is_dead(ahead);
    let slow = is_dead || is_group_frozen(rt, alloc, level, dead, after.boxes(), ahead);
    let (fast, spared) = verdicts(rt, alloc, level, dead, &before, Push { square, dir });
    let from = square.0;
    assert_eq!(rt; fast, slow, "a push from {from}");
    if !is_dead {
        let is_loose = !is_held_twice(level, dead, after.boxes(), ahead);
        assert_eq!(rt; spared, ahead.0 < 256 && is_loose, "a push from {from}");
    }
}

// Compares all pushes of boxes on these squares.
fn compare_boxes(rt: &impl Abort, alloc: Global, level: &Level, dead: &Dead, boxes: &[Square])
    requires dead_of_level { dead.now ≡ level.now }
{
    for square in boxes {
        for dir in Dir::ALL {
            let square = *square;
            compare_push(rt, alloc, level, dead, boxes, Push { square, dir });
        }
    }
}

// Compares all pushes of a level's boxes, at most three, from each choice of squares.
fn compare_level(rt: &impl Abort, alloc: Global, level: &Level, dead: &Dead, floor: &[Square])
    requires dead_of_level { dead.now ≡ level.now }
{
    for first in floor {
        if level.boxes() == 1 {
            compare_boxes(rt, alloc, level, dead, &[*first]);
            continue;
        }
        for second in floor {
            if level.boxes() == 2 {
                compare_boxes(rt, alloc, level, dead, &[*first, *second]);
                continue;
            }
            for third in floor {
                compare_boxes(rt, alloc, level, dead, &[*first, *second, *third]);
            }
        }
    }
}

// The squares of a level that are not walls.
fn floor_of(rt: &impl Abort, alloc: Global, level: &Level) -> Vec<Square> {
    let mut floor = Vec::new(alloc);
    let last = u16::try_from(level.squares()).unwrap_or(u16::MAX);
    for index in 0..last {
        if !level.is_wall(Square(index)) {
            floor.push(Square(index)).expect(rt, "memory");
        }
    }
    floor
}

// With the rows above it, each board has one to seven words of squares.
#[test]
fn each_push_has_the_verdict_of_the_definitions(rt: HostRuntime) {
    let boards = [
        THREE_BEFORE,
        TWO_ENDS,
        COLUMN_AT_WALL,
        BESIDE_A_FREE_BOX,
        ABOVE_A_FREE_BOX,
        THERE_AND_BACK,
        BETWEEN_DEAD,
        DEAD_ROWS,
    ];
    for board in boards {
        for rows in [0, 8, 17, 26, 35, 44] {
            let level = level_below(&rt, rt.alloc(), board, rows);
            let dead = Dead::of(rt.alloc(), &level).expect(&rt, "memory");
            let floor = floor_of(&rt, rt.alloc(), &level);
            compare_level(&rt, rt.alloc(), &level, &dead, floor.as_slice());
        }
    }
}
