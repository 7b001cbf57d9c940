//! Squares that the player reaches, normal positions, walks and possible pushes.
ghost use Rattle.std.specs.Prelude.{◌≡◌, length};
ghost use Rattle.grid.specs.States.{FitsLevel, IsScene};

use crate::boards::{BoardText, level_of};
use area::laws::{
    an_area_has_one_normal_form, each_state_has_one_normal_form, walks_go_both_ways,
    what_boxes_decide_lasts,
};
use area::{Scratch, flood, normal, normalise_after, walk};
use grid::{Dir, Level, Moves, Position, Push, Square, State, Step};
use std::alloc::Global;
use std::process::Abort;

mod maze;
mod pushes;

const HALL: BoardText = (6, b"#######.$  ##    ##   @#######");

const LOOP: BoardText = (8, b"############   ##.@$   #####   #########");

// A corridor with floor outside it, at the left and at the right end of each row.
const ENDS: BoardText = (7, b" #####  #@$.#  ##### ");

// A hall with two boxes.
const PAIR: BoardText = (6, b"#######@   ##$#  ## $..#######");

fn letter_of(dir: Dir) -> u8 {
    match dir {
        Dir::D => b'd',
        Dir::L => b'l',
        Dir::R => b'r',
        Dir::U => b'u',
    }
}

fn is_text(moves: &Moves, text: &[u8]) -> bool {
    let letters = moves.as_slice();
    letters.len() == text.len()
        && letters.iter().zip(text).all(|(letter, byte)| !letter.push
            && letter_of(letter.dir) == *byte)
}

#[test]
fn normal_positions_have_the_least_square_of_the_area(rt: HostRuntime) {
    let rows: [(BoardText, u16, u16, u16); 5] = [
        (HALL, 8, 22, 7),
        (LOOP, 21, 20, 12),
        (LOOP, 19, 18, 17),
        (ENDS, 10, 20, 6),
        (ENDS, 13, 20, 20),
    ];
    for (board, box_square, player, least) in rows {
        let level = level_of(&rt, rt.alloc(), board);
        let position = Position::of(&[Square(box_square)], Square(player)).expect(
            &rt,
            "a position",
        );
        let found = normal_of(&rt, rt.alloc(), &level, &position);
        assert!(&rt; stands(&found, box_square, least));
    }
}

// The normal form of a position.
fn normal_of(rt: &impl Abort, alloc: Global, level: &Level, position: &Position) -> Position {
    let mut scratch = Scratch::new(alloc, level).expect(rt, "memory");
    assert!(rt; position.fits(level));
    normal(level, position, &mut scratch)
}

// Whether a position has one box and the player on these squares.
fn stands(position: &Position, box_square: u16, player: u16) -> bool {
    position.boxes() == [Square(box_square)].as_slice() && position.player() == Square(player)
}

// The normal position after a push from somewhere in the area, by a flood of the position before it; `None` if the
// push is not possible.
fn pushed(level: &Level, position: &Position, push: Push, scratch: &mut Scratch) -> Option<Position>
    requires fits { FitsLevel level.now position.now }
    requires room { scratch.old.size ≡ length level.now.cells }
{
    flood(level, position, scratch);
    if push.square.0 as usize >= level.squares() || !position.contains(push.square) {
        return None;
    }
    let ahead = level.next(push.square, push.dir);
    let behind = level.next(push.square, push.dir.opposite());
    if level.is_wall(ahead) || position.contains(ahead) || !scratch.reaches(behind) {
        return None;
    }
    let mut after = position.copy();
    after.push(push.square, ahead);
    if !after.fits(level) {
        return None;
    }
    normalise_after(level, position, push, &mut after, scratch);
    Some(after)
}

#[test]
fn after_a_push_the_normal_position_is_that_of_a_flood(rt: HostRuntime) {
    let rows: [(BoardText, u16, u16, Dir, u16, u16); 6] = [
        (HALL, 8, 9, Dir::L, 7, 8),
        (HALL, 9, 10, Dir::L, 8, 7),
        (HALL, 9, 7, Dir::R, 10, 7),
        (LOOP, 19, 18, Dir::R, 20, 17),
        (LOOP, 20, 19, Dir::R, 21, 12),
        (ENDS, 13, 6, Dir::D, 20, 6),
    ];
    for (board, from, player, dir, to, least) in rows {
        let level = level_of(&rt, rt.alloc(), board);
        let position = Position::of(&[Square(from)], Square(player)).expect(&rt, "a position");
        let found = pushed_from(&rt, rt.alloc(), &level, &position, Square(from), dir);
        assert!(&rt; stands(&found, to, least));
    }
}

// The normal position after a possible push.
fn pushed_from(
    rt: &impl Abort,
    alloc: Global,
    level: &Level,
    position: &Position,
    square: Square,
    dir: Dir,
) -> Position {
    let mut scratch = Scratch::new(alloc, level).expect(rt, "memory");
    assert!(rt; position.fits(level));
    pushed(level, position, Push { square, dir }, &mut scratch).expect(rt, "a push")
}

#[test]
fn a_flood_stops_at_walls_and_boxes(rt: HostRuntime) {
    let level = level_of(&rt, rt.alloc(), LOOP);
    let position = Position::start(&level).expect(&rt, "a position");
    let mut scratch = Scratch::new(rt.alloc(), &level).expect(&rt, "memory");
    assert!(&rt; position.fits(&level));
    flood(&level, &position, &mut scratch);
    for place in 0..100 {
        assert_eq!(&rt;
            scratch.reaches(Square(place)),
            place == 17 || place == 18,
            "square {place}"
        );
    }
}

#[test]
fn walks_are_the_least_of_the_shortest(rt: HostRuntime) {
    let level = level_of(&rt, rt.alloc(), HALL);
    let state = State::start(rt.alloc(), &level).expect(&rt, "memory");
    let rows: [(u16, bool, &[u8]); 4] = [
        (9, true, b"luu"),
        (22, true, b""),
        (8, false, b""),
        (0, false, b""),
    ];
    for (to, reached, text) in rows {
        let mut scratch = Scratch::new(rt.alloc(), &level).expect(&rt, "memory");
        let mut moves = Moves::new(rt.alloc());
        let found = walk(&level, &state, Square(to), &mut scratch, &mut moves);
        assert_eq!(&rt; found, Ok(reached), "to {to}");
        assert!(&rt; is_text(&moves, text), "to {to}");
    }
}

#[test]
fn walks_begin_where_the_state_has_come_to(rt: HostRuntime) {
    let level = level_of(&rt, rt.alloc(), LOOP);
    let mut state = State::start(rt.alloc(), &level).expect(&rt, "memory");
    assert_eq!(&rt; state.step(&level, Dir::R), Step::Pushed);
    assert_eq!(&rt; state.step(&level, Dir::R), Step::Pushed);
    check_walks(&rt, rt.alloc(), &level, &state);
}

fn check_walks(rt: &impl Abort, alloc: Global, level: &Level, state: &State)
    requires { IsScene level.now state.now }
{
    let mut scratch = Scratch::new(alloc, level).expect(rt, "memory");
    let mut moves = Moves::new(alloc);
    let there = walk(level, state, Square(22), &mut scratch, &mut moves);
    assert_eq!(rt; there, Ok(true));
    assert!(rt; is_text(&moves, b"drru"));
    let box_square = walk(level, state, Square(21), &mut scratch, &mut moves);
    assert_eq!(rt; box_square, Ok(false));
    assert!(rt; is_text(&moves, b"drru"));
}

#[test]
fn laws_can_be_called() {
    walks_go_both_ways();
    what_boxes_decide_lasts();
    each_state_has_one_normal_form();
    an_area_has_one_normal_form();
}
