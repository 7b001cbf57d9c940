//! The bound by the player's side and a matching of boxes with goals, compared with a slow search.
ghost use Rattle.std.specs.Prelude.{◌≡◌};
ghost use Rattle.grid.specs.States.{FitsLevel};

use crate::boards::{BoardText, level_of};
use doom::Bound;
use grid::{Dir, Level, MAX_BOXES, Position, Square};
use prices::laws::{a_first_push_leads_on, costs_tell_what_never_helps, needs_are_bounds};
use prices::{Distances, Matching, NEVER, Slack};
use std::alloc::Global;
use std::process::Abort;

/// No play ends solved.
pub(crate) const LOST: u64 = u64::MAX;

// the player cannot reach the other side of the box
const WRONG_SIDE: BoardText = (6, b"#######.@$ #######");

// the same with a way round
const WAY_ROUND: BoardText = (6, b"#######    ##.@$ ##    #######");

// each box reaches only the goal on the left
const ONE_GOAL_FOR_TWO: BoardText = (9, b"##########.$ $@ .##########");

const TWO_ROOMS: BoardText = (8, b"#########. @ $.####  $##########");

const TWO_BOXES: BoardText = (6, b"#######    ##@$$ ## .. #######");

const THREE_BOXES: BoardText = (5, b"######@  ##$$$##...######");

const LONG_HALL: BoardText = (10, b"###########. $ @$ .##### ########  ###############");

// rooms that the box cuts at many squares
const DOORS: BoardText = (
    10,
    b"###########    #   ## @$   . ##    #   ##### ##  ##        ###########",
);

fn distances_of(rt: &impl Abort, alloc: Global, level: &Level) -> Distances
    ensures { result.level ≡ level.now }
{
    assert!(rt; level.boxes() <= MAX_BOXES);
    Distances::of(alloc, level).expect(rt, "memory")
}

#[test]
fn what_no_matching_brings_home_is_lost(rt: HostRuntime) {
    for (board, is_lost) in [
        (WRONG_SIDE, true),
        (ONE_GOAL_FOR_TWO, true),
        (WAY_ROUND, false),
    ] {
        let level = level_of(&rt, rt.alloc(), board);
        let distances = distances_of(&rt, rt.alloc(), &level);
        let position = Position::start(&level).expect(&rt, "few boxes");
        assert!(&rt; position.fits(&level));
        let mut matching = Matching::new();
        distances.meet(&position, &mut matching);
        assert!(&rt; distances.is_lost(&position, &matching) == is_lost);
    }
}

/// All positions of a level with at most three boxes, in the order of their squares.
pub(crate) fn all_positions(rt: &impl Abort, alloc: Global, level: &Level) -> Vec<Position> {
    let mut found = Vec::new(alloc);
    let last = u16::try_from(level.squares()).unwrap_or(u16::MAX);
    for first in 0..last {
        if level.boxes() == 1 {
            add_players(rt, level, &[Square(first)], &mut found);
            continue;
        }
        for second in first..last {
            if level.boxes() == 2 {
                add_players(rt, level, &[Square(first), Square(second)], &mut found);
                continue;
            }
            for third in second..last {
                let boxes = [Square(first), Square(second), Square(third)];
                add_players(rt, level, &boxes, &mut found);
            }
        }
    }
    found
}

// Adds the positions with these boxes.
fn add_players(rt: &impl Abort, level: &Level, boxes: &[Square], found: &mut Vec<Position>) {
    if boxes.iter().any(|square| level.is_wall(*square)) {
        return;
    }
    let last = u16::try_from(level.squares()).unwrap_or(u16::MAX);
    for index in 0..last {
        if let Some(position) = Position::of(boxes, Square(index)) {
            if position.fits(level) {
                found.push(position).expect(rt, "memory");
            }
        }
    }
}

// The position after a step in a direction by the rules, and whether it pushes; `None` if the step is not possible.
fn stepped(
    rt: &impl Abort,
    level: &Level,
    position: &Position,
    dir: Dir,
) -> Option<(Position, bool)> {
    assert!(rt; usize::from(position.player().0) < level.squares());
    let ahead = level.next(position.player(), dir);
    assert!(rt; usize::from(ahead.0) < level.squares());
    if level.is_wall(ahead) {
        return None;
    }
    let mut after = position.copy();
    if !position.contains(ahead) {
        after.set_player(ahead);
        return Some((after, false));
    }
    let beyond = level.next(ahead, dir);
    if level.is_wall(beyond) || position.contains(beyond) {
        return None;
    }
    after.push(ahead, beyond);
    Some((after, true))
}

// The steps that each position allows: the index of the position that each leads to, and its pushes.
fn steps_of(
    rt: &impl Abort,
    alloc: Global,
    level: &Level,
    positions: &[Position],
) -> Vec<(usize, usize, u64)> {
    let mut steps = Vec::new(alloc);
    for (place, position) in positions.iter().enumerate() {
        for dir in Dir::ALL {
            if let Some((after, pushed)) = stepped(rt, level, position, dir) {
                let to = positions.iter().position(|other| *other == after);
                let step = (place, to.expect(rt, "a position"), u64::from(pushed));
                steps.push(step).expect(rt, "memory");
            }
        }
    }
    steps
}

fn is_solved(level: &Level, position: &Position) -> bool {
    position.boxes().iter().all(|square| level.is_goal(*square))
}

// Lowers the value of each position to the least sum of the pushes of a step and the value of the position that it
// leads to. Returns whether a value changed.
fn lower_each(rt: &impl Abort, steps: &[(usize, usize, u64)], least: &mut [u64]) -> bool {
    let mut changed = false;
    for (from, to, pushes) in steps {
        assert!(rt; *from < least.len());
        assert!(rt; *to < least.len());
        let through = least[*to].saturating_add(*pushes);
        if through < least[*from] {
            least[*from] = through;
            changed = true;
        }
    }
    changed
}

/// The least pushes with which a play from each position ends solved, by the rules alone. The shortest of these plays
/// have fewer steps than there are positions.
pub(crate) fn least_pushes(
    rt: &impl Abort,
    alloc: Global,
    level: &Level,
    positions: &[Position],
) -> Vec<u64> {
    let steps = steps_of(rt, alloc, level, positions);
    let mut least = Vec::new(alloc);
    for position in positions {
        let pushes = if is_solved(level, position) { 0 } else { LOST };
        least.push(pushes).expect(rt, "memory");
    }
    for _ in positions {
        if !lower_each(rt, steps.as_slice(), least.as_mut_slice()) {
            break;
        }
    }
    least
}

#[test]
fn the_bound_is_between_that_of_lone_squares_and_the_fewest_pushes(rt: HostRuntime) {
    let boards = [
        WRONG_SIDE,
        WAY_ROUND,
        TWO_ROOMS,
        TWO_BOXES,
        THREE_BOXES,
        LONG_HALL,
        ONE_GOAL_FOR_TWO,
    ];
    for (row, board) in boards.into_iter().enumerate() {
        let level = level_of(&rt, rt.alloc(), board);
        compare_all(&rt, rt.alloc(), &level, row);
    }
}

// Compares the bound of each position of a level with the slow search and with the bound of `doom`. All share one
// matching.
fn compare_all(rt: &impl Abort, alloc: Global, level: &Level, row: usize) {
    let positions = all_positions(rt, alloc, level);
    let least = least_pushes(rt, alloc, level, positions.as_slice());
    let distances = distances_of(rt, alloc, level);
    let bound = Bound::of(alloc, level).expect(rt, "memory");
    let mut matching = Matching::new();
    for (place, position) in positions.as_slice().iter().enumerate() {
        assert!(rt; position.fits(level));
        assert!(rt; place < least.len());
        let low = distances.lower(position, &mut matching);
        let alone = match bound.lower(position) {
            Some(pushes) => u64::from(pushes),
            None => u64::from(NEVER),
        };
        assert!(rt;
            low <= least[place],
            "row {row}, place {place}: {low} is too great"
        );
        assert!(rt;
            alone <= low,
            "row {row}, place {place}: {low} is too small"
        );
        let fresh = distances.lower(position, &mut Matching::new());
        assert_eq!(rt; low, fresh, "row {row}, place {place}");
    }
}

#[test]
fn of_one_box_the_bound_is_the_fewest_pushes(rt: HostRuntime) {
    for (row, board) in [WRONG_SIDE, WAY_ROUND, DOORS].into_iter().enumerate() {
        let level = level_of(&rt, rt.alloc(), board);
        compare_one(&rt, rt.alloc(), &level, row);
    }
}

// Compares the bound of each position of a level with one box with the slow search.
fn compare_one(rt: &impl Abort, alloc: Global, level: &Level, row: usize) {
    let positions = all_positions(rt, alloc, level);
    let least = least_pushes(rt, alloc, level, positions.as_slice());
    let distances = distances_of(rt, alloc, level);
    let mut matching = Matching::new();
    for (place, position) in positions.as_slice().iter().enumerate() {
        assert!(rt; position.fits(level));
        assert!(rt; place < least.len());
        let low = distances.lower(position, &mut matching);
        let pushes = least[place].min(u64::from(NEVER));
        assert_eq!(rt; low, pushes, "row {row}, place {place}");
    }
}

#[test]
fn of_one_box_the_least_of_a_push_is_the_fewest_pushes(rt: HostRuntime) {
    for (row, board) in [WRONG_SIDE, WAY_ROUND, DOORS].into_iter().enumerate() {
        let level = level_of(&rt, rt.alloc(), board);
        compare_pushes(&rt, rt.alloc(), &level, row);
    }
}

// Compares what each push of a level's one box needs with the slow search.
fn compare_pushes(rt: &impl Abort, alloc: Global, level: &Level, row: usize) {
    let positions = all_positions(rt, alloc, level);
    let fewest = least_pushes(rt, alloc, level, positions.as_slice());
    let distances = distances_of(rt, alloc, level);
    for (place, position) in positions.as_slice().iter().enumerate() {
        assert!(rt; position.fits(level));
        let mut matching = Matching::new();
        distances.meet(position, &mut matching);
        let slack = Slack::of(&distances, position, None, &matching);
        for square in position.boxes() {
            assert!(rt; position.contains(*square));
            for dir in Dir::ALL {
                let after = pushed_alone(rt, level, *square, dir);
                if let Some(to) = positions
                    .iter()
                    .position(|other| Some(other) == after.as_ref())
                {
                    assert!(rt; to < fewest.len());
                    let want = fewest[to].saturating_add(1).min(u64::from(NEVER));
                    let least = slack.least(*square, dir).min(u64::from(NEVER));
                    assert_eq!(rt; least, want, "row {row}, place {place}");
                }
            }
        }
    }
}

// The position after a push of the only box.
fn pushed_alone(rt: &impl Abort, level: &Level, square: Square, dir: Dir) -> Option<Position> {
    assert!(rt; usize::from(square.0) < level.squares());
    Position::of(&[level.next(square, dir)], square)
}

#[test]
fn laws_can_be_called(rt: HostRuntime) {
    let level = level_of(&rt, rt.alloc(), WAY_ROUND);
    a_first_push_leads_on(&level);
    needs_are_bounds(&level);
    costs_tell_what_never_helps(&level);
    corrals::laws::corrals_suffice(&level);
    prover::laws::open_positions_tell(&level);
    prover::laws::solutions_are_alike(&level);
}
