//! Searches of a level on one thread. The numbers of positions are those of the definitions, counted by hand.
use crate::boards::{APART, CORNER, HALL, ONE, SOLVED, THERE_AND_BACK, TWO_ENDS};
use crate::books::{AMPLE, level_of};
use solo::{Answer, SolveFault, solve_alone};
use std::alloc::Global;
use std::process::Abort;

/// Two boxes that are frozen along a wall.
const PAIR: &[u8] = b"######\n#.$$.#\n#  @ #\n######\n";

/// A box between walls, and below it one between dead squares.
const COLUMN: &[u8] = b"#####\n##.##\n##$##\n# $ #\n# @.#\n#####\n";

/// As many boxes as a search takes, all on goals, and one more.
const FULL: &[u8] = b"67#|#@64*#|67#\n";

const TOO_FULL: &[u8] = b"68#|#@65*#|68#\n";

/// An answer, with the numbers of pushes and positions.
#[derive(Clone, Copy, PartialEq, Eq, Debug)]
enum Found {
    Solved(u64, u64),
    Unsolvable(u64),
    NoneWithin(u64),
    Limit,
}

fn found_of(answer: &Answer) -> Found {
    match answer {
        Answer::Solved {
            pushes,
            positions,
            ..
        } => Found::Solved(*pushes, *positions),
        Answer::Unsolvable { positions } => Found::Unsolvable(*positions),
        Answer::NoneWithin { positions } => Found::NoneWithin(*positions),
        Answer::Limit => Found::Limit,
    }
}

fn searched(
    rt: &impl Abort,
    alloc: Global,
    text: &[u8],
    cap: Option<u32>,
    limit: u32,
) -> Result<Found, SolveFault> {
    assert!(rt; limit >= 1);
    let answer = solve_alone(alloc, &level_of(rt, alloc, text), cap, limit)?;
    Ok(found_of(&answer))
}

#[test]
fn a_search_ends_at_its_limit(rt: HostRuntime) {
    let rows: [(&[u8], u32, Found); 12] = [
        (ONE, 2, Found::Solved(1, 2)),
        (ONE, 1, Found::Limit),
        (SOLVED, 1, Found::Solved(0, 1)),
        (CORNER, 4, Found::Solved(2, 4)),
        (CORNER, 3, Found::Limit),
        (HALL, 3, Found::Solved(1, 3)),
        (HALL, 1, Found::Limit),
        (TWO_ENDS, 4, Found::Solved(2, 4)),
        (TWO_ENDS, 3, Found::Limit),
        (THERE_AND_BACK, AMPLE, Found::Solved(6, 7)),
        (APART, 1, Found::Unsolvable(1)),
        (PAIR, 1, Found::Unsolvable(0)),
    ];
    for (row, (text, limit, want)) in rows.into_iter().enumerate() {
        let got = searched(&rt, rt.alloc(), text, None, limit);
        assert_eq!(&rt; got, Ok(want), "row {row}");
    }
}

#[test]
fn no_play_solves_a_level(rt: HostRuntime) {
    for (text, positions) in [(APART, 1), (PAIR, 0), (COLUMN, 0)] {
        let plain = searched(&rt, rt.alloc(), text, None, AMPLE);
        assert_eq!(&rt; plain, Ok(Found::Unsolvable(positions)));
        let capped = searched(&rt, rt.alloc(), text, Some(5), AMPLE);
        assert_eq!(&rt; capped, Ok(Found::NoneWithin(positions)));
    }
}

#[test]
fn a_cap_leaves_pushes_out(rt: HostRuntime) {
    let rows: [(&[u8], u32, u32, Found); 14] = [
        (ONE, 1, AMPLE, Found::Solved(1, 2)),
        (ONE, 0, AMPLE, Found::NoneWithin(0)),
        (SOLVED, 0, AMPLE, Found::Solved(0, 1)),
        (HALL, 1, AMPLE, Found::Solved(1, 2)),
        (HALL, 2, AMPLE, Found::Solved(1, 2)),
        (HALL, 3, AMPLE, Found::Solved(1, 3)),
        (HALL, 1, 2, Found::Solved(1, 2)),
        (HALL, 1, 1, Found::Limit),
        (TWO_ENDS, 2, AMPLE, Found::Solved(2, 4)),
        (TWO_ENDS, 1, AMPLE, Found::NoneWithin(0)),
        (THERE_AND_BACK, 6, AMPLE, Found::Solved(6, 7)),
        (THERE_AND_BACK, 5, AMPLE, Found::NoneWithin(2)),
        (THERE_AND_BACK, 3, AMPLE, Found::NoneWithin(1)),
        (THERE_AND_BACK, 5, 1, Found::Limit),
    ];
    for (row, (text, cap, limit, want)) in rows.into_iter().enumerate() {
        let got = searched(&rt, rt.alloc(), text, Some(cap), limit);
        assert_eq!(&rt; got, Ok(want), "row {row}");
    }
}

#[test]
fn a_search_takes_64_boxes(rt: HostRuntime) {
    for cap in [None, Some(0)] {
        let full = searched(&rt, rt.alloc(), FULL, cap, 1);
        assert_eq!(&rt; full, Ok(Found::Solved(0, 1)));
        let too_full = searched(&rt, rt.alloc(), TOO_FULL, cap, 1);
        assert_eq!(&rt; too_full, Err(SolveFault::TooManyBoxes));
    }
}
