//! The layers of the worked examples: positions, ranks, parents and pushes.
use super::{Place, is_position, parcel_of, push_of, start_of};
use crate::boards::{CORNER, SOLVED};
use grid::Dir;
use layers::{Parcel, Successor};
use solo::first_solved;
use std::process::Abort;

pub(crate) const ONE_LAYERS: &[&[Place]] = &[
    &[(&[7], 6, None)],
    &[(&[8], 6, Some((0, 7, Dir::R)))],
];

pub(crate) const CORNER_LAYERS: &[&[Place]] = &[
    &[(&[12], 6, None)],
    &[
        (&[11], 6, Some((0, 12, Dir::L))),
        (&[7], 6, Some((0, 12, Dir::U))),
    ],
    &[(&[6], 7, Some((0, 11, Dir::U)))],
];

pub(crate) const HALL_LAYERS: &[&[Place]] = &[
    &[(&[8], 7, None)],
    &[
        (&[7], 8, Some((0, 8, Dir::L))),
        (&[9], 7, Some((0, 8, Dir::R))),
    ],
];

pub(crate) const TWO_ENDS_LAYERS: &[&[Place]] = &[
    &[(&[9, 11], 10, None)],
    &[
        (&[8, 11], 9, Some((0, 9, Dir::L))),
        (&[9, 12], 10, Some((0, 11, Dir::R))),
    ],
    &[(&[8, 12], 9, Some((0, 11, Dir::R)))],
];

pub(crate) const THERE_AND_BACK_LAYERS: &[&[Place]] = &[
    &[(&[19], 17, None)],
    &[(&[20], 17, Some((0, 19, Dir::R)))],
    &[(&[21], 12, Some((0, 20, Dir::R)))],
    &[(&[20], 12, Some((0, 21, Dir::L)))],
    &[(&[19], 12, Some((0, 20, Dir::L)))],
    &[(&[18], 12, Some((0, 19, Dir::L)))],
    &[(&[17], 12, Some((0, 18, Dir::L)))],
];

#[test]
fn the_first_solved_position_is_found(rt: HostRuntime) {
    for (text, rank) in [(CORNER, None), (SOLVED, Some(0))] {
        assert_eq!(&rt; first_solved(&start_of(&rt, rt.alloc(), text)), rank);
    }
}

#[test]
fn expand_gives_the_successors_and_no_other(rt: HostRuntime) {
    let layer = start_of(&rt, rt.alloc(), CORNER);
    check_parcel(&rt, &parcel_of(&rt, rt.alloc(), &layer, 0));
}

// Checks the parcel of the start of CORNER: two successors.
fn check_parcel(rt: &impl Abort, parcel: &Parcel<'_>) {
    assert_eq!(rt; (parcel.layer(), parcel.rank()), (0, 0));
    let [left, up] = parcel.successors() else {
        panic!(rt; "two successors");
    };
    check_successor(rt, left, Dir::L, 11);
    check_successor(rt, up, Dir::U, 7);
}

// Checks a successor: the box on square 12 is pushed onto another, and the player's least square is 6.
fn check_successor(rt: &impl Abort, successor: &Successor, dir: Dir, only: u16) {
    assert_eq!(rt; successor.push, push_of(12, dir));
    assert!(rt; is_position(&successor.position, &[only], 6));
}
