//! Searches that end once their time is up, by a clock of the test.
ghost use Rattle.std.specs.Prelude.{◌≡◌};

use crate::books::level_of;
use crate::fewest_moves::{BETWEEN, text_of, written};
use grid::Level;
use prover::{Outcome, Progress};
use shortest::{Aim, first_solution, improve};
use std::alloc::Global;
use std::process::Abort;
use std::thread::Threads;

// A solution of the room with two moves too many.
const DETOUR: &[u8] = b"RlrlLL";

/// A clock on which each question takes one second. It keeps the last better solution that it heard of.
#[derive(Default, Drop)]
pub(crate) struct Ticks {
    pub(crate) run: u32,
    better: Option<(usize, usize)>,
}

impl Progress for Ticks {
    ghost told = { λ it run. run ≡ it.run };

    fn note(&mut self, _level: &Level, _at_least: u32, _found: usize) {}

    fn better(&mut self, pushes: usize, moves: usize) {
        self.better = Some((pushes, moves));
    }

    fn seconds(&mut self) -> u32 {
        self.run = self.run.saturating_add(1);
        self.run
    }
}

// How a search of the room for the fewest pushes ends.
fn ended<R: Threads + Abort + Sync>(
    rt: &R,
    alloc: Global,
    seconds: Option<u32>,
    ticks: &mut Ticks,
) -> Outcome {
    let level = level_of(rt, alloc, BETWEEN);
    let end = prover::search(rt, alloc, &level, None, 1_000, seconds, 1, ticks);
    end.expect(rt, "memory")
}

#[test]
fn a_search_stops_once_its_time_is_up(rt: HostRuntime) {
    // it asks in each round; the first one, which expands the start, does not end it
    for (seconds, run) in [(1, 2), (2, 2), (3, 3)] {
        let mut ticks = Ticks::default();
        let end = ended(&rt, rt.alloc(), Some(seconds), &mut ticks);
        assert!(&rt; matches!(&end, Outcome::Stopped { at_least: 3 }));
        assert_eq!(&rt; ticks.run, run);
    }
}

#[test]
fn a_search_with_time_to_spare_decides(rt: HostRuntime) {
    for seconds in [None, Some(1_000)] {
        let mut ticks = Ticks::default();
        let end = ended(&rt, rt.alloc(), seconds, &mut ticks);
        assert!(&rt; matches!(&end, Outcome::Least { pushes: 3, .. }));
        assert_eq!(&rt; ticks.run > 0, seconds.is_some());
    }
}

#[test]
fn a_search_for_the_fewest_moves_stops_once_its_time_is_up(rt: HostRuntime) {
    // it asks once for each of eight states
    let rows = [
        (None, true, 0),
        (Some(1), false, 1),
        (Some(8), false, 8),
        (Some(9), true, 8),
    ];
    for (seconds, is_found, run) in rows {
        let mut ticks = Ticks::default();
        let found = text_of(&rt, rt.alloc(), BETWEEN, 8, seconds, &mut ticks);
        assert_eq!(&rt; (found.is_some(), ticks.run), (is_found, run));
    }
}

// What a search near a solution of the room makes of it.
fn improved(rt: &impl Abort, alloc: Global, seconds: Option<u32>, ticks: &mut Ticks) -> Vec<u8> {
    let level = level_of(rt, alloc, BETWEEN);
    let mut moves = lurd::parse(alloc, DETOUR).expect(rt, "moves");
    let aim = Aim::FewerMoves;
    let end = improve(alloc, &level, &mut moves, aim, 1_000, seconds, ticks);
    end.expect(rt, "memory");
    written(rt, alloc, &moves)
}

#[test]
fn a_search_near_a_solution_tells_of_better_ones(rt: HostRuntime) {
    let mut ticks = Ticks::default();
    let moves = improved(&rt, rt.alloc(), None, &mut ticks);
    assert_eq!(&rt; moves.as_slice(), b"RlLL".as_slice());
    assert_eq!(&rt; (ticks.better, ticks.run), (Some((3, 4)), 0));
}

#[test]
fn a_search_near_a_solution_stops_once_its_time_is_up(rt: HostRuntime) {
    let mut ticks = Ticks::default();
    let moves = improved(&rt, rt.alloc(), Some(1), &mut ticks);
    assert_eq!(&rt; moves.as_slice(), DETOUR);
    assert_eq!(&rt; ticks.better, None);
}

#[test]
fn beams_stop_once_their_time_is_up(rt: HostRuntime) {
    for (seconds, is_found) in [(None, true), (Some(1), false)] {
        let mut ticks = Ticks::default();
        let level = level_of(&rt, rt.alloc(), BETWEEN);
        let found = first_solution(rt.alloc(), &level, 3, None, 1_000, seconds, &mut ticks);
        assert_eq!(&rt; found.expect(&rt, "memory").is_some(), is_found);
    }
}
