//! The fewest moves among the solutions with the fewest pushes.
use crate::boards::{ONE, SOLVED};
use crate::books::level_of;
use grid::Moves;
use prover::{Outcome, Progress, Unheard};
use shortest::{MovesOutcome, search_moves};
use std::alloc::Global;
use std::process::Abort;
use std::thread::Threads;

// A room whose player stands between two boxes. Of its solutions with three pushes, the shortest pushes the right box
// first, walks one step back, and pushes the left box twice. The others push the left box first and walk back further.
// These solutions pass eight states in all.
pub(crate) const BETWEEN: &[u8] = b"########\n#. $@$.#\n#      #\n########\n";

// The text of the solution that a search with these limits finds; none if the search ends at one.
pub(crate) fn text_of<R: Threads + Abort + Sync, P: Progress>(
    rt: &R,
    alloc: Global,
    board: &[u8],
    limit: u32,
    seconds: Option<u32>,
    progress: &mut P,
) -> Option<Vec<u8>> {
    let level = level_of(rt, alloc, board);
    let best = prover::search(rt, alloc, &level, None, 1_000, None, 1, &mut Unheard).expect(
        rt, "memory",
    );
    let Outcome::Least { moves, pushes } = best else {
        panic!(rt; "a solution");
    };
    drop(moves);
    match search_moves(alloc, &level, pushes, limit, seconds, progress).expect(rt, "memory") {
        MovesOutcome::Least { moves } => Some(written(rt, alloc, &moves)),
        MovesOutcome::Limit | MovesOutcome::Stopped => None,
    }
}

// Moves as a text.
pub(crate) fn written(rt: &impl Abort, alloc: Global, moves: &Moves) -> Vec<u8> {
    let mut text = Vec::new(alloc);
    lurd::write(moves, &mut text).expect(rt, "memory");
    text
}

#[test]
fn a_limit_of_all_states_finds_the_fewest_moves(rt: HostRuntime) {
    let found = text_of(&rt, rt.alloc(), BETWEEN, 8, None, &mut Unheard);
    assert_eq!(&rt; found.as_deref(), Some(b"RlLL".as_slice()));
}

#[test]
fn a_limit_of_one_state_less_ends_the_search(rt: HostRuntime) {
    let found = text_of(&rt, rt.alloc(), BETWEEN, 7, None, &mut Unheard);
    assert!(&rt; found.is_none());
}

#[test]
fn a_solved_level_needs_no_moves(rt: HostRuntime) {
    let found = text_of(&rt, rt.alloc(), SOLVED, 1, None, &mut Unheard);
    assert_eq!(&rt; found.as_deref(), Some(b"".as_slice()));
}
