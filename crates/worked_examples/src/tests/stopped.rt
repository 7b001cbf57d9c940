//! Workers that a gate stops do not change the answer.
ghost use Rattle.std.specs.Prelude.{◌≡◌, true};

use super::DEFAULT_LIMIT;
use crate::boards::{CORNER, THERE_AND_BACK, TWO_ENDS};
use crate::books::level_of;
use crew::{Config, Gate, solve};
use grid::{Level, Moves};
use solo::Answer;
use std::alloc::Global;
use std::process::Abort;
use std::sync::atomic::{AtomicU64, Ordering};
use std::sync::{Arc, Wait};
use std::thread::Threads;

/// An answer: pushes, positions and moves.
type Solved = (u64, u64, &'static [u8]);

/// A level, the number of ranks of each layer that workers expand, and the answer.
const LEVELS: [(&[u8], &[u64], Solved); 3] = [
    (CORNER, &[1, 2], (2, 4, b"uLdlU")),
    (TWO_ENDS, &[1, 2], (2, 4, b"LrR")),
    (THERE_AND_BACK, &[1, 1, 1, 1, 1, 1], (6, 7, b"RRdrruLLLL")),
];

/// The greatest number of locks that is tried.
const MOST_LOCKS: u8 = 3;

/// When a gate stops a worker.
#[derive(Clone, Copy)]
enum Stops {
    /// At an event of a worker in a layer.
    At(u64, u8, u64),
    /// Always.
    Always,
    /// Always, except for one worker.
    Others(u8),
}

/// A gate that stops workers, and counts how often it does.
#[derive(Drop)]
struct StoppingGate {
    stops: Stops,
    count: AtomicU64,
}

impl Gate for StoppingGate {
    ghost may_stop = { true };

    fn pass(&self, layer: u64, worker: u8, nth: u64) -> bool {
        let goes_on = match self.stops {
            Stops::At(in_layer, who, event) => layer != in_layer || worker != who || nth != event,
            Stops::Always => false,
            Stops::Others(who) => worker == who,
        };
        if !goes_on {
            self.count.fetch_add(1, Ordering::SeqCst);
        }
        goes_on
    }
}

#[test]
fn a_worker_is_stopped_at_each_event(rt: HostRuntime) {
    for (text, layers, answer) in LEVELS {
        let level = level_of(&rt, rt.alloc(), text);
        for locks in 1..=MOST_LOCKS {
            for (layer, ranks) in layers.iter().enumerate() {
                check_layer(
                    &rt,
                    rt.alloc(),
                    &level,
                    (layer as u64, *ranks),
                    locks,
                    answer,
                );
            }
        }
    }
}

// Checks the answer if a worker is stopped at one of the events that it can have in a layer with this number and these
// ranks. A worker that draws all of them has an event for each, and one for each of them and each lock.
fn check_layer(
    rt: &(impl Abort + Threads + Wait + Sync),
    alloc: Global,
    level: &Arc<Level>,
    (layer, ranks): (u64, u64),
    locks: u8,
    answer: Solved,
) {
    for nth in 1..=ranks.saturating_mul(locks as u64 + 1) {
        let stops = Stops::At(layer, 0, nth);
        let count = stopped(rt, alloc, level, stops, (1, locks), answer);
        assert_eq!(rt; count, 1, "a worker alone has each event once");
        for worker in 0..2 {
            let stops = Stops::At(layer, worker, nth);
            stopped(rt, alloc, level, stops, (2, locks), answer);
        }
    }
}

#[test]
fn workers_are_always_stopped(rt: HostRuntime) {
    for (text, _, answer) in LEVELS {
        let level = level_of(&rt, rt.alloc(), text);
        for stops in [Stops::Always, Stops::Others(0), Stops::Others(1)] {
            for locks in 1..=MOST_LOCKS {
                stopped(&rt, rt.alloc(), &level, stops, (2, locks), answer);
            }
        }
    }
}

// Checks the answer of these workers over these locks with a gate, and returns how often the gate stopped one.
fn stopped(
    rt: &(impl Abort + Threads + Wait + Sync),
    alloc: Global,
    level: &Arc<Level>,
    stops: Stops,
    (workers, locks): (u8, u8),
    answer: Solved,
) -> u64 {
    let config = Config {
        workers,
        locks,
        limit: DEFAULT_LIMIT,
        cap: None,
    };
    let gate = StoppingGate {
        stops,
        count: AtomicU64::new(0),
    };
    let found = solve(rt, alloc, level, config, &gate).expect(rt, "an answer");
    assert!(rt; is_solution(rt, alloc, &found, answer));
    gate.count.load(Ordering::SeqCst)
}

// Whether an answer is the solution with these pushes, positions and moves.
fn is_solution(
    rt: &impl Abort,
    alloc: Global,
    found: &Answer,
    (pushes, positions, moves): Solved,
) -> bool {
    match found {
        Answer::Solved {
            moves: letters,
            pushes: count,
            positions: total,
        } => *count == pushes && *total == positions && is_text(rt, alloc, letters, moves),
        _ => false,
    }
}

// Whether moves have this text.
fn is_text(rt: &impl Abort, alloc: Global, moves: &Moves, text: &[u8]) -> bool {
    let mut out = Vec::new(alloc);
    lurd::write(moves, &mut out).expect(rt, "memory");
    out.as_slice() == text
}
