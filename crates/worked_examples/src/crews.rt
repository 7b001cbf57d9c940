//! Crews of workers on worked examples.
ghost use Rattle.std.specs.Prelude.{◌≡◌, false};

mod draws;
mod ended;
mod events;

use crate::boards::TWO_ENDS;
use crate::books::level_of;
use crew::{Config, Free, Gate, solve};
use grid::{Cell, Level, MAX_BOXES};
use layers::{MAX_SHARES, MAX_WORKERS};
use solo::{Answer, SolveFault};
use std::alloc::Global;
use std::process::Abort;
use std::sync::atomic::{AtomicU64, Ordering};
use std::sync::{Arc, Wait};
use std::thread;
use std::thread::Threads;

/// The number of times that a held worker looks whether another one has freed it.
const TURNS: u32 = 1_000_000;

/// The layer in which a worker is held.
const HELD_LAYER: u64 = 1;

/// Not the number of a worker.
const NOBODY: u64 = u64::MAX;

/// The kind of event after which a gate holds a worker: the one whose event of this kind comes first.
#[derive(Clone, Copy, PartialEq, Eq)]
enum After {
    Draw,
    HandBack,
}

/// A gate that counts the events of each layer. In one layer it holds the worker whose draw, or whose accepted
/// parcel, comes first, until a parcel of another worker is accepted there by one of the `locks` books.
#[derive(Drop)]
struct Holding {
    locks: u8,
    after: After,
    held: AtomicU64,
    freed: AtomicU64,
    ran_out: AtomicU64,
    calls: [AtomicU64; 3],
}

impl Holding {
    fn new(locks: u8, after: After) -> Holding {
        Holding {
            locks,
            after,
            held: AtomicU64::new(NOBODY),
            freed: AtomicU64::new(0),
            ran_out: AtomicU64::new(0),
            calls: [AtomicU64::new(0), AtomicU64::new(0), AtomicU64::new(0)],
        }
    }

    /// Whether this worker's event is the first one.
    fn is_first(&self, me: u64) -> bool {
        self.held
            .compare_exchange(NOBODY, me, Ordering::SeqCst, Ordering::SeqCst)
            .is_ok()
    }

    /// Frees the held worker, unless it is this one.
    fn let_go(&self, me: u64) {
        let held = self.held.load(Ordering::SeqCst);
        if held != NOBODY && held != me {
            self.freed.store(1, Ordering::SeqCst);
        }
    }

    /// Waits until the worker is freed, for at most TURNS turns.
    fn hold(&self) {
        for _ in 0..TURNS {
            if self.freed.load(Ordering::SeqCst) == 1 {
                return;
            }
            thread::yield_now();
        }
        self.ran_out.store(1, Ordering::SeqCst);
    }
}

impl Gate for Holding {
    ghost may_stop = { false };

    fn pass(&self, layer: u64, worker: u8, nth: u64) -> bool {
        let place = layer.min(2) as usize;
        self.calls[place].fetch_add(1, Ordering::SeqCst);
        if layer != HELD_LAYER {
            return true;
        }
        // after each draw of a worker, each of the books accepts a parcel
        let me = worker as u64;
        let event = if nth % (self.locks as u64 + 1) == 1 {
            After::Draw
        } else {
            After::HandBack
        };
        if event == self.after && self.is_first(me) {
            self.hold();
        } else if event == After::HandBack {
            self.let_go(me);
        }
        true
    }
}

/// The level of three rows with the player and `boxes` boxes on goals in the middle row.
fn home_of(rt: &impl Abort, alloc: Global, boxes: usize) -> Arc<Level> {
    let mut cells = Vec::new(alloc);
    let cols = boxes.saturating_add(3);
    for _ in 0..cols.saturating_add(1) {
        cells.push(Cell::Wall).expect(rt, "memory");
    }
    cells.push(Cell::Player).expect(rt, "memory");
    for _ in 0..boxes {
        cells.push(Cell::BoxOnGoal).expect(rt, "memory");
    }
    for _ in 0..cols.saturating_add(1) {
        cells.push(Cell::Wall).expect(rt, "memory");
    }
    assert!(rt; cols >= 1);
    assert!(rt; cells.len() % cols == 0);
    let level = Level::from_cells(alloc, cols, cells).expect(rt, "a level");
    Arc::new(alloc, level).expect(rt, "memory")
}

/// The answer of two workers over `locks` locks, and the number of calls of the gate in each layer.
fn held<R: Threads + Wait + Sync + Abort>(
    rt: &R,
    alloc: Global,
    locks: u8,
    limit: u32,
    after: After,
) -> (Result<Answer, SolveFault>, [u64; 3]) {
    let level = level_of(rt, alloc, TWO_ENDS);
    let gate = Holding::new(locks, after);
    let config = Config {
        workers: 2,
        locks,
        limit,
        cap: None,
    };
    let answer = solve(rt, alloc, &level, config, &gate);
    assert_eq!(rt;
        gate.ran_out.load(Ordering::SeqCst),
        0,
        "the worker that was held is let go"
    );
    assert!(rt; gate.held.load(Ordering::SeqCst) < 2, "a worker was held");
    assert_eq!(rt;
        gate.freed.load(Ordering::SeqCst),
        1,
        "the other one let it go"
    );
    let calls = [
        gate.calls[0].load(Ordering::SeqCst),
        gate.calls[1].load(Ordering::SeqCst),
        gate.calls[2].load(Ordering::SeqCst),
    ];
    (answer, calls)
}

/// Checks the answer and the events of two workers over `locks` locks.
fn check_held<R: Threads + Wait + Sync + Abort>(
    rt: &R,
    alloc: Global,
    locks: u8,
    after: After,
    expected: [u64; 3],
) {
    let (answer, calls) = held(rt, alloc, locks, 1_000_000, after);
    assert!(rt;
        matches!(
            &answer,
            Ok(Answer::Solved {
                pushes: 2,
                positions: 4,
                ..
            })
        )
    );
    assert_eq!(rt; calls, expected, "{locks} locks");
}

#[test]
fn workers_share_a_layer(rt: HostRuntime) {
    check_held(&rt, rt.alloc(), 1, After::Draw, [2, 4, 0]);
    check_held(&rt, rt.alloc(), 2, After::Draw, [3, 6, 0]);
}

#[test]
fn no_lock_is_held_while_a_gate_is_asked(rt: HostRuntime) {
    check_held(&rt, rt.alloc(), 1, After::HandBack, [2, 4, 0]);
    check_held(&rt, rt.alloc(), 2, After::HandBack, [3, 6, 0]);
}

#[test]
fn the_limit_is_counted_over_all_books(rt: HostRuntime) {
    // the layers have 4 positions, each of the two books has 2, and both accept each parcel
    let (answer, calls) = held(&rt, rt.alloc(), 2, 3, After::Draw);
    assert!(&rt; matches!(&answer, Ok(Answer::Limit)));
    assert_eq!(&rt; calls, [3, 6, 0]);
}

#[test]
fn configurations_outside_the_limits(rt: HostRuntime) {
    for boxes in [1, MAX_BOXES + 1] {
        let level = home_of(&rt, rt.alloc(), boxes);
        for (workers, locks, limit) in [
            (0, 1, 1_000_000),
            (MAX_WORKERS + 1, 1, 1_000_000),
            (u8::MAX, 1, 1),
            (1, 0, 1_000_000),
            (1, MAX_SHARES + 1, 1_000_000),
            (1, u8::MAX, 1),
            (1, 1, 0),
            (0, 0, 0),
        ] {
            let config = Config {
                workers,
                locks,
                limit,
                cap: None,
            };
            let answer = solve(&rt, rt.alloc(), &level, config, &Free);
            assert!(&rt;
                matches!(answer, Err(SolveFault::BadConfig)),
                "{workers} workers, {locks} locks, limit {limit}"
            );
        }
    }
    let many = home_of(&rt, rt.alloc(), MAX_BOXES + 1);
    for (workers, locks) in [(1, 1), (MAX_WORKERS, MAX_SHARES)] {
        let config = Config {
            workers,
            locks,
            limit: 1,
            cap: None,
        };
        let answer = solve(&rt, rt.alloc(), &many, config, &Free);
        assert!(&rt;
            matches!(answer, Err(SolveFault::TooManyBoxes)),
            "{workers} workers, {locks} locks"
        );
    }
}
