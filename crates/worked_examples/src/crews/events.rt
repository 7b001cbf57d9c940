//! The events of each worker in a layer of some hundred ranks, and in one of some thousand.
ghost use Rattle.std.specs.Prelude.{◌≡◌, false};

use crate::boards::{LARGE_ROOM, ROOM};
use crate::books::level_of;
use crew::{Config, Gate, solve};
use solo::Answer;
use std::alloc::Global;
use std::process::Abort;
use std::sync::Wait;
use std::sync::atomic::{AtomicU64, Ordering};
use std::thread;
use std::thread::Threads;

/// A level, the layer whose events are counted, the number of its ranks, and the answer.
#[derive(Clone, Copy)]
struct Counted {
    text: &'static [u8],
    layer: u64,
    ranks: u64,
    pushes: u64,
    positions: u64,
}

/// The room with three boxes, and its largest layer.
const SMALL: Counted = Counted {
    text: ROOM,
    layer: 6,
    ranks: 233,
    pushes: 8,
    positions: 1053,
};

/// The room with five boxes, and its largest layer that workers expand.
const LARGE: Counted = Counted {
    text: LARGE_ROOM,
    layer: 4,
    ranks: 2219,
    pushes: 5,
    positions: 8582,
};

/// The number of times that a held worker looks whether it may go on.
const TURNS: u32 = 20_000_000;

/// A gate that counts the events of each worker in one layer. There it holds each worker at its first event until all
/// of them have had one. It holds the worker whose turn it is until there are more events than the layer has ranks, so
/// that another worker has handed back a parcel.
#[derive(Drop)]
struct MeetingGate {
    layer: u64,
    ranks: u64,
    turn: u64,
    workers: u64,
    events: AtomicU64,
    came: AtomicU64,
    let_go: AtomicU64,
    ran_out: AtomicU64,
    out_of_order: AtomicU64,
    last: Vec<AtomicU64>,
}

impl MeetingGate {
    fn new(rt: &impl Abort, alloc: Global, room: Counted, workers: u8, turn: u8) -> MeetingGate {
        let mut last = Vec::new(alloc);
        for _ in 0..workers {
            last.push(AtomicU64::new(0)).expect(rt, "memory");
        }
        MeetingGate {
            layer: room.layer,
            ranks: room.ranks,
            turn: turn as u64,
            workers: workers as u64,
            events: AtomicU64::new(0),
            came: AtomicU64::new(0),
            let_go: AtomicU64::new(0),
            ran_out: AtomicU64::new(0),
            out_of_order: AtomicU64::new(0),
            last,
        }
    }

    /// Waits until the counter has reached `least` or another wait has failed, for at most TURNS turns.
    fn hold(&self, counter: &AtomicU64, least: u64) {
        for _ in 0..TURNS {
            if counter.load(Ordering::SeqCst) >= least || self.ran_out.load(Ordering::SeqCst) == 1 {
                return;
            }
            thread::yield_now();
        }
        self.ran_out.store(1, Ordering::SeqCst);
    }

    /// Keeps the number of a worker's event, which must be one more than the number before, from 1 on.
    fn note(&self, worker: u8, nth: u64) {
        let place = worker as usize;
        if place >= self.last.len() {
            self.out_of_order.store(1, Ordering::SeqCst);
            return;
        }
        let before = self.last[place].swap(nth, Ordering::SeqCst);
        if before.saturating_add(1) != nth {
            self.out_of_order.store(1, Ordering::SeqCst);
        }
    }
}

impl Gate for MeetingGate {
    ghost may_stop = { false };

    fn pass(&self, layer: u64, worker: u8, nth: u64) -> bool {
        if layer != self.layer {
            return true;
        }
        self.note(worker, nth);
        self.events.fetch_add(1, Ordering::SeqCst);
        if nth == 1 {
            self.came.fetch_add(1, Ordering::SeqCst);
            self.hold(&self.came, self.workers);
            if worker as u64 == self.turn && self.workers > 1 {
                self.hold(&self.events, self.ranks.saturating_add(1));
                self.let_go.fetch_add(1, Ordering::SeqCst);
            }
        }
        true
    }
}

/// Checks the events of a run in which the gate holds one worker.
fn check<R: Threads + Wait + Sync + Abort>(
    rt: &R,
    alloc: Global,
    room: Counted,
    workers: u8,
    locks: u8,
    turn: u8,
) {
    let gate = MeetingGate::new(rt, alloc, room, workers, turn);
    check_answer(rt, alloc, room, workers, locks, &gate);
    check_gate(rt, &gate, locks);
}

/// Checks the answer of a run of the room past this gate.
fn check_answer<R: Threads + Wait + Sync + Abort>(
    rt: &R,
    alloc: Global,
    room: Counted,
    workers: u8,
    locks: u8,
    gate: &MeetingGate,
) {
    let level = level_of(rt, alloc, room.text);
    let config = Config {
        workers,
        locks,
        limit: 1_000_000,
        cap: None,
    };
    let answer = solve(rt, alloc, &level, config, gate);
    match &answer {
        Ok(
            Answer::Solved {
                pushes,
                positions,
                ..
            },
        ) => assert!(rt; *pushes == room.pushes && *positions == room.positions),
        _ => assert!(rt; false, "the room is solved"),
    }
}

/// Checks that no wait has failed, that each worker had events, numbered from 1, and that their number is that of the
/// ranks, each drawn once and handed back once to each book.
fn check_gate(rt: &impl Abort, gate: &MeetingGate, locks: u8) {
    let workers = gate.workers;
    assert_eq!(rt;
        gate.ran_out.load(Ordering::SeqCst),
        0,
        "{workers} workers at once"
    );
    assert_eq!(rt;
        gate.out_of_order.load(Ordering::SeqCst),
        0,
        "{workers} workers"
    );
    assert_eq!(rt; gate.came.load(Ordering::SeqCst), workers);
    let events = gate.ranks.saturating_mul(1 + locks as u64);
    assert_eq!(rt;
        gate.events.load(Ordering::SeqCst),
        events,
        "{workers} workers, {locks} locks"
    );
    let held = if workers > 1 { 1 } else { 0 };
    assert_eq!(rt;
        gate.let_go.load(Ordering::SeqCst),
        held,
        "{workers} workers"
    );
}

#[test]
fn one_worker_draws_each_rank_and_hands_it_to_each_book(rt: HostRuntime) {
    for locks in [1, 2, 16] {
        check(&rt, rt.alloc(), SMALL, 1, locks, 0);
    }
}

#[test]
fn two_workers_are_held_in_turn(rt: HostRuntime) {
    for locks in [1, 2, 16] {
        for turn in 0..2 {
            check(&rt, rt.alloc(), SMALL, 2, locks, turn);
        }
    }
}

#[test]
fn four_workers_are_held_in_turn(rt: HostRuntime) {
    for locks in [1, 2, 16] {
        for turn in 0..4 {
            check(&rt, rt.alloc(), SMALL, 4, locks, turn);
        }
    }
}

#[test]
fn sixteen_workers_are_held_in_turn(rt: HostRuntime) {
    for turn in 0..16 {
        check(&rt, rt.alloc(), SMALL, 16, 1, turn);
    }
    for locks in [2, 16] {
        check(&rt, rt.alloc(), SMALL, 16, locks, 15);
    }
}

#[test]
fn sixty_four_workers_are_held_at_once(rt: HostRuntime) {
    check(&rt, rt.alloc(), SMALL, 64, 1, 63);
}

#[test]
fn workers_share_a_layer_of_some_thousand_ranks(rt: HostRuntime) {
    check(&rt, rt.alloc(), LARGE, 2, 1, 0);
    check(&rt, rt.alloc(), LARGE, 4, 2, 3);
}
