//! The engine uses its numbers of workers and locks: a gate counts the ranks and the parcels of each layer.
ghost use Rattle.std.specs.Prelude.{◌≡◌, false};

use super::DEFAULT_LIMIT;
use crate::Paper;
use crate::boards::TWO_ENDS;
use crew::{Config, Gate};
use layers::MAX_SHARES;
use sokopar::{Reader, SolveRequest, Writer, run_solve_with};
use std::alloc::Global;
use std::process::Abort;
use std::sync::Wait;
use std::sync::atomic::{AtomicU64, Ordering};
use std::thread::Threads;

/// A gate that counts the events of each of the first two layers, and of all later ones together.
#[derive(Drop)]
struct Counting {
    passed: [AtomicU64; 3],
}

impl Gate for Counting {
    ghost may_stop = { false };

    fn pass(&self, layer: u64, _worker: u8, _nth: u64) -> bool {
        let place = layer.min(2) as usize;
        self.passed[place].fetch_add(1, Ordering::SeqCst);
        true
    }
}

/// The events of each layer if two workers over `locks` locks solve the level.
fn passed<R: Threads + Wait + Sync + Abort>(rt: &R, alloc: Global, locks: u8) -> [u64; 3] {
    let gate = Counting {
        passed: [AtomicU64::new(0), AtomicU64::new(0), AtomicU64::new(0)],
    };
    check_report(rt, alloc, locks, &gate);
    [
        gate.passed[0].load(Ordering::SeqCst),
        gate.passed[1].load(Ordering::SeqCst),
        gate.passed[2].load(Ordering::SeqCst),
    ]
}

/// Checks the report of two workers over `locks` locks with this gate.
fn check_report<R: Threads + Wait + Sync + Abort>(
    rt: &R,
    alloc: Global,
    locks: u8,
    gate: &Counting,
) {
    let config = Config {
        workers: 2,
        locks: locks.max(1).min(MAX_SHARES),
        limit: DEFAULT_LIMIT,
        cap: None,
    };
    let mut paper = Paper::new(alloc, usize::MAX, 0);
    let status = run_solve_with(
        rt,
        alloc,
        &mut Reader::new(TWO_ENDS),
        SolveRequest {
            number: 1,
            config,
            lurd: false,
        },
        gate,
        &mut Writer::new(&mut paper),
    );
    assert_eq!(rt; status, Ok(0));
    assert_eq!(rt;
        paper.text.as_slice(),
        b"solved 2 pushes, 3 moves, 4 positions\nLrR\n".as_slice()
    );
}

// The first layer has one position and the second two. Each is drawn once, and handed back once to each of `locks`
// books.
#[test]
fn each_rank_is_drawn_once_and_handed_to_a_book_for_each_lock(rt: HostRuntime) {
    assert_eq!(&rt; passed(&rt, rt.alloc(), 1), [2, 4, 0]);
    assert_eq!(&rt; passed(&rt, rt.alloc(), 2), [3, 6, 0]);
    assert_eq!(&rt; passed(&rt, rt.alloc(), MAX_SHARES), [17, 34, 0]);
}
