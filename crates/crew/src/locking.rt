//! The locks of books, and what a worker does while another one holds a lock. Only generic functions hold a guard. They
//! cannot know what it guards, so under a lock they only call the function that was passed.
ghost use Rattle.std.specs.Prelude.{◌≡◌, IfSome};
ghost use Rattle.std.specs.Sync.Mutex.{mutex_guard_value};
ghost use Rattle.crew.specs.inside.Calls.{Leaves};

use crate::known::LockedBook;
use crate::shared::Shared;
use std::sync::{Mutex, MutexGuard, Wait};
use std::thread::yield_now;

// The number of tries before the thread sleeps: locks are held for less time than a thread takes to sleep and wake.
const TRIES: u32 = 60;

// How often the thread yields between two tries. Each try slows the worker that holds the lock, which mostly takes it
// again at once for the next parcel of its batch, so a pause is some parcels long.
const PAUSES: u32 = 8;

// The least number of pending successors that a worker enters in its own book while it waits: fewer are not looked up
// side by side.
const LEAST: usize = 16;

/// Takes a lock as `lock` does, after some tries, calls `job` with what is behind it, and releases the lock. While
/// another worker holds it, worker `worker` enters the pending successors of its own book.
pub(crate) fn with_lock<R: Wait, B: LockedBook, A, F: Fn(&mut B) -> A>(
    rt: &R,
    shared: &Shared<'_, '_, B>,
    worker: u8,
    lock: &Mutex<B>,
    job: &F,
) -> A
    requires { F.IsAlwaysCallable job.now }
    ensures { (before : B) × (after : B) × Leaves F.Fn job.now before result after }
{
    with_guard(take_lock(rt, shared, worker, lock), job)
}

// Takes a lock as `with_lock` does.
fn take_lock<'b, R: Wait, B: LockedBook>(
    rt: &R,
    shared: &Shared<'_, '_, B>,
    worker: u8,
    lock: &'b Mutex<B>,
) -> MutexGuard<'b, B> {
    for _ in 0..TRIES {
        if let Some(guard) = lock.try_lock() {
            return guard;
        }
        if !enter_own(shared, worker) {
            pause();
        }
    }
    lock.lock(rt)
}

// Calls `job` with what a guard guards, and releases the lock.
fn with_guard<T, A, F: Fn(&mut T) -> A>(guard: MutexGuard<'_, T>, job: &F) -> A
    requires { F.IsAlwaysCallable job.now }
    ensures { (after : T) × Leaves F.Fn job.now (mutex_guard_value guard.entry) result after }
{
    let mut guard = guard;
    job(&mut *guard)
}

// Calls `job` with what is behind a lock, unless another thread holds the lock.
fn with_free_lock<T, A, F: Fn(&mut T) -> A>(lock: &Mutex<T>, job: &F) -> Option<A>
    requires { F.IsAlwaysCallable job.now }
    ensures { IfSome result
        (λ answer. (before : T) × (after : T) × Leaves F.Fn job.now before answer after) }
{
    Some(with_guard(lock.try_lock()?, job))
}

// Enters the pending successors of the worker's own book, and returns `true`. It returns `false` if they are fewer than
// `LEAST`, or if another worker holds the book.
fn enter_own<B: LockedBook>(shared: &Shared<'_, '_, B>, worker: u8) -> bool {
    let Some(book) = shared.books.get(worker as usize) else {
        return false;
    };
    let held = shared.held;
    let entered = with_free_lock(
        book,
        &|book: &mut B|
            ensures { book.exit.now ≡ book.entry.now }
        { book.enter_into(held, LEAST) },
    );
    entered.unwrap_or(false)
}

// Lets other threads run.
fn pause() {
    for _ in 0..PAUSES {
        yield_now();
    }
}
