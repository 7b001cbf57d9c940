//! The shared number of positions of all books. No contract depends on it: it only ends the workers, and the caller
//! then counts.
ghost use Rattle.std.specs.Prelude.{◌≡◌, true};

use crate::gate::Gate;
use layers::Book;
use std::sync::atomic::{AtomicU64, Ordering};

// A worker reads the number after one in this many events, which is about the number of events of a batch.
const EVENTS: u64 = 16;

/// A gate that stops a worker if another gate does, or if the books hold more positions together than the limit.
#[derive(Drop)]
pub(crate) struct Within<'s, G: Gate> {
    pub(crate) gate: &'s G,
    pub(crate) held: &'s AtomicU64,
    pub(crate) limit: u32,
}

impl<'s, G: Gate> Gate for Within<'s, G> {
    ghost may_stop = { true };

    fn pass(&self, layer: u64, worker: u8, nth: u64) -> bool {
        if !self.gate.pass(layer, worker, nth) {
            return false;
        }
        nth % EVENTS != 0 || self.held.load(Ordering::Relaxed) <= u64::from(self.limit)
    }
}

/// Adds the growth of a book, from `before` to `after` positions, to the shared number.
pub(crate) fn tell_growth(held: &AtomicU64, before: u64, after: u64) {
    if before < after {
        held.fetch_add(after - before, Ordering::Relaxed);
    }
}

/// Enters the pending successors of a book, unless they are fewer than `least`, and adds the growth to the shared
/// number of positions. It returns whether it entered them. Contracts see the same book after it.
pub(crate) fn enter_into(book: &mut Book, held: &AtomicU64, least: usize) -> bool
    ensures { book.new ≡ book.old }
{
    let before = book.positions_at_least();
    let entered = book.enter_pending(least);
    tell_growth(held, before, book.positions_at_least());
    entered
}
