//! The queue of open positions.
ghost use Rattle.std.specs.Prelude.{◌≡◌, ◌+◌, ◌<◌, ◌++◌, [], OnOk, IfNone, IfSome, Some, length, slice_get};
ghost use Rattle.std.proofs.Props.{props};
ghost use Rattle.std.specs.BinaryHeap.{IsHeap, heap_capacity, heap_items, heap_len};
ghost use Rattle.prover.specs.inside.Tickets.{ticket_cmp};
ghost use Rattle.prover.specs.inside.Working.{IsFirstTicket, OthersWait, StillWait, Waits};

use std::alloc::{AllocError, Global};
use std::cmp::Reverse;
use std::collections::BinaryHeap;

/// An entry of the queue for an open position. The greatest ticket has the least total, then the most pushes, then the
/// latest place.
#[derive(Clone, Copy, PartialEq, Eq, PartialOrd, Ord)]
pub(crate) struct Ticket {
    pub(crate) least: Reverse<u32>,
    pub(crate) pushes: u32,
    pub(crate) place: usize,
}

/// The tickets of the open positions, and stale ones: of positions that were closed or got another least total. Those
/// of positions that a round has taken are set aside until they are put back.
#[derive(Drop)]
pub(crate) struct Queue {
    heap: BinaryHeap<Ticket>,
    aside: Vec<Ticket>,
    ghost ordered: { IsHeap ticket_cmp (heap_items heap) } by { Prim.hlevel props },
}

impl Queue {
    /// An empty queue.
    pub(crate) fn new(alloc: Global) -> Queue
        ensures { heap_items result.heap ++ result.aside.items ≡ [] }
    {
        Queue {
            heap: BinaryHeap::new(alloc),
            aside: Vec::new(alloc),
        }
    }

    /// Reserves capacity for one ticket.
    pub(crate) fn reserve(&mut self) -> Result<(), AllocError>
        ensures same { heap_items self.new.heap ≡ heap_items self.old.heap }
        ensures aside { self.new.aside.items ≡ self.old.aside.items }
        ensures room { OnOk result (heap_len self.new.heap < heap_capacity self.new.heap) }
    {
        self.heap.reserve(1)
    }

    /// Inserts a ticket. The queue must have capacity for it.
    pub(crate) fn insert(&mut self, ticket: Ticket)
        requires { heap_len self.old.heap < heap_capacity self.old.heap }
        ensures waits { Waits (heap_items self.new.heap) ticket.least.0 ticket.place }
        ensures others { StillWait (heap_items self.old.heap) (heap_items self.new.heap) }
        ensures aside { self.new.aside.items ≡ self.old.aside.items }
    {
        match self.heap.push(ticket) {
            Ok(()) => {}
            Err(_) => unreachable!(),
        }
    }

    /// The ticket with the least total.
    pub(crate) fn first(&self) -> Option<Ticket>
        ensures first { IfSome result (λ ticket. IsFirstTicket (heap_items self.now.heap) ticket) }
        ensures none { IfNone result (heap_items self.now.heap ≡ []) }
    {
        self.heap.peek().copied()
    }

    /// Sets the ticket with the least total aside. Fails only if out of memory.
    pub(crate) fn set_aside(&mut self, first: Ticket) -> Result<(), AllocError>
        requires { slice_get (heap_items self.old.heap) 0 ≡ Some first }
        ensures { StillWait (heap_items self.old.heap ++ self.old.aside.items)
            (heap_items self.new.heap ++ self.new.aside.items) }
    {
        self.aside.push(first)?;
        let _ = self.heap.pop();
        Ok(())
    }

    /// Takes back the ticket that was set aside last.
    pub(crate) fn pop_aside(&mut self) -> Option<Ticket>
        ensures heap { self.new.heap ≡ self.old.heap }
        ensures others { IfSome result (λ ticket. OthersWait ticket
            (heap_items self.old.heap ++ self.old.aside.items) (heap_items self.new.heap ++ self.new.aside.items)) }
        ensures fewer { IfSome result (λ _. length self.new.aside.items + 1 ≡ length self.old.aside.items) }
        ensures none { IfNone result (self.new.aside.items ≡ []) }
        ensures kept { IfNone result (self.new.aside.items ≡ self.old.aside.items) }
    {
        self.aside.pop()
    }

    /// Removes the ticket with the least total.
    pub(crate) fn drop_first(&mut self)
        ensures first { (first : Ticket) → slice_get (heap_items self.old.heap) 0 ≡ Some first →
            (length (heap_items self.new.heap) + 1 ≡ length (heap_items self.old.heap)) ×
            OthersWait first (heap_items self.old.heap) (heap_items self.new.heap) }
        ensures aside { self.new.aside.items ≡ self.old.aside.items }
    {
        let _ = self.heap.pop();
    }
}
