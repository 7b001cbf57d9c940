//! The positions that a search has found, of which some are open.
ghost use Rattle.std.specs.Prelude.{◌≡◌, ◌<◌, ◌≤◌, ◌↔◌, ◌^◌, ℕ, IfNone, IfOk, IfSome, IsTrue, IsFalse, None};
ghost use Rattle.std.specs.Prelude.{OnOk, Some, [], length};
ghost use Rattle.std.specs.Prelude.{map, slice_get};
ghost use Rattle.grid.specs.Lawful.{box_count};
ghost use Rattle.store.specs.FoundView.{FitsGrid};
ghost use Rattle.store.specs.Earlier.{IsFoundWithin};
ghost use Rattle.store.specs.Visited.{Node};
ghost use Rattle.successors.specs.Distances.{AreDistinct};
ghost use Rattle.prover.specs.Frontier.{NoneIsOpen};
ghost use Rattle.std.specs.BinaryHeap.{heap_capacity, heap_items, heap_len};
ghost use Rattle.prover.specs.inside.Waiting.{tickets};
ghost use Rattle.prover.specs.inside.Working.{Enters, HasLeastAt, IsLeastOpen, IsQueued, IsWaiting, SameSize};
ghost use Rattle.prover.specs.inside.Working.{StillWait, Waits};

use crate::pushing::Expanded;
use crate::queue::{Queue, Ticket};
use grid::{Level, MAX_BOXES, Position};
use std::alloc::{AllocError, Global};
use std::cmp::Reverse;
use std::marker::Model;
use store::{Label, Parent, Visited};

/// The positions that a search has found. Contracts see them in the order in which they were found.
#[derive(Drop)]
pub(crate) struct Frontier {
    visited: Visited,
    queue: Queue,
}

/// About how many positions are sampled.
const SAMPLES: usize = 200;

impl Model for Frontier {
    ghost use Rattle.store.specs.Visited.{VisitedView};
    ghost use Rattle.prover.specs.inside.Waiting.{tickets};
    ghost use Rattle.prover.specs.inside.Working.{IsQueued};

    ghost Value = { VisitedView };

    ghost view = { λ a. a.visited };

    ghost invariant = { λ a. IsQueued a.visited.entries (tickets a.queue) };
}

impl Frontier {
    /// An empty frontier of a level.
    pub(crate) fn of(alloc: Global, level: &Level) -> Frontier
        requires { box_count level.now ≤ MAX_BOXES }
        ensures entries { result.entries ≡ [] }
        ensures size { (result.boxes ≡ box_count level.now) × (result.squares ≡ length level.now.cells) }
    {
        Frontier {
            visited: Visited::of(alloc, level.boxes(), level.squares()),
            queue: Queue::new(alloc),
        }
    }

    /// The number of positions.
    pub(crate) fn len(&self) -> usize
        ensures { result ≡ length self.now.entries }
    {
        self.visited.len()
    }

    /// The position at a place.
    pub(crate) fn position(&self, place: usize) -> Position
        requires { place < length self.now.entries }
        ensures { (x : Node) → slice_get self.now.entries place ≡ Some x → result ≡ x.position }
    {
        self.visited.position(place)
    }

    /// The number of pushes that lead to the position at a place.
    pub(crate) fn pushes(&self, place: usize) -> u32
        requires { place < length self.now.entries }
        ensures { (x : Node) → slice_get self.now.entries place ≡ Some x → result ≡ x.pushes }
    {
        self.visited.label(place).pushes
    }

    /// The last push that leads to the position at a place, and the place before it. `None` for the start.
    pub(crate) fn parent(&self, place: usize) -> Option<Parent>
        requires { place < length self.now.entries }
        ensures { (x : Node) → slice_get self.now.entries place ≡ Some x → result ≡ x.parent }
    {
        self.visited.label(place).parent
    }

    /// Opens a position with a least total, unless it was found with as few pushes. Fails only if out of memory.
    pub(crate) fn open_at(
        &mut self,
        position: &Position,
        pushes: u32,
        least: u32,
        parent: Option<Parent>,
    ) -> Result<(), AllocError>
        requires { FitsGrid self.old.boxes self.old.squares position.now }
        ensures enters { OnOk result (Enters self.old.entries self.new.entries
            (record { position = position.now; pushes = pushes; least = Some least; parent = parent })) }
        ensures size { SameSize self.old self.new }
    {
        self.queue.reserve()?;
        let label = Label {
            pushes,
            least: Some(least),
            parent,
        };
        let entered = self.visited.enter(position, label)?;
        if let Some(place) = entered {
            self.queue.insert(Ticket {
                least: Reverse(least),
                pushes,
                place,
            });
        }
        Ok(())
    }

    /// Sets the least total of the position at a place. `None` closes it. Fails only if out of memory.
    pub(crate) fn set_least(&mut self, place: usize, least: Option<u32>) -> Result<(), AllocError>
        requires place { place < length self.old.entries }
        ensures set { OnOk result (HasLeastAt self.old.entries place least self.new.entries) }
        ensures size { SameSize self.old self.new }
    {
        self.queue.reserve()?;
        let pushes = self.visited.label(place).pushes;
        self.visited.set_least(place, least);
        if let Some(least) = least {
            self.queue.insert(Ticket {
                least: Reverse(least),
                pushes,
                place,
            });
        }
        Ok(())
    }

    /// The place of an open position with the least total, and that total. `None` if none is open. Fails only if out of
    /// memory.
    pub(crate) fn least_open(&mut self) -> Result<Option<(usize, u32)>, AllocError>
        ensures some { IfOk result (λ least. IfSome least (λ found. IsLeastOpen self.new.entries found.0 found.1)) }
        ensures none { IfOk result (λ least. IfNone least (NoneIsOpen self.new.entries)) }
        ensures same { self.new ≡ self.old }
    {
        put_back(&self.visited, &mut self.queue)?;
        while let Some(ticket) = self.queue.first() {
            if is_open(&self.visited, ticket) {
                return Ok(Some((ticket.place, ticket.least.0)));
            }
            self.queue.drop_first();
        }
        Ok(None)
    }

    /// Takes the next open position of those with a least total of at most `reach`, and gives its place. It is not
    /// taken again before the next call of [`Frontier::least_open`]. Fails only if out of memory.
    pub(crate) fn take_open(&mut self, reach: u32) -> Result<Option<usize>, AllocError>
        ensures place { IfOk result (λ next. IfSome next (λ place. place < length self.new.entries)) }
        ensures same { self.new ≡ self.old }
    {
        while let Some(ticket) = self.queue.first() {
            if ticket.least.0 > reach {
                return Ok(None);
            }
            if is_open(&self.visited, ticket) {
                self.queue.set_aside(ticket)?;
                return Ok(Some(ticket.place));
            }
            self.queue.drop_first();
        }
        Ok(None)
    }

    /// The position at a place, to be expanded for totals up to `reach`.
    pub(crate) fn expanded(&self, place: usize, reach: u32) -> Expanded
        requires place { place < length self.now.entries }
        requires few { length self.now.entries < 2 ^ 32 }
        ensures place { (result.place ≡ place) × (result.reach ≡ reach) }
        ensures entry { (x : Node) → slice_get self.now.entries place ≡ Some x →
            (result.position ≡ x.position) × (result.pushes ≡ x.pushes) }
    {
        Expanded {
            position: self.position(place),
            pushes: self.pushes(place),
            reach,
            place: place as u32,
        }
    }

    /// Whether the position is still at its place with as many pushes, and open with a least total of at most
    /// `from.reach`.
    pub(crate) fn waits(&self, from: &Expanded) -> bool
        ensures { IsTrue result → IsWaiting self.now.entries from.now }
    {
        let place = from.place as usize;
        if place >= self.visited.len() {
            return false;
        }
        let near = is_within(self.visited.label(place), from.reach);
        if !near {
            return false;
        }
        let pushes = self.visited.label(place).pushes;
        if pushes != from.pushes {
            return false;
        }
        let position = self.visited.position(place);
        position == from.position
    }

    /// Whether a position was found with at most this many pushes.
    pub(crate) fn has_within(&self, position: &Position, pushes: u32) -> bool
        requires { FitsGrid self.now.boxes self.now.squares position.now }
        ensures { IsTrue result → IsFoundWithin self.now.entries pushes position.now }
    {
        match self.visited.find(position) {
            Some(place) => self.visited.label(place).pushes <= pushes,
            None => false,
        }
    }

    /// About [`SAMPLES`] of the open positions whose least total is at most `reach`. Which of them has no contract.
    /// Fails only if out of memory.
    pub(crate) fn samples(&self, alloc: Global, reach: u32) -> Result<Vec<Position>, AllocError> {
        let mut open = 0_usize;
        for place in 0..self.len() {
            open = open.saturating_add(usize::from(is_within(self.visited.label(place), reach)));
        }
        let stride = open / SAMPLES + 1;
        let mut samples = Vec::new(alloc);
        let mut left = 0;
        for place in 0..self.len() {
            if is_within(self.visited.label(place), reach) {
                if left == 0 {
                    samples.push(self.position(place))?;
                    left = stride;
                }
                left = left.saturating_sub(1);
            }
        }
        Ok(samples)
    }

    /// States that no position has two places.
    pub(crate) fn tell(&self)
        ensures { AreDistinct (map (λ (x : Node). x.position) self.now.entries) }
    {
        self.visited.tell();
    }
}

// Puts the tickets that were set aside back into the queue, except stale ones.
fn put_back(visited: &Visited, queue: &mut Queue) -> Result<(), AllocError>
    requires { IsQueued visited.now.entries (tickets queue.old) }
    ensures queued { IsQueued visited.now.entries (tickets queue.new) }
    ensures none { OnOk result (queue.new.aside.items ≡ []) }
{
    queue.reserve()?;
    while let Some(ticket) = queue.pop_aside() {
        insert_open(visited, queue, ticket);
        queue.reserve()?;
    }
    Ok(())
}

// Inserts the ticket, if its position is open with the ticket's total.
fn insert_open(visited: &Visited, queue: &mut Queue, ticket: Ticket)
    requires { heap_len queue.old.heap < heap_capacity queue.old.heap }
    ensures waits { (x : Node) → slice_get visited.now.entries ticket.place ≡ Some x →
        x.least ≡ Some ticket.least.0 → Waits (heap_items queue.new.heap) ticket.least.0 ticket.place }
    ensures others { StillWait (heap_items queue.old.heap) (heap_items queue.new.heap) }
    ensures aside { queue.new.aside.items ≡ queue.old.aside.items }
{
    let open = is_open(visited, ticket);
    if !open {
        return;
    }
    queue.insert(ticket);
}

// Whether the ticket's position is open with the ticket's total.
fn is_open(visited: &Visited, ticket: Ticket) -> bool
    ensures waits { IsTrue result →
        (x : Node) × (slice_get visited.now.entries ticket.place ≡ Some x) × (x.least ≡ Some ticket.least.0) }
    ensures closed { IsFalse result →
        (x : Node) → slice_get visited.now.entries ticket.place ≡ Some x → ¬ (x.least ≡ Some ticket.least.0) }
{
    let Ticket { least, place, .. } = ticket;
    if place >= visited.len() {
        return false;
    }
    has_least(visited.label(place), least.0)
}

// Whether the label has a least total of at most `reach`.
fn is_within(label: Label, reach: u32) -> bool
    ensures { IsTrue result → (least : ℕ) × (label.least ≡ Some least) × (least ≤ reach) }
{
    match label.least {
        Some(least) => least <= reach,
        None => false,
    }
}

// Whether the label has this least total.
fn has_least(label: Label, least: u32) -> bool
    ensures { IsTrue result ↔ (label.least ≡ Some least) }
{
    match label.least {
        Some(known) => known == least,
        None => false,
    }
}
