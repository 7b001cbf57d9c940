//! The number of positions that books hold.
ghost use Rattle.std.specs.Prelude.{◌≡◌, ◌≤◌};
ghost use Rattle.layers.specs.Holding.{held};

use crate::book::Book;

impl Book {
    /// The number of positions of the book, closed and open. Enters the pending successors first.
    pub fn positions(&mut self) -> u64
        ensures count { result ≡ held self.old }
        ensures same { self.new ≡ self.old }
    {
        self.found.count() as u64
    }

    /// A lower bound on the number of positions of the book, in constant time: it leaves out pending ones.
    pub fn positions_at_least(&self) -> u64
        ensures { result ≤ held self.now }
    {
        self.found.count_entered() as u64
    }

    /// Enters the pending successors if there are at least `least`, and returns whether it did. Contracts show pending
    /// successors as entered, so the book does not change.
    pub fn enter_pending(&mut self, least: usize) -> bool
        ensures { self.new ≡ self.old }
    {
        self.found.enter_pending(least)
    }

    /// Whether the book was marked over: it would have held more positions than its limit.
    pub fn is_over(&self) -> bool
        ensures { result ≡ self.now.over }
    {
        self.over
    }
}
