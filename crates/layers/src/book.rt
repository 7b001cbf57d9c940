ghost use Rattle.std.specs.Prelude.{◌≡◌, ◌+◌, ◌-◌, ◌<◌, ◌≤◌, ◌↔◌, IsTrue, IfSome, MatchOption, length, slice_get};
ghost use Rattle.std.specs.Prelude.{slice_index_or, Some};
ghost use Rattle.layers.specs.BookView.{IsLawfulBook, last_layer};
ghost use Rattle.layers.specs.Books.{closed_place};
ghost use Rattle.layers.specs.inside.BookInside.{AreCuts, IsListPiece};

use crate::layer::Layer;
use crate::marks::Marks;
use grid::{Level, Position};
use std::marker::Model;
use std::sync::Arc;
use store::Found;
use successors::Problem;

// The length in words of two cache lines, which processors fetch together. Data of two workers at this distance share
// no cache line.
pub(crate) const APART: usize = 16;

/// A rank of a layer that a worker has claimed to expand.
#[derive(Clone, Copy, PartialEq, Eq, Debug)]
pub struct Claim {
    pub layer: u64,
    pub rank: u64,
}

/// A layer that a book has closed: its number, and the number of its positions in the book's share.
#[derive(Clone, Copy, PartialEq, Eq, Debug)]
pub struct Closed {
    pub layer: u64,
    pub count: u64,
}

/// One share of the layers of a problem: the closed layers, marks for the ranks of the last one while their successors
/// enter, and the open positions, which become the next layer.
#[derive(Drop)]
pub struct Book {
    pub(crate) problem: Arc<Problem>,
    pub(crate) limit: u32,
    pub(crate) workers: u8,
    pub(crate) share: u8,
    pub(crate) shares: u8,
    // fields that each parcel reads or writes are together, so that few cache lines move between processors
    pub(crate) begun: bool,
    pub(crate) over: bool,
    pub(crate) done: Marks,
    pub(crate) tallies: Vec<u64>,
    // the index of the first position of each closed layer
    pub(crate) starts: Vec<usize>,
    // the closed positions, layer after layer, and the open ones
    pub(crate) found: Found,
    pub(crate) claimed: Marks,
    // each rank below it is claimed or done
    pub(crate) next: usize,
    // keeps the next book in a list off the cache lines of this one
    pub(crate) apart: [u64; APART],
}

impl Model for Book {
    ghost use Rattle.layers.specs.BookView.{BookView};

    ghost Value = { BookView };

    ghost use Rattle.layers.specs.inside.BookInside.{book_view, IsSoundBook};

    ghost view = { book_view };

    ghost invariant = { IsSoundBook };
}

impl Book {
    /// A lemma: the invariant of every book. It does nothing.
    pub fn tell(&self)
        ensures { IsLawfulBook self.now }
    {
        let _ = &self.limit;
    }

    /// The level.
    pub fn level(&self) -> &Level
        ensures { result.now ≡ self.now.level.board }
    {
        self.problem.level()
    }

    /// The cap: the greatest number of pushes of a solution; `None` if no cap is set.
    pub fn cap(&self) -> Option<u32>
        ensures { result ≡ self.now.level.cap }
    {
        self.problem.cap()
    }

    /// Whether the book and a layer have the same level and cap.
    pub fn is_of_layer(&self, layer: &Layer) -> bool
        ensures { IsTrue result ↔ (self.now.level ≡ layer.now.level) }
    {
        self.problem.is(layer.problem())
    }

    /// The greatest number of closed and open positions.
    pub fn limit(&self) -> u32
        ensures { result ≡ self.now.limit }
    {
        self.limit
    }

    /// The number of workers.
    pub fn workers(&self) -> u8
        ensures { result ≡ self.now.workers }
    {
        self.workers
    }

    /// The number of the book's share, from 0.
    pub fn share(&self) -> u8
        ensures { result ≡ self.now.share }
    {
        self.share
    }

    /// The number of shares.
    pub fn shares(&self) -> u8
        ensures { result ≡ self.now.shares }
    {
        self.shares
    }

    /// The number of the last closed layer.
    pub fn layer(&self) -> u64
        ensures { result ≡ last_layer self.now }
    {
        self.starts.len() as u64 - 1
    }

    /// Whether the last closed layer has begun.
    pub fn has_begun(&self) -> bool
        ensures { result ≡ self.now.begun }
    {
        self.begun
    }

    /// The number of ranks that the worker has handed back. `worker` is less than [`Book::workers`].
    pub fn tally(&self, worker: u8) -> u64
        requires { worker < self.now.workers }
        ensures { result ≡ slice_index_or self.now.tallies worker 0 }
    {
        self.tallies[worker as usize]
    }

    /// The position at an index of a closed layer's list; `None` beyond the closed lists.
    pub fn closed_at(&self, layer: u64, index: u64) -> Option<Position>
        ensures { result ≡ closed_place self.now.closed layer index }
    {
        let (from, to) = piece_of(self.starts.as_slice(), self.found.closed_len(), layer)?;
        if index >= (to - from) as u64 {
            return None;
        }
        self.found.closed_at(from + index as usize)
    }
}

// The bounds of a piece of a list that is cut at the indices `starts`; `None` beyond the pieces.
fn piece_of(starts: &[usize], len: usize, piece: u64) -> Option<(usize, usize)>
    requires { AreCuts starts.now len }
    ensures piece { MatchOption result (length starts.now ≤ piece) (λ r. IsListPiece starts.now len piece r.0 r.1) }
    ensures order { IfSome result (λ r. (r.0 ≤ r.1) × (r.1 ≤ len)) }
{
    let from = *starts.get(piece as usize)?;
    match starts.get(piece as usize + 1) {
        Some(to) => Some((from, *to)),
        None => Some((from, len)),
    }
}

// The first index of the last piece of a list that is cut at the indices `starts`.
pub(crate) fn last_start(starts: &[usize]) -> usize
    requires { 0 < length starts.now }
    ensures { slice_get starts.now (length starts.now - 1) ≡ Some result }
{
    starts[starts.len() - 1]
}
