ghost use Rattle.std.specs.Prelude.{◌≡◌, ◌↔◌, ℕ, IsTrue, IfOk, MatchOption, MatchResult, ◌≤◌, Some, ◌∷◌, []};
ghost use Rattle.std.specs.Prelude.{map, slice_get};
ghost use Rattle.grid.specs.Lawful.{box_count};
ghost use Rattle.layers.specs.declared.limits.TheConstants.{MOST_POSITIONS};
ghost use Rattle.successors.specs.Reaching.{total};
ghost use Rattle.std.specs.Bool.{MatchBool};
ghost use Rattle.layers.specs.BookView.{AreLawfulBooks, last_layer, last_list};
ghost use Rattle.layers.specs.Books.{AreAllShares, IsJoinOf, IsShareBeside, JoinRefused};
ghost use Rattle.layers.specs.inside.Merging.{AreMerged};

use crate::book::{Book, last_start};
use crate::fault::JoinFault;
use crate::layer::Layer;
use crate::merging::merge;
use grid::{MAX_BOXES, Square};
use std::alloc::{AllocError, Global};
use std::sync::Arc;
use store::Origin;

impl Layer {
    /// The last closed layer of the books, which must be all the shares in order. Fails with [`JoinFault::NotWhole`]
    /// if they are not, and with [`JoinFault::OutOfMemory`].
    pub fn join(alloc: Global, books: &[Book]) -> Result<Layer, JoinFault>
        ensures { MatchResult result (λ layer. IsJoinOf books.now layer) (λ fault. JoinRefused books.now fault) }
    {
        Layer::join_in(alloc, books, Vec::new(alloc))
    }

    /// The layer that [`Layer::join`] gives. Its squares reuse the memory of an earlier layer
    /// ([`Parents::of`](crate::Parents::of)), so that a search does not allocate for each layer.
    pub fn join_in(alloc: Global, books: &[Book], memory: Vec<Square>) -> Result<Layer, JoinFault>
        ensures { MatchResult result (λ layer. IsJoinOf books.now layer) (λ fault. JoinRefused books.now fault) }
    {
        let Some(first) = first_of_all(books) else {
            return Err(JoinFault::NotWhole);
        };
        Ok(join_all(alloc, books, first, memory)?)
    }
}

// The first of the books, if they are all the shares in order.
fn first_of_all(books: &[Book]) -> Option<&Book>
    ensures { MatchOption result (¬ (AreAllShares books.now)) (λ first. (slice_get books.now 0 ≡ Some first.now) ×
        AreAllShares books.now) }
{
    let first = books.first()?;
    if !are_all_shares(books, first) {
        return None;
    }
    Some(first)
}

// Whether the books, of which `first` is the first, are all the shares in order.
fn are_all_shares(books: &[Book], first: &Book) -> bool
    requires { slice_get books.now 0 ≡ Some first.now }
    ensures { MatchBool result (AreAllShares books.now) (¬ (AreAllShares books.now)) }
{
    if books.len() != first.shares() as usize {
        return false;
    }
    for index in 0..books.len() {
        if !books[index].is_share_beside(first, index) {
            return false;
        }
    }
    true
}

// The last closed layer of all the shares, of which `first` is the first.
fn join_all(
    alloc: Global,
    books: &[Book],
    first: &Book,
    memory: Vec<Square>,
) -> Result<Layer, AllocError>
    requires first { slice_get books.now 0 ≡ Some first.now }
    requires all { AreAllShares books.now }
    ensures { IfOk result (λ layer. IsJoinOf books.now layer) }
{
    tell_all(books);
    let boxes = first.boxes();
    let rows = merged_rows(alloc, books, boxes, memory)?;
    layer_of(books, first, rows)
}

// The last closed layer of all the shares, of which `first` is the first, from the number of its positions, their
// squares and their origins.
fn layer_of(
    books: &[Book],
    first: &Book,
    rows: (usize, Vec<Square>, Vec<Origin>),
) -> Result<Layer, AllocError>
    requires first { slice_get books.now 0 ≡ Some first.now }
    requires all { AreAllShares books.now }
    requires rows { AreMerged (map last_list books.now) rows.0 rows.1.items rows.2.items }
    ensures { IfOk result (λ layer. IsJoinOf books.now layer) }
{
    tell_all(books);
    let (count, squares, origins) = rows;
    let problem = Arc::try_clone(&first.problem)?;
    let number = first.layer();
    Ok(Layer {
        problem,
        number,
        count,
        squares,
        origins,
    })
}

// Merges the last closed lists of the books by their origins: the number of positions, their squares, in `memory`, and
// their origins.
fn merged_rows(
    alloc: Global,
    books: &[Book],
    boxes: usize,
    memory: Vec<Square>,
) -> Result<(usize, Vec<Square>, Vec<Origin>), AllocError>
    requires boxes { boxes ≤ MAX_BOXES }
    requires few { total (map last_list books.now) ≤ MOST_POSITIONS }
    ensures { IfOk result (λ r. AreMerged (map last_list books.now) r.0 r.1.items r.2.items) }
{
    match books {
        [book] => book.last_rows(alloc, memory),
        _ => merge(alloc, books, boxes, memory),
    }
}

// A lemma: the invariant of each book. It does nothing.
fn tell_all(books: &[Book])
    ensures { AreLawfulBooks books.now }
{
    for index in 0..books.len() {
        books[index].tell();
    }
}

impl Book {
    // The number of boxes of a position.
    pub(crate) fn boxes(&self) -> usize
        ensures boxes { result ≡ box_count self.now.level.board }
        ensures few { result ≤ MAX_BOXES }
    {
        self.problem.boxes()
    }

    // Whether the book is the share with number `index` of the same books as `first`.
    fn is_share_beside(&self, first: &Book, index: usize) -> bool
        ensures { IsTrue result ↔ IsShareBeside first.now index self.now }
    {
        if self.share as usize != index || !self.problem.is(&first.problem) {
            return false;
        }
        if self.limit != first.limit || self.shares != first.shares {
            return false;
        }
        self.starts.len() == first.starts.len()
    }

    // The number of positions of the last closed list, their squares, in `memory`, and their origins.
    fn last_rows(
        &self,
        alloc: Global,
        memory: Vec<Square>,
    ) -> Result<(usize, Vec<Square>, Vec<Origin>), AllocError>
        ensures { IfOk result (λ r. AreMerged (last_list self.now ∷ []) r.0 r.1.items r.2.items) }
    {
        let from = last_start(self.starts.as_slice());
        let count = self.found.closed_len() - from;
        let (squares, origins) = self.found.closed_from(alloc, from, memory)?;
        Ok((count, squares, origins))
    }
}
