//! Merges the last closed lists of the books of several shares into one, by their origins.
ghost use Rattle.std.specs.Prelude.{◌≡◌, ◌<◌, ◌≤◌, ◌∷◌, List, IfOk, MatchOption, OnOk, length, map};
ghost use Rattle.layers.specs.declared.limits.TheConstants.{MOST_POSITIONS};
ghost use Rattle.successors.specs.Reaching.{total};
ghost use Rattle.store.specs.Entries.{Closed};
ghost use Rattle.layers.specs.BookView.{last_list};
ghost use Rattle.store.specs.inside.Copies.{IsCopied};
ghost use Rattle.layers.specs.inside.Merging.{AreMerged, HasLeastFirst, first_origin};

use crate::book::{Book, last_start};
use grid::{MAX_BOXES, Square};
use std::alloc::{AllocError, Global};
use std::marker::Model;
use store::{Found, Origin, recycled};

/// The rest of a book's last closed list during a merge.
#[derive(Drop)]
struct Rest<'a> {
    found: &'a Found,
    // the index of the first position of the rest, the end of the list, and the first one's origin
    index: usize,
    end: usize,
    first: Option<Origin>,
}

impl<'a> Model for Rest<'a> {
    ghost use Rattle.std.specs.Prelude.{◌≡◌, ◌≤◌, List, drop, length};
    ghost use Rattle.store.specs.Entries.{Closed};
    ghost use Rattle.store.specs.inside.Copies.{IsCopied};
    ghost use Rattle.layers.specs.inside.Merging.{first_origin};

    ghost Value = { List Closed };

    ghost view = { λ a. drop a.index a.found.now.seen };

    ghost invariant = { λ a. (a.index ≤ a.end) × (a.end ≡ length a.found.now.seen) ×
        (a.first ≡ first_origin (drop a.index a.found.now.seen)) };
}

impl<'a> Rest<'a> {
    // The last closed list, all of it.
    fn of(book: &'a Book) -> Rest<'a>
        ensures { result ≡ last_list book.now }
    {
        let index = last_start(book.starts.as_slice());
        Rest {
            found: &book.found,
            index,
            end: book.found.closed_len(),
            first: book.found.origin_at(index),
        }
    }

    // The number of positions.
    fn len(&self) -> usize
        ensures { result ≡ length self.now }
    {
        self.end - self.index
    }

    // The origin of the first position.
    fn first(&self) -> Option<Origin>
        ensures { result ≡ first_origin self.now }
    {
        self.first
    }

    // Copies the first position and removes it from the rest. Fails only if out of memory.
    fn take(
        &mut self,
        squares: &mut Vec<Square>,
        origins: &mut Vec<Origin>,
    ) -> Result<(), AllocError>
        requires { 0 < length self.old }
        ensures { OnOk result ((e : Closed) (rest : List Closed) → self.old ≡ e ∷ rest →
            (self.new ≡ rest) × IsCopied e squares.old.items squares.new.items origins.old.items origins.new.items) }
    {
        self.found.copy_at(self.index, squares, origins)?;
        self.index += 1;
        self.first = self.found.origin_at(self.index);
        Ok(())
    }
}

/// Merges the last closed lists of the books by their origins: the number of positions, their squares, in `memory`, and
/// their origins. Fails only if out of memory.
pub(crate) fn merge(
    alloc: Global,
    books: &[Book],
    boxes: usize,
    memory: Vec<Square>,
) -> Result<(usize, Vec<Square>, Vec<Origin>), AllocError>
    requires boxes { boxes ≤ MAX_BOXES }
    requires few { total (map last_list books.now) ≤ MOST_POSITIONS }
    ensures { IfOk result (λ r. AreMerged (map last_list books.now) r.0 r.1.items r.2.items) }
{
    let mut rests = rests_of(alloc, books)?;
    let count = count_all(rests.as_slice());
    let mut squares = recycled(alloc, memory, count.saturating_mul(boxes + 1))?;
    let mut origins = Vec::with_capacity(alloc, count)?;
    while let Some(index) = least_of(rests.as_slice()) {
        rests[index].take(&mut squares, &mut origins)?;
    }
    Ok((count, squares, origins))
}

// The last closed list of each book, all of it. Fails only if out of memory.
fn rests_of(alloc: Global, books: &[Book]) -> Result<Vec<Rest<'_>>, AllocError>
    ensures { IfOk result (λ rests. rests.items ≡ map last_list books.now) }
{
    let mut rests = Vec::with_capacity(alloc, books.len())?;
    for book in books {
        rests.push(Rest::of(book))?;
    }
    Ok(rests)
}

// The number of positions of all rests.
fn count_all(rests: &[Rest<'_>]) -> usize
    requires { total rests.now ≤ MOST_POSITIONS }
    ensures { result ≡ total rests.now }
{
    let mut count = 0;
    for index in 0..rests.len() {
        count += rests[index].len();
    }
    count
}

// The index of a rest whose first position has the least origin; `None` exactly if all rests are empty.
fn least_of(rests: &[Rest<'_>]) -> Option<usize>
    ensures { MatchOption result (total rests.now ≡ 0) (λ s. HasLeastFirst rests.now s) }
{
    let mut least = None;
    let mut bound = Origin::lowest();
    for index in 0..rests.len() {
        if let Some(origin) = rests[index].first() {
            if least.is_none() || origin.is_before(bound) {
                least = Some(index);
                bound = origin;
            }
        }
    }
    least
}
