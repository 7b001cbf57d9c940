//! Closing the next layer in several books side by side.
ghost use Rattle.std.specs.Prelude.{◌≡◌, ◌<◌, ◌≤◌, ℕ, IfOk, Some, length, slice_get};
ghost use Rattle.layers.specs.BookView.{BookView};
ghost use Rattle.solo.specs.inside.Rests.{MayBeClosed, MayBeClosedEach};
ghost use Rattle.successors.specs.declared.limits.TheConstants.{MAX_SHARES};
ghost use Rattle.solo.specs.inside.Iterations.{AreWorkingOn};
ghost use Rattle.crew.specs.inside.Iterations.{AreFinished};

use crate::config::Config;
use layers::{Book, Layer};
use solo::{Search, close_ahead, close_rest};
use spreading::for_each_spread;
use std::alloc::AllocError;
use std::thread::Threads;

// The least number of positions of a layer after which the books close side by side. After a smaller layer a close
// takes less time than the start of a thread.
const SIDE_BY_SIDE: u64 = 4096;

// The greatest number of books that close side by side: each takes memory to sort what it closes.
const MOST: u8 = 4;

// Does what is left of the layer in each of the books, under the caller's own number, and then closes the next layer in
// each. If one book is over, or if all books hold more positions together than the limit, it closes none and returns
// `false`. Books may close side by side.
pub(crate) fn finish_all<R: Threads + Sync>(
    rt: &R,
    config: Config,
    books: &mut [Book],
    layer: &Layer,
    search: &mut Search<'_>,
) -> Result<bool, AllocError>
    requires level { layer.now.level ≡ search.old.problem }
    requires few { length books.old ≤ MAX_SHARES }
    requires working { AreWorkingOn layer.now books.old }
    requires worker { (i : ℕ) (v : BookView) → slice_get books.old i ≡ Some v → config.workers < v.workers }
    ensures finished { IfOk result (λ within. AreFinished search.old.limit books.old layer.now within books.new) }
    ensures same { search.new ≡ search.old }
{
    // the caller's own number is the last one
    let own = config.workers;
    let Some(_) = search.do_rest(books, layer, own)? else {
        return Ok(false);
    };
    close_side_by_side(rt, books, layer, own);
    close_rest(books)?;
    Ok(true)
}

// If the layer is large, closes the next one in each of the books whose ranks are all done, up to `workers` of them
// side by side. A book that runs out of memory stays unchanged.
fn close_side_by_side<R: Threads + Sync>(rt: &R, books: &mut [Book], layer: &Layer, workers: u8)
    ensures { MayBeClosedEach books.old books.new }
{
    if books.len() < 2 || layer.len() < SIDE_BY_SIDE {
        return;
    }
    close_in_rounds(rt, books, workers.clamp(1, MOST) as usize);
}

// Closes the next layer in each of the books whose ranks are all done, `many` of them side by side.
fn close_in_rounds<R: Threads + Sync>(rt: &R, books: &mut [Book], many: usize)
    requires { 1 ≤ many }
    ensures { MayBeClosedEach books.old books.new }
{
    if books.is_empty() {
        return;
    }
    let (next, rest) = books.split_at_mut(many.min(books.len()));
    close_each(rt, next);
    close_in_rounds(rt, rest, many);
}

// Closes the next layer in each of the books whose ranks are all done, each in a thread of its own if one can start.
fn close_each<R: Threads + Sync>(rt: &R, books: &mut [Book])
    ensures { MayBeClosedEach books.old books.new }
{
    let threads = books.len();
    for_each_spread(
        rt,
        books,
        threads,
        &|_, book: &mut Book|
            ensures { MayBeClosed book.entry.now book.exit.now }
        { close_ahead(book) },
    );
}
