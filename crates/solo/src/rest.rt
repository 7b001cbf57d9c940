//! The ranks that several workers left in books, within the limit over all books together.
ghost use Rattle.std.specs.Prelude.{◌≡◌, ◌+◌, ◌<◌, ◌≤◌, ℕ, Some, true, IfNone, IfOk, IfSome, MatchBool, OnOk, length};
ghost use Rattle.std.specs.Prelude.{slice_get};
ghost use Rattle.successors.specs.declared.limits.TheConstants.{MAX_SHARES};
ghost use Rattle.layers.specs.BookView.{BookView, AreLawfulBooks, IsLawfulBook};
ghost use Rattle.layers.specs.Books.{AllDone, HasBegun};
ghost use Rattle.layers.specs.Holding.{all_held, held};
ghost use Rattle.solo.specs.inside.Together.{AreAllDone, AreStill, IsFullBook, IsOneOver, IsStill, PassTogether};
ghost use Rattle.solo.specs.inside.Iterations.{AreDoneBy, IsDoneBy};

use crate::ranks::do_ranks;
use area::Scratch;
use layers::{Book, Layer};
use std::alloc::AllocError;

// Does the ranks of the last closed layer that are left in one of the books. Returns `false` if the book is over or
// gained more than `left` positions.
pub(crate) fn do_rest_of(
    book: &mut Book,
    layer: &Layer,
    scratch: &mut Scratch,
    worker: u8,
    left: u64,
) -> Result<bool, AllocError>
    requires few { left ≤ 4294967295 }
    requires begun { HasBegun book.old layer.now }
    requires worker { worker < book.old.workers }
    requires room { scratch.old.size ≡ length layer.now.level.board.cells }
    ensures still { IsStill layer.now book.old book.new }
    ensures credited { IsDoneBy worker book.old book.new }
    ensures within { IfOk result
        (λ within. MatchBool within (AllDone book.new) (IsFullBook (held book.old + left) book.new)) }
    ensures lawful { OnOk result (IsLawfulBook book.new) }
    ensures size { scratch.new.size ≡ scratch.old.size }
{
    book.tell();
    layer.tell();
    let most = book.positions() + left;
    book.reopen();
    let within = do_ranks(book, layer, scratch, worker, most)?;
    book.tell();
    Ok(within)
}

// The number of positions left up to the limit over all books; `None` if one of them is over, or all together hold
// more.
pub(crate) fn left_of(books: &mut [Book], limit: u32) -> Option<u64>
    requires few { length books.old ≤ MAX_SHARES }
    ensures left { IfSome result (λ left. left + all_held books.new ≡ limit) }
    ensures passed { IfNone result (PassTogether limit books.new) }
    ensures lawful { AreLawfulBooks books.new }
    ensures same { books.new ≡ books.old }
{
    let all = count_all(books);
    if is_one_over(books) {
        return None;
    }
    if all > u64::from(limit) {
        return None;
    }
    Some(u64::from(limit) - all)
}

// Whether one of the books is over.
fn is_one_over(books: &[Book]) -> bool
    ensures { result ≡ true → IsOneOver books.now }
{
    for index in 0..books.len() {
        if books[index].is_over() {
            return true;
        }
    }
    false
}

// The number of positions of all books together.
fn count_all(books: &mut [Book]) -> u64
    requires few { length books.old ≤ MAX_SHARES }
    ensures lawful { AreLawfulBooks books.new }
    ensures count { result ≡ all_held books.new }
    ensures same { books.new ≡ books.old }
{
    let mut all = 0;
    for index in 0..books.len() {
        books[index].tell();
        all += books[index].positions();
    }
    all
}
