//! The ranks of a layer in the books of a search. These functions fail only if out of memory.
ghost use Rattle.std.specs.Prelude.{◌≡◌, ◌<◌, ℕ, Some, false, length, slice_get};
ghost use Rattle.std.specs.Prelude.{IfOk, MatchBool, OnErr, OnOk};
ghost use Rattle.layers.specs.BookView.{BookView};
ghost use Rattle.layers.specs.Books.{AllDone, AreAllShares, IsAtWork, IsJoinOf, MayBegin, with_begun, with_parcel};
ghost use Rattle.solo.specs.inside.Rests.{IsClosedIfDone, MayBeClosed, MayBeClosedEach};
ghost use Rattle.solo.specs.inside.Iterations.{HaveBegun, HaveChanged, IsDoneBy, IsReopenedAt, IsStillAt};
ghost use Rattle.solo.specs.inside.Iterations.{MayHaveBegun, with_over};
ghost use Rattle.solo.specs.inside.Together.{IsFullBook};

use area::Scratch;
use grid::Square;
use layers::{
    BeginFault, Book, CloseFault, JoinFault, Layer, Parcel, Refusal, expand_over, expand_over_into,
};
use std::alloc::{AllocError, Global};

/// The last closed layer of the books, which are all the shares in order. Its squares reuse `memory`.
pub fn last_layer(alloc: Global, books: &[Book], memory: Vec<Square>) -> Result<Layer, AllocError>
    requires { AreAllShares books.now }
    ensures { IfOk result (λ layer. IsJoinOf books.now layer) }
{
    match Layer::join_in(alloc, books, memory) {
        Ok(layer) => Ok(layer),
        Err(JoinFault::NotWhole) => unreachable!(),
        Err(JoinFault::OutOfMemory) => Err(AllocError),
    }
}

/// Opens the ranks of the last closed layer in each book. After an error some books have begun, and the others are
/// unchanged.
pub fn begin_each(books: &mut [Book], layer: &Layer) -> Result<(), AllocError>
    requires { (i : ℕ) (v : BookView) → slice_get books.old i ≡ Some v → MayBegin v layer.now }
    ensures ok { OnOk result (HaveBegun books.old (length layer.now.places) books.new) }
    ensures err { OnErr result (MayHaveBegun books.old (length layer.now.places) books.new) }
{
    for index in 0..books.len() {
        begin(&mut books[index], layer)?;
    }
    Ok(())
}

// Opens the ranks of the last closed layer. An error leaves the book unchanged.
fn begin(book: &mut Book, layer: &Layer) -> Result<(), AllocError>
    requires { MayBegin book.old layer.now }
    ensures ok { OnOk result (book.new ≡ with_begun book.old (length layer.now.places)) }
    ensures err { OnErr result (book.new ≡ book.old) }
{
    match book.begin(layer) {
        Ok(()) => Ok(()),
        Err(BeginFault::OutOfMemory) => Err(AllocError),
        Err(_) => unreachable!(),
    }
}

// Does each rank that is not done; none of these is claimed. Returns `false` if the book is over or holds more than
// `most` positions.
pub(crate) fn do_ranks(
    book: &mut Book,
    layer: &Layer,
    scratch: &mut Scratch,
    worker: u8,
    most: u64,
) -> Result<bool, AllocError>
    requires reopened { IsReopenedAt layer.now book.old }
    requires worker { worker < book.old.workers }
    requires room { scratch.old.size ≡ length layer.now.level.board.cells }
    ensures still { IsStillAt book.old layer.now book.new }
    ensures done { IfOk result (λ within. MatchBool within (AllDone book.new) (IsFullBook most book.new)) }
    ensures credited { IsDoneBy worker book.old book.new }
    ensures size { scratch.new.size ≡ scratch.old.size }
{
    let Some(first) = book.claim() else {
        return Ok(true);
    };
    let mut parcel = expand_over(layer.problem(), layer, first.rank, scratch);
    loop {
        if !enter(book, worker, &parcel)? {
            return Ok(false);
        }
        if book.positions_at_least() > most {
            return Ok(false);
        }
        let Some(claim) = book.claim() else {
            return Ok(true);
        };
        let rank = claim.rank;
        expand_over_into(layer.problem(), layer, rank, scratch, &mut parcel);
    }
}

// Enters the successors of a rank. Returns `false` if the book would hold more positions than its limit; this marks it
// over.
fn enter(book: &mut Book, worker: u8, parcel: &Parcel<'_>) -> Result<bool, AllocError>
    requires work { IsAtWork book.old parcel.now }
    requires free { slice_get book.old.done parcel.now.rank ≡ Some false }
    requires worker { worker < book.old.workers }
    ensures ok { IfOk result
        (λ within. MatchBool within (book.new ≡ with_parcel book.old worker parcel.now)
        (book.new ≡ with_over book.old)) }
    ensures err { OnErr result (book.new ≡ book.old) }
{
    match book.hand_back_own(worker, parcel) {
        Ok(()) => Ok(true),
        Err(Refusal::Over) => Ok(false),
        Err(Refusal::OutOfMemory) => Err(AllocError),
        Err(_) => unreachable!(),
    }
}

/// Closes the next layer before [`close_rest`] does, if each rank is done. Otherwise, or if out of memory, the book
/// stays unchanged.
pub fn close_ahead(book: &mut Book)
    ensures { MayBeClosed book.old book.new }
{
    let _ = book.close();
}

/// Closes the next layer in each book whose ranks are all done. The other books, among them those that have closed it
/// already, stay unchanged. After an error some books have closed it, and the others are unchanged.
pub fn close_rest(books: &mut [Book]) -> Result<(), AllocError>
    ensures ok { OnOk result (HaveChanged IsClosedIfDone books.old books.new) }
    ensures err { OnErr result (MayBeClosedEach books.old books.new) }
{
    for index in 0..books.len() {
        close(&mut books[index])?;
    }
    Ok(())
}

// Closes the next layer, if each rank is done. Otherwise, or after an error, the book stays unchanged.
fn close(book: &mut Book) -> Result<(), AllocError>
    ensures ok { OnOk result (IsClosedIfDone book.old book.new) }
    ensures err { OnErr result (book.new ≡ book.old) }
{
    match book.close() {
        Ok(_) => Ok(()),
        Err(CloseFault::NotAll) => Ok(()),
        Err(CloseFault::OutOfMemory) => Err(AllocError),
    }
}
