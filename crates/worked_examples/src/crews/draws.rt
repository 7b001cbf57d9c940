//! One worker with a ledger.
ghost use Rattle.std.specs.Prelude.{◌≡◌, false};
ghost use Rattle.claims.specs.Hands.{newcomer};

use crate::boards::{LARGE_ROOM, TWO_ENDS};
use crate::books::{AMPLE, book_of, hand_back, joined, level_of, turn};
use area::Scratch;
use claims::{Drawer, Ledger, PLACES};
use crew::{End, Free, Gate, work};
use layers::{Book, Claim, CloseFault, Layer, Refusal, expand_over};
use std::alloc::Global;
use std::process::Abort;
use std::slice;
use std::sync::atomic::{AtomicU64, Ordering};
use std::sync::{Mutex, Wait};

/// The number of workers of the books.
pub(super) const WORKERS: u8 = 3;

/// The claim of the first rank.
pub(super) const FIRST: Claim = Claim { layer: 0, rank: 0 };

/// A book that has begun layer 0, and that layer, which has one position.
pub(super) fn begun(rt: &impl Abort, alloc: Global) -> (Book, Layer) {
    let level = level_of(rt, alloc, TWO_ENDS);
    let mut book = Book::of(alloc, level, None, 1_000_000, WORKERS, 0, 1).expect(rt, "a book");
    let layer = Layer::join(alloc, slice::from_ref(&book)).expect(rt, "a layer");
    book.begin(&layer).expect(rt, "a begin");
    (book, layer)
}

/// A ledger of one number, and two drawers.
pub(super) fn one_number(rt: &impl Abort, alloc: Global) -> (Ledger, Drawer, Drawer)
    ensures len { result.0.len ≡ 1 }
    ensures drawers { (result.1 ≡ newcomer result.0) × (result.2 ≡ newcomer result.0) }
{
    let (ledger, drawer) = Ledger::new(alloc, 1).expect(rt, "memory");
    let (first, second) = ledger.split(drawer);
    (ledger, first, second)
}

/// The end of a worker with a ledger of `count` numbers, and the book after it.
pub(super) fn worked<R: Wait + Abort, G: Gate>(
    rt: &R,
    alloc: Global,
    layer: &Layer,
    book: Book,
    ledger: &Ledger,
    drawer: Drawer,
    count: u32,
    worker: u8,
    gate: &G,
) -> (End, Book)
    requires len { ledger.now.len ≡ count }
    requires drawer { drawer ≡ newcomer ledger.now }
{
    let lock = Mutex::new(book);
    let books = slice::from_ref(&lock);
    let end = worked_over(rt, alloc, layer, books, ledger, drawer, count, worker, gate);
    (end, lock.into_inner())
}

/// `worked` with several books.
pub(super) fn worked_over<R: Wait + Abort, G: Gate>(
    rt: &R,
    alloc: Global,
    layer: &Layer,
    books: &[Mutex<Book>],
    ledger: &Ledger,
    drawer: Drawer,
    count: u32,
    worker: u8,
    gate: &G,
) -> End
    requires len { ledger.now.len ≡ count }
    requires drawer { drawer ≡ newcomer ledger.now }
{
    assert!(rt; layer.len() >= u64::from(count));
    assert!(rt; worker < PLACES);
    let mut scratch = Scratch::new(alloc, layer.level()).expect(rt, "memory");
    let mut own = drawer;
    work(
        rt,
        layer,
        books,
        ledger,
        &mut own,
        WORKERS,
        worker,
        &mut scratch,
        gate,
    )
}

/// The result of handing back the parcel of the first rank.
pub(super) fn again(
    rt: &impl Abort,
    alloc: Global,
    layer: &Layer,
    book: &mut Book,
) -> Result<(), Refusal> {
    assert!(rt; layer.len() >= 1);
    assert!(rt; book.workers() >= 1);
    let mut scratch = Scratch::new(alloc, layer.level()).expect(rt, "memory");
    let parcel = expand_over(layer.problem(), layer, 0, &mut scratch);
    book.hand_back(0, &parcel)
}

#[test]
fn a_worker_draws_its_ranks_from_the_ledger(rt: HostRuntime) {
    let alloc = rt.alloc();
    let (book, layer) = begun(&rt, alloc);
    let (ledger, mut other, own) = one_number(&rt, alloc);
    assert!(rt; ledger.enrol(&mut other, 1) && ledger.draw(&mut other) == Some(0));
    let (end, mut book) = worked(&rt, alloc, &layer, book, &ledger, own, 1, 0, &Free);
    assert!(rt; end == End::Drained);
    assert!(rt; book.claim() == Some(FIRST), "the book is as it was");
    drop(book);
}

#[test]
fn a_worker_does_what_it_drew(rt: HostRuntime) {
    let alloc = rt.alloc();
    let (book, layer) = begun(&rt, alloc);
    let (ledger, _, own) = one_number(&rt, alloc);
    let (end, mut book) = worked(&rt, alloc, &layer, book, &ledger, own, 1, 0, &Free);
    assert!(rt; end == End::Drained);
    assert!(rt; book.claim().is_none());
    assert!(rt; again(&rt, alloc, &layer, &mut book) == Err(Refusal::Double));
    let closed = book.close().expect(&rt, "a close");
    assert!(rt; closed.layer == 1 && closed.count == 2);
    drop(book);
}

/// Checks that a worker that draws one of two ranks leaves the other one unclaimed.
fn check_two(rt: &(impl Wait + Abort), alloc: Global, layer: &Layer, book: Book) {
    let (ledger, _, own) = one_number(rt, alloc);
    let (end, mut book) = worked(rt, alloc, layer, book, &ledger, own, 1, 0, &Free);
    assert!(rt; end == End::Drained);
    assert!(rt;
        book.claim() == Some(Claim { layer: 1, rank: 1 }),
        "the worker claims no rank"
    );
    assert!(rt; book.claim().is_none());
    drop(book);
}

#[test]
fn a_worker_claims_no_rank_of_a_book(rt: HostRuntime) {
    let alloc = rt.alloc();
    let mut book = book_of(&rt, alloc, TWO_ENDS, AMPLE);
    turn(&rt, alloc, &mut book);
    let layer = joined(&rt, alloc, &book);
    assert!(rt; layer.len() == 2);
    book.begin(&layer).expect(&rt, "a begin");
    check_two(&rt, alloc, &layer, book);
}

/// The number of ranks of layer 4 of the large room that the worker draws: all except the last one.
const DRAWN: u32 = 2218;

/// A gate that counts the events after which the lock of each book is free.
#[derive(Drop)]
struct FreeLocks<'a> {
    books: &'a [Mutex<Book>],
    free: AtomicU64,
}

impl Gate for FreeLocks<'_> {
    ghost may_stop = { false };

    fn pass(&self, _layer: u64, _worker: u8, _nth: u64) -> bool {
        for book in self.books {
            if book.try_lock().is_none() {
                return true;
            }
        }
        self.free.fetch_add(1, Ordering::SeqCst);
        true
    }
}

/// A book of the large room that has closed its layer 4.
fn large_book(rt: &impl Abort, alloc: Global) -> Book {
    let mut book = book_of(rt, alloc, LARGE_ROOM, AMPLE);
    for _ in 0..4 {
        turn(rt, alloc, &mut book);
    }
    book
}

/// Begins a layer of a book and claims each of its ranks.
fn claim_all(rt: &impl Abort, book: &mut Book, layer: &Layer) {
    book.begin(layer).expect(rt, "a begin");
    for rank in 0..layer.len() {
        let layer = layer.number();
        assert!(rt; book.claim() == Some(Claim { layer, rank }));
    }
}

/// Lets worker 2 work alone on the ranks of a layer that it draws, and checks that the locks are free at each event.
fn check_alone<R: Wait + Abort>(rt: &R, alloc: Global, layer: &Layer, books: &[Mutex<Book>]) {
    let gate = FreeLocks {
        books,
        free: AtomicU64::new(0),
    };
    let (ledger, own) = Ledger::new(alloc, DRAWN).expect(rt, "memory");
    let end = worked_over(rt, alloc, layer, books, &ledger, own, DRAWN, 2, &gate);
    assert!(rt; end == End::Drained);
    assert_eq!(rt; gate.free.load(Ordering::SeqCst), 2 * u64::from(DRAWN));
}

/// The book after worker 2 has worked alone with it.
fn alone<R: Wait + Abort>(rt: &R, alloc: Global, layer: &Layer, book: Book) -> Book {
    let lock = Mutex::new(book);
    check_alone(rt, alloc, layer, slice::from_ref(&lock));
    lock.into_inner()
}

/// Checks that worker 2 has handed back each rank that it drew, under its own number, and that all ranks are still
/// claimed.
fn check_large(rt: &impl Abort, alloc: Global, layer: &Layer, book: &mut Book) {
    assert!(rt; book.workers() == WORKERS);
    assert_eq!(rt;
        [book.tally(0), book.tally(1), book.tally(2)],
        [830, 0, 2218]
    );
    assert!(rt; book.claim().is_none());
    assert!(rt; matches!(book.close(), Err(CloseFault::NotAll)));
    hand_back(rt, alloc, book, layer, u64::from(DRAWN));
    let closed = book.close().expect(rt, "a close");
    assert!(rt; closed.layer == 5 && closed.count == 5533);
}

#[test]
fn a_worker_hands_back_each_rank_that_it_drew_of_a_large_layer(rt: HostRuntime) {
    let alloc = rt.alloc();
    let mut book = large_book(&rt, alloc);
    let layer = joined(&rt, alloc, &book);
    assert!(rt; layer.len() == u64::from(DRAWN) + 1);
    claim_all(&rt, &mut book, &layer);
    let mut book = alone(&rt, alloc, &layer, book);
    check_large(&rt, alloc, &layer, &mut book);
    drop(book);
}

#[test]
fn a_place_is_taken(rt: HostRuntime) {
    let alloc = rt.alloc();
    let (book, layer) = begun(&rt, alloc);
    let (ledger, mut other, own) = one_number(&rt, alloc);
    assert!(rt; ledger.enrol(&mut other, 0));
    let (end, mut book) = worked(&rt, alloc, &layer, book, &ledger, own, 1, 0, &Free);
    assert!(rt; end == End::NoPlace);
    assert!(rt; book.claim() == Some(FIRST), "the book is as it was");
    assert!(rt;
        ledger.draw(&mut other) == Some(0),
        "the worker drew nothing"
    );
    drop(book);
}
