//! The end of a worker whose gate stops it, or whose book is foreign or refuses its parcel.
ghost use Rattle.std.specs.Prelude.{◌≡◌, true};
ghost use Rattle.claims.specs.Hands.{newcomer};

use super::draws::{FIRST, WORKERS, again, begun, one_number, worked, worked_over};
use crate::boards::{ONE, TWO_ENDS};
use crate::books::{AMPLE, book_of, level_of, start_of, turn};
use crew::{End, Free, Gate};
use layers::{Book, Layer, Refusal};
use std::alloc::Global;
use std::process::Abort;
use std::slice;
use std::sync::{Mutex, Wait};

/// A gate that stops a worker at its event of this number.
#[derive(Drop)]
struct ClosedGate {
    nth: u64,
}

impl Gate for ClosedGate {
    ghost may_stop = { true };

    fn pass(&self, _layer: u64, _worker: u8, nth: u64) -> bool {
        nth != self.nth
    }
}

/// A book of one share of a level, with these workers and this limit, that has begun layer 0.
fn book_for(rt: &impl Abort, alloc: Global, text: &[u8], limit: u32, workers: u8) -> Book {
    assert!(rt; limit >= 1);
    assert!(rt; workers >= 1 && workers <= 16);
    let level = level_of(rt, alloc, text);
    let mut book = Book::of(alloc, level, None, limit, workers, 0, 1).expect(rt, "a book");
    let layer = Layer::join(alloc, slice::from_ref(&book)).expect(rt, "a layer");
    book.begin(&layer).expect(rt, "a begin");
    book
}

/// The end of the worker of this number on a layer of one position with this book, and the book after it.
fn over_one<R: Wait + Abort, G: Gate>(
    rt: &R,
    alloc: Global,
    layer: &Layer,
    book: Book,
    worker: u8,
    gate: &G,
) -> (End, Book) {
    let (ledger, _, own) = one_number(rt, alloc);
    worked(rt, alloc, layer, book, &ledger, own, 1, worker, gate)
}

/// The end of the worker of this number on layer 0 of TWO_ENDS with this book, and whether the book is unchanged.
fn ended<R: Wait + Abort>(rt: &R, alloc: Global, book: Book, worker: u8) -> (End, bool) {
    let layer = start_of(rt, alloc, TWO_ENDS);
    let (end, mut book) = over_one(rt, alloc, &layer, book, worker, &Free);
    let kept = book.claim() == Some(FIRST);
    drop(book);
    (end, kept)
}

#[test]
fn a_gate_stops_a_worker_that_drew(rt: HostRuntime) {
    let alloc = rt.alloc();
    let (book, layer) = begun(&rt, alloc);
    let (ledger, mut other, own) = one_number(&rt, alloc);
    let gate = ClosedGate { nth: 1 };
    let (end, mut book) = worked(&rt, alloc, &layer, book, &ledger, own, 1, 0, &gate);
    assert!(rt; end == End::Stopped);
    assert!(rt; book.claim() == Some(FIRST), "the book is as it was");
    assert!(rt; ledger.enrol(&mut other, 1));
    assert!(rt; ledger.draw(&mut other).is_none(), "the rank was drawn");
    drop(book);
}

#[test]
fn a_gate_stops_a_worker_that_handed_back(rt: HostRuntime) {
    let alloc = rt.alloc();
    let (book, layer) = begun(&rt, alloc);
    let (end, mut book) = over_one(&rt, alloc, &layer, book, 0, &ClosedGate { nth: 2 });
    assert!(rt; end == End::Stopped);
    assert!(rt; again(&rt, alloc, &layer, &mut book) == Err(Refusal::Double));
    drop(book);
}

#[test]
fn a_book_of_another_level_is_foreign(rt: HostRuntime) {
    let alloc = rt.alloc();
    let book = book_for(&rt, alloc, ONE, AMPLE, WORKERS);
    assert!(rt; ended(&rt, alloc, book, 0) == (End::Foreign, true));
}

#[test]
fn a_book_at_another_layer_is_foreign(rt: HostRuntime) {
    let alloc = rt.alloc();
    let mut book = book_of(&rt, alloc, TWO_ENDS, AMPLE);
    turn(&rt, alloc, &mut book);
    let (end, _) = ended(&rt, alloc, book, 0);
    assert!(rt; end == End::Foreign);
}

#[test]
fn a_book_made_for_another_number_of_workers_is_foreign(rt: HostRuntime) {
    let alloc = rt.alloc();
    let fewer = book_for(&rt, alloc, TWO_ENDS, AMPLE, WORKERS - 1);
    assert!(rt; ended(&rt, alloc, fewer, 0) == (End::Foreign, true));
    let more = book_for(&rt, alloc, TWO_ENDS, AMPLE, WORKERS + 1);
    assert!(rt; ended(&rt, alloc, more, 0) == (End::Foreign, true));
}

#[test]
fn a_book_without_the_worker_is_foreign(rt: HostRuntime) {
    let alloc = rt.alloc();
    let book = book_for(&rt, alloc, TWO_ENDS, AMPLE, WORKERS);
    assert!(rt; ended(&rt, alloc, book, WORKERS) == (End::Foreign, true));
}

#[test]
fn a_book_at_its_limit_refuses(rt: HostRuntime) {
    let alloc = rt.alloc();
    // layer 0 has one position, which has two successors
    let book = book_for(&rt, alloc, TWO_ENDS, 2, WORKERS);
    let (end, _) = ended(&rt, alloc, book, 0);
    assert!(rt; end == End::Refused(Refusal::Over));
    let book = book_for(&rt, alloc, TWO_ENDS, 3, WORKERS);
    assert!(rt; ended(&rt, alloc, book, 0) == (End::Drained, false));
}

#[test]
fn a_rank_that_was_handed_back_is_refused(rt: HostRuntime) {
    let alloc = rt.alloc();
    let (mut book, layer) = begun(&rt, alloc);
    again(&rt, alloc, &layer, &mut book).expect(&rt, "an accepted parcel");
    let (end, _) = ended(&rt, alloc, book, 0);
    assert!(rt; end == End::Refused(Refusal::Double));
}

/// The book of share 0 of 2 of TWO_ENDS, which has begun layer 0 and is at its limit: the start and one of its two
/// successors are of this share.
fn full_share(rt: &impl Abort, alloc: Global) -> Book {
    let level = level_of(rt, alloc, TWO_ENDS);
    let mut book = Book::of(alloc, level, None, 1, WORKERS, 0, 2).expect(rt, "a book");
    book.begin(&start_of(rt, alloc, TWO_ENDS))
        .expect(rt, "a begin");
    book
}

/// How a worker ends its work on layer 0 of TWO_ENDS with two books, in this order.
fn ended_over<R: Wait + Abort>(rt: &R, alloc: Global, first: Book, second: Book) -> End {
    let layer = start_of(rt, alloc, TWO_ENDS);
    let (ledger, _, own) = one_number(rt, alloc);
    let mut locks = Vec::new(alloc);
    locks.push(Mutex::new(first)).expect(rt, "memory");
    locks.push(Mutex::new(second)).expect(rt, "memory");
    worked_over(
        rt,
        alloc,
        &layer,
        locks.as_slice(),
        &ledger,
        own,
        1,
        0,
        &Free,
    )
}

#[test]
fn the_first_book_that_does_not_accept_ends_the_worker(rt: HostRuntime) {
    let alloc = rt.alloc();
    let full = full_share(&rt, alloc);
    let other = book_for(&rt, alloc, ONE, AMPLE, WORKERS);
    assert!(rt; ended_over(&rt, alloc, full, other) == End::Refused(Refusal::Over));
    let full = full_share(&rt, alloc);
    let other = book_for(&rt, alloc, ONE, AMPLE, WORKERS);
    assert!(rt; ended_over(&rt, alloc, other, full) == End::Foreign);
}
