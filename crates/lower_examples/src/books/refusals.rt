//! The errors of a book for doubled, late, foreign and unclaimed parcels, and at its limit.
use super::{AMPLE, book_of, hand_back, joined, start_of, tally, work_through};
use crate::boards::{ONE, TWO_ENDS};
use layers::{BeginFault, Book, Claim, CloseFault, Closed, Layer, Refusal};
use std::alloc::Global;
use std::process::Abort;

/// The layer of a parcel: the last one that the book has closed, layer 0, or layer 0 of another level.
#[derive(Clone, Copy)]
enum ParcelLayer {
    Last,
    First,
    Foreign,
}

/// A call of a book, with its result.
#[derive(Clone, Copy)]
enum BookCall {
    /// Begins its last layer.
    Begins(Result<(), BeginFault>),
    /// Claims a rank.
    Claims(Option<Claim>),
    /// Hands back the parcel of a rank, for a worker.
    Takes(ParcelLayer, u8, u64, Result<(), Refusal>),
    /// Frees all claims.
    Reopens,
    /// Closes the next layer.
    Closes(Result<Closed, CloseFault>),
    /// Reads its last layer, whether it has begun, and the number of ranks that each worker has handed back.
    Tells(u64, bool, [u64; 3]),
}

/// A parcel twice, and then one of another level.
const ONCE: &[BookCall] = &[
    BookCall::Begins(Ok(())),
    BookCall::Takes(ParcelLayer::Last, 1, 0, Ok(())),
    BookCall::Tells(0, true, [0, 1, 0]),
    BookCall::Takes(ParcelLayer::Last, 2, 0, Err(Refusal::Double)),
    BookCall::Tells(0, true, [0, 1, 0]),
    BookCall::Takes(ParcelLayer::Foreign, 0, 0, Err(Refusal::OtherLevel)),
    BookCall::Tells(0, true, [0, 1, 0]),
    BookCall::Closes(Ok(Closed { layer: 1, count: 2 })),
    BookCall::Tells(1, false, [0, 1, 0]),
];

/// A claim that never comes back.
const CLAIMED: &[BookCall] = &[
    BookCall::Claims(None),
    BookCall::Begins(Ok(())),
    BookCall::Claims(Some(Claim { layer: 0, rank: 0 })),
    BookCall::Claims(None),
    BookCall::Closes(Err(CloseFault::NotAll)),
    BookCall::Reopens,
    BookCall::Claims(Some(Claim { layer: 0, rank: 0 })),
];

/// Parcels before the layer has begun, of another layer, unclaimed, twice, and of another level; a layer that begins
/// twice, and one that closes too early.
const STRANGE: &[BookCall] = &[
    BookCall::Takes(ParcelLayer::Last, 0, 0, Err(Refusal::NoSuchRank)),
    BookCall::Takes(ParcelLayer::First, 0, 0, Err(Refusal::OtherLayer)),
    BookCall::Begins(Ok(())),
    BookCall::Begins(Err(BeginFault::OtherLayer)),
    BookCall::Takes(ParcelLayer::Last, 0, 1, Ok(())),
    BookCall::Takes(ParcelLayer::Last, 0, 1, Err(Refusal::Double)),
    BookCall::Takes(ParcelLayer::Foreign, 0, 0, Err(Refusal::OtherLevel)),
    BookCall::Claims(Some(Claim { layer: 1, rank: 0 })),
    BookCall::Claims(None),
    BookCall::Reopens,
    BookCall::Claims(Some(Claim { layer: 1, rank: 0 })),
    BookCall::Closes(Err(CloseFault::NotAll)),
    BookCall::Takes(ParcelLayer::Last, 0, 0, Ok(())),
    BookCall::Closes(Ok(Closed { layer: 2, count: 1 })),
];

/// A parcel that brings the book over its limit.
const OVER: &[BookCall] = &[
    BookCall::Begins(Ok(())),
    BookCall::Takes(ParcelLayer::Last, 0, 0, Err(Refusal::Over)),
    BookCall::Takes(ParcelLayer::Last, 0, 0, Err(Refusal::Over)),
    BookCall::Takes(ParcelLayer::Foreign, 0, 0, Err(Refusal::OtherLevel)),
    BookCall::Closes(Err(CloseFault::NotAll)),
];

#[test]
fn a_book_that_has_closed_layer_0_answers(rt: HostRuntime) {
    let foreign = start_of(&rt, rt.alloc(), ONE);
    for events in [ONCE, CLAIMED] {
        check_book(&rt, rt.alloc(), AMPLE, &foreign, false, events);
    }
}

#[test]
fn a_book_that_has_closed_layer_1_answers(rt: HostRuntime) {
    let foreign = start_of(&rt, rt.alloc(), ONE);
    for (limit, events) in [(AMPLE, STRANGE), (3, OVER)] {
        check_book(&rt, rt.alloc(), limit, &foreign, true, events);
    }
}

// Checks the calls of a book of TWO_ENDS, after it has closed layer 1 if `goes_on`.
fn check_book(
    rt: &impl Abort,
    alloc: Global,
    limit: u32,
    foreign: &Layer,
    goes_on: bool,
    events: &[BookCall],
) {
    let mut book = book_of(rt, alloc, TWO_ENDS, limit);
    check_answers(rt, alloc, &mut book, foreign, goes_on, events);
    drop(book);
}

// Checks the calls of a book that has closed layer 0, after it has closed layer 1 if `goes_on`.
fn check_answers(
    rt: &impl Abort,
    alloc: Global,
    book: &mut Book,
    foreign: &Layer,
    goes_on: bool,
    events: &[BookCall],
) {
    let first = joined(rt, alloc, book);
    if goes_on {
        check_next(rt, alloc, book, &first, foreign, events);
    } else {
        check_events(rt, alloc, book, [&first, &first, foreign], events);
    }
}

// Checks the calls of a book after it has closed layer 1.
fn check_next(
    rt: &impl Abort,
    alloc: Global,
    book: &mut Book,
    first: &Layer,
    foreign: &Layer,
    events: &[BookCall],
) {
    work_through(rt, alloc, book, first, false);
    let last = joined(rt, alloc, book);
    check_events(rt, alloc, book, [&last, first, foreign], events);
}

// Checks these calls of a book in turn, given its last layer, layer 0, and that of another level.
fn check_events(
    rt: &impl Abort,
    alloc: Global,
    book: &mut Book,
    layers: [&Layer; 3],
    events: &[BookCall],
) {
    for event in events {
        check_event(rt, alloc, book, layers, *event);
    }
}

// Checks a call of a book.
fn check_event(
    rt: &impl Abort,
    alloc: Global,
    book: &mut Book,
    layers: [&Layer; 3],
    event: BookCall,
) {
    let [last, first, foreign] = layers;
    match event {
        BookCall::Begins(answer) => assert_eq!(rt; book.begin(last), answer),
        BookCall::Claims(answer) => assert_eq!(rt; book.claim(), answer),
        BookCall::Takes(ParcelLayer::Last, worker, rank, answer) => {
            check_parcel(rt, alloc, book, worker, last, rank, answer);
        }
        BookCall::Takes(ParcelLayer::First, worker, rank, answer) => {
            check_parcel(rt, alloc, book, worker, first, rank, answer);
        }
        BookCall::Takes(ParcelLayer::Foreign, worker, rank, answer) => {
            check_parcel(rt, alloc, book, worker, foreign, rank, answer);
        }
        BookCall::Reopens => book.reopen(),
        BookCall::Closes(answer) => assert_eq!(rt; book.close(), answer),
        BookCall::Tells(layer, begun, tallies) => check_told(rt, book, layer, begun, tallies),
    }
}

// Checks the result of handing back a rank of a layer, for a worker.
fn check_parcel(
    rt: &impl Abort,
    alloc: Global,
    book: &mut Book,
    worker: u8,
    layer: &Layer,
    rank: u64,
    answer: Result<(), Refusal>,
) {
    assert_eq!(rt; hand_back(rt, alloc, book, worker, layer, rank), answer);
}

// Checks the readers of a book.
fn check_told(rt: &impl Abort, book: &Book, layer: u64, begun: bool, tallies: [u64; 3]) {
    assert_eq!(rt; (book.layer(), book.has_begun()), (layer, begun));
    let told = [tally(rt, book, 0), tally(rt, book, 1), tally(rt, book, 2)];
    assert_eq!(rt; told, tallies);
}
