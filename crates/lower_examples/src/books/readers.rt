//! The readers of books and parcels.
use super::traces::TWO_ENDS_LAYERS;
use super::{AMPLE, Place, book_of, is_position, joined, level_of, parcel_of, work_through};
use crate::boards::TWO_ENDS;
use layers::{Book, Layer, Parcel};
use std::alloc::Global;
use std::process::Abort;

/// A book under a cap of two pushes, with three workers.
fn capped_book(rt: &impl Abort, alloc: Global, limit: u32, share: u8, shares: u8) -> Book {
    assert!(rt; limit >= 1);
    assert!(rt; share < shares);
    assert!(rt; shares <= 2);
    let level = level_of(rt, alloc, TWO_ENDS);
    Book::of(alloc, level, Some(2), limit, 3, share, shares).expect(rt, "a book")
}

#[test]
fn a_book_keeps_what_it_is_made_of(rt: HostRuntime) {
    let book = capped_book(&rt, rt.alloc(), 7, 1, 2);
    check_book(&rt, rt.alloc(), &book);
    drop(book);
}

// Checks a book of share 1 of 2 with a limit of 7.
fn check_book(rt: &impl Abort, alloc: Global, book: &Book) {
    let level = level_of(rt, alloc, TWO_ENDS);
    assert!(rt; *book.level() == *level);
    assert_eq!(rt; (book.limit(), book.cap()), (7, Some(2)));
    assert_eq!(rt; (book.workers(), book.share(), book.shares()), (3, 1, 2));
    assert_eq!(rt; (book.layer(), book.has_begun()), (0, false));
}

#[test]
fn a_parcel_keeps_the_problem_and_rank_that_it_comes_from(rt: HostRuntime) {
    let book = capped_book(&rt, rt.alloc(), AMPLE, 0, 1);
    let layer = joined(&rt, rt.alloc(), &book);
    drop(book);
    check_parcel(&rt, &layer, &parcel_of(&rt, rt.alloc(), &layer, 0));
}

// Checks the parcel of rank 0 of layer 0.
fn check_parcel(rt: &impl Abort, layer: &Layer, parcel: &Parcel<'_>) {
    assert!(rt; *parcel.level() == *layer.level());
    assert_eq!(rt;
        (parcel.cap(), parcel.layer(), parcel.rank()),
        (Some(2), 0, 0)
    );
}

#[test]
fn a_book_reads_its_closed_layers(rt: HostRuntime) {
    let mut book = book_of(&rt, rt.alloc(), TWO_ENDS, AMPLE);
    for _ in 0..2 {
        let layer = joined(&rt, rt.alloc(), &book);
        work_through(&rt, rt.alloc(), &mut book, &layer, false);
    }
    check_closed(&rt, &book);
    drop(book);
}

// Checks the three closed layers of a book, and that there is nothing beyond them.
fn check_closed(rt: &impl Abort, book: &Book) {
    for (layer, places) in TWO_ENDS_LAYERS.iter().enumerate() {
        check_closed_layer(rt, book, layer as u64, places);
    }
    assert!(rt; book.closed_at(3, 0).is_none());
}

// Checks that a closed layer of a book has exactly these positions.
fn check_closed_layer(rt: &impl Abort, book: &Book, layer: u64, places: &[Place]) {
    for (place, (boxes, player, _)) in places.iter().enumerate() {
        let position = book.closed_at(layer, place as u64).expect(rt, "a position");
        assert!(rt; is_position(&position, boxes, *player));
    }
    assert!(rt; book.closed_at(layer, places.len() as u64).is_none());
}
