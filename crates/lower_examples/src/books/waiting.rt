//! Successors that wait to enter a book.
use super::{AMPLE, book_of, hand_back, joined};
use crate::boards::CORNER;
use layers::Book;
use std::alloc::Global;
use std::process::Abort;

#[test]
fn waiting_successors_enter_on_request(rt: HostRuntime) {
    let mut book = book_of(&rt, rt.alloc(), CORNER, AMPLE);
    begin_and_hand_back(&rt, rt.alloc(), &mut book);
    check_waiting(&rt, &mut book);
    drop(book);
}

// Begins layer 0 of a book, and hands back its only rank, which has two successors.
fn begin_and_hand_back(rt: &impl Abort, alloc: Global, book: &mut Book) {
    let layer = joined(rt, alloc, book);
    book.begin(&layer).expect(rt, "a begin");
    hand_back(rt, alloc, book, 1, &layer, 0).expect(rt, "an accepted parcel");
}

// Checks that the position and its two successors enter a book on request.
fn check_waiting(rt: &impl Abort, book: &mut Book) {
    let _ = book.enter_pending(1);
    assert_eq!(rt; book.positions_at_least(), 3);
    assert!(rt; !book.enter_pending(1));
    assert_eq!(rt; book.positions(), 3);
}
