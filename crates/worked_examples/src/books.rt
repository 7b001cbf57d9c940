//! Books and layers for workers.

use area::Scratch;
use grid::Level;
use layers::{Book, Layer, expand_over};
use std::alloc::Global;
use std::process::Abort;
use std::slice;
use std::sync::Arc;
use xsb::Entry;

/// A limit far above the positions of each worked example.
pub(crate) const AMPLE: u32 = 1_000_000;

/// The level of a collection of one board.
pub(crate) fn level_of(rt: &impl Abort, alloc: Global, text: &[u8]) -> Arc<Level> {
    let mut entries = xsb::read(alloc, text).expect(rt, "a collection");
    let entry = entries.pop().expect(rt, "a board");
    drop(entries);
    board_of(rt, alloc, entry)
}

// The level of an entry of a collection.
fn board_of(rt: &impl Abort, alloc: Global, entry: Entry) -> Arc<Level> {
    let level = entry.board.expect(rt, "a level");
    Arc::new(alloc, level).expect(rt, "memory")
}

/// A book of all positions of a level, with three workers.
pub(crate) fn book_of(rt: &impl Abort, alloc: Global, text: &[u8], limit: u32) -> Book {
    assert!(rt; limit >= 1);
    Book::of(alloc, level_of(rt, alloc, text), None, limit, 3, 0, 1).expect(rt, "a book")
}

/// The last closed layer of a book of all positions.
pub(crate) fn joined(rt: &impl Abort, alloc: Global, book: &Book) -> Layer {
    Layer::join(alloc, slice::from_ref(book)).expect(rt, "a layer")
}

/// Layer 0 of a level.
pub(crate) fn start_of(rt: &impl Abort, alloc: Global, text: &[u8]) -> Layer {
    let book = book_of(rt, alloc, text, AMPLE);
    let layer = joined(rt, alloc, &book);
    drop(book);
    layer
}

/// Closes the next layer of a book of all positions.
pub(crate) fn turn(rt: &impl Abort, alloc: Global, book: &mut Book) {
    let layer = joined(rt, alloc, book);
    book.begin(&layer).expect(rt, "a begin");
    for rank in 0..layer.len() {
        hand_back(rt, alloc, book, &layer, rank);
    }
    book.close().expect(rt, "a close");
}

/// Hands back the parcel of a rank of a layer, as worker 0.
pub(crate) fn hand_back(rt: &impl Abort, alloc: Global, book: &mut Book, layer: &Layer, rank: u64) {
    assert!(rt; book.workers() >= 1 && rank < layer.len());
    let mut scratch = Scratch::new(alloc, layer.level()).expect(rt, "memory");
    let parcel = expand_over(layer.problem(), layer, rank, &mut scratch);
    book.hand_back(0, &parcel).expect(rt, "an accepted parcel");
}
