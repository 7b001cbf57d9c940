//! Worked examples of layers and books.
ghost use Rattle.std.specs.Prelude.{◌≡◌, ◌<◌, length};

mod leads;
mod readers;
mod refusals;
mod shares;
pub(crate) mod traces;
mod waiting;

use area::Scratch;
use doom::{Bound, Dead};
use grid::{Dir, Level, Position, Push, Square};
use layers::{Book, Layer, Parcel, Refusal, expand};
use std::alloc::Global;
use std::process::Abort;
use std::slice;
use std::sync::Arc;
use xsb::Entry;

/// A position of a layer: the squares of its boxes, its player's square, and except in layer 0 its parent's rank and
/// the square and direction of its push.
pub(crate) type Place = (&'static [u16], u16, Option<(u64, u16, Dir)>);

/// A limit far above the positions of each worked example.
pub(crate) const AMPLE: u32 = 1_000_000;

/// The level of a collection of one board.
pub(crate) fn level_of(rt: &impl Abort, alloc: Global, text: &[u8]) -> Arc<Level> {
    let mut entries = xsb::read(alloc, text).expect(rt, "a collection");
    let entry = entries.pop().expect(rt, "a board");
    drop(entries);
    board_of(rt, alloc, entry)
}

// The level of an entry of a collection.
fn board_of(rt: &impl Abort, alloc: Global, entry: Entry) -> Arc<Level> {
    let level = entry.board.expect(rt, "a level");
    Arc::new(alloc, level).expect(rt, "memory")
}

/// A book of all positions of a level, with three workers.
pub(crate) fn book_of(rt: &impl Abort, alloc: Global, text: &[u8], limit: u32) -> Book {
    assert!(rt; limit >= 1);
    Book::of(alloc, level_of(rt, alloc, text), None, limit, 3, 0, 1).expect(rt, "a book")
}

/// The last closed layer of a book of all positions.
pub(crate) fn joined(rt: &impl Abort, alloc: Global, book: &Book) -> Layer {
    Layer::join(alloc, slice::from_ref(book)).expect(rt, "a layer")
}

/// Layer 0 of a level.
pub(crate) fn start_of(rt: &impl Abort, alloc: Global, text: &[u8]) -> Layer {
    let book = book_of(rt, alloc, text, AMPLE);
    let layer = joined(rt, alloc, &book);
    drop(book);
    layer
}

/// The parcel of a rank of a layer.
pub(crate) fn parcel_of<'a>(
    rt: &impl Abort,
    alloc: Global,
    layer: &'a Layer,
    rank: u64,
) -> Parcel<'a> {
    assert!(rt; rank < layer.len());
    let mut scratch = Scratch::new(alloc, layer.level()).expect(rt, "memory");
    expanded(rt, alloc, layer, rank, &mut scratch)
}

// The parcel of a rank of a layer, made with this scratch.
fn expanded<'a>(
    rt: &impl Abort,
    alloc: Global,
    layer: &'a Layer,
    rank: u64,
    scratch: &mut Scratch,
) -> Parcel<'a>
    requires within { rank < length layer.now.places }
    requires room { scratch.old.size ≡ length layer.now.level.board.cells }
{
    let dead = Dead::of(alloc, layer.level()).expect(rt, "memory");
    let bound = Bound::of(alloc, layer.level()).expect(rt, "memory");
    expand(layer, &dead, &bound, rank, scratch)
}

/// The result of handing back the parcel of a rank of a layer to a book.
pub(crate) fn hand_back(
    rt: &impl Abort,
    alloc: Global,
    book: &mut Book,
    worker: u8,
    layer: &Layer,
    rank: u64,
) -> Result<(), Refusal> {
    assert!(rt; worker < book.workers());
    book.hand_back(worker, &parcel_of(rt, alloc, layer, rank))
}

/// The number of ranks that a worker has handed back.
pub(crate) fn tally(rt: &impl Abort, book: &Book, worker: u8) -> u64 {
    assert!(rt; worker < book.workers());
    book.tally(worker)
}

/// Hands back all ranks of a layer to its book, in falling order if `turned`, and closes the next layer. Returns the
/// number of positions of that layer.
pub(crate) fn work_through(
    rt: &impl Abort,
    alloc: Global,
    book: &mut Book,
    layer: &Layer,
    turned: bool,
) -> u64 {
    book.begin(layer).expect(rt, "a begin");
    let len = layer.len();
    for place in 0..len {
        let rank = if turned { len - 1 - place } else { place };
        hand_back(rt, alloc, book, 0, layer, rank).expect(rt, "an accepted parcel");
    }
    book.close().expect(rt, "a close").count
}

/// Checks that a layer holds exactly these positions, in their order.
pub(crate) fn check_places(rt: &impl Abort, layer: &Layer, places: &[Place]) {
    assert_eq!(rt; layer.len(), places.len() as u64);
    let mut rank: u64 = 0;
    for place in places {
        check_place(rt, layer, rank, *place);
        rank = rank.saturating_add(1);
    }
}

// Checks a rank of a layer.
fn check_place(rt: &impl Abort, layer: &Layer, rank: u64, place: Place) {
    let (boxes, player, parent) = place;
    let parent = match parent {
        Some((rank, square, dir)) => Some((rank, push_of(square, dir))),
        None => None,
    };
    assert_eq!(rt; layer.parent(rank), parent);
    let position = layer.position(rank).expect(rt, "a position");
    assert!(rt; is_position(&position, boxes, player));
    assert!(rt; rank < layer.len());
    assert_eq!(rt; layer.boxes_at(rank), position.boxes());
}

/// Whether a position has these boxes and this player.
pub(crate) fn is_position(position: &Position, boxes: &[u16], player: u16) -> bool {
    let squares = position.boxes();
    if position.player() != Square(player) || squares.len() != boxes.len() {
        return false;
    }
    for place in 0..boxes.len() {
        if squares[place] != Square(boxes[place]) {
            return false;
        }
    }
    true
}

/// The push of the box on a square in a direction.
pub(crate) fn push_of(square: u16, dir: Dir) -> Push {
    Push {
        square: Square(square),
        dir,
    }
}
