//! Books of several shares: each closes its own positions, and joining all of them gives the whole layers.
use super::traces::{
    CORNER_LAYERS, HALL_LAYERS, ONE_LAYERS, THERE_AND_BACK_LAYERS, TWO_ENDS_LAYERS,
};
use super::{AMPLE, Place, check_places, is_position, level_of, work_through};
use crate::boards::{CORNER, HALL, ONE, THERE_AND_BACK, TWO_ENDS};
use grid::{Position, Square};
use layers::{Book, JoinFault, Layer, MAX_SHARES, Parents};
use std::alloc::Global;
use std::process::Abort;

// A book of a share of a level, with one worker.
fn share_of(
    rt: &impl Abort,
    alloc: Global,
    text: &[u8],
    limit: u32,
    share: u8,
    shares: u8,
) -> Book {
    assert!(rt; limit >= 1);
    assert!(rt; share < shares);
    assert!(rt; shares <= 16);
    let level = level_of(rt, alloc, text);
    Book::of(alloc, level, None, limit, 1, share, shares).expect(rt, "a book")
}

// The books of all the shares of a level, in order.
fn shares_of(rt: &impl Abort, alloc: Global, text: &[u8], shares: u8) -> Vec<Book> {
    let mut books = Vec::new(alloc);
    for share in 0..shares {
        books
            .push(share_of(rt, alloc, text, AMPLE, share, shares))
            .expect(rt, "memory");
    }
    books
}

// Hands back each rank of a layer to all its books, and closes the next layer. Returns its number of positions.
fn close_all(
    rt: &impl Abort,
    alloc: Global,
    books: &mut [Book],
    layer: &Layer,
    turned: bool,
) -> u64 {
    let mut count: u64 = 0;
    for place in 0..books.len() {
        let closed = work_through(rt, alloc, &mut books[place], layer, turned);
        count = count.saturating_add(closed);
    }
    count
}

// The last closed layer of all the books.
fn joined(rt: &impl Abort, alloc: Global, books: &[Book]) -> Layer {
    Layer::join(alloc, books).expect(rt, "a layer")
}

// A way to find the layers of a level: the number of shares of its positions, and whether parcels come in falling
// order of ranks.
type Way = (u8, bool);

// Checks the layers of a level.
fn check_layers(rt: &impl Abort, alloc: Global, text: &[u8], layers: &[&[Place]], way: Way) {
    let (shares, turned) = way;
    let mut books = shares_of(rt, alloc, text, shares);
    for (number, places) in layers.iter().enumerate() {
        check_layer(
            rt,
            alloc,
            books.as_mut_slice(),
            number as u64,
            places,
            turned,
        );
    }
}

// Checks the last layer of all the books, and closes the next one.
fn check_layer(
    rt: &impl Abort,
    alloc: Global,
    books: &mut [Book],
    number: u64,
    places: &[Place],
    turned: bool,
) {
    let layer = joined(rt, alloc, books);
    assert_eq!(rt; layer.number(), number);
    check_places(rt, &layer, places);
    let count = close_all(rt, alloc, books, &layer, turned);
    assert_eq!(rt; joined(rt, alloc, books).len(), count);
}

#[test]
fn layers_are_those_worked_by_hand(rt: HostRuntime) {
    let cases = [
        (ONE, ONE_LAYERS),
        (CORNER, CORNER_LAYERS),
        (HALL, HALL_LAYERS),
        (TWO_ENDS, TWO_ENDS_LAYERS),
        (THERE_AND_BACK, THERE_AND_BACK_LAYERS),
    ];
    for (text, layers) in cases {
        for shares in [1, 2, 3, 16] {
            check_layers(&rt, rt.alloc(), text, layers, (shares, false));
            check_layers(&rt, rt.alloc(), text, layers, (shares, true));
        }
    }
}

#[test]
fn a_share_is_the_sum_of_the_squares_modulo_the_number_of_shares(rt: HostRuntime) {
    let rows = [
        ([9, 11], 10, 30),
        ([8, 11], 9, 28),
        ([9, 12], 10, 31),
        ([8, 12], 9, 29),
    ];
    for ([first, second], player, sum) in rows {
        let boxes = [Square(first), Square(second)];
        let position = Position::of(&boxes, Square(player)).expect(&rt, "a position");
        for shares in 1..=MAX_SHARES {
            assert_eq!(&rt;
                successors::share_of(&position, shares),
                sum % shares,
                "sum {sum}"
            );
        }
    }
}

#[test]
fn each_share_closes_its_own_positions(rt: HostRuntime) {
    // the sums of TWO_ENDS are 30; 28 and 31; 29
    let two: [&[&[usize]]; 2] = [&[&[0], &[0], &[]], &[&[], &[1], &[0]]];
    check_shares(&rt, rt.alloc(), TWO_ENDS, TWO_ENDS_LAYERS, &two);
    // those of CORNER are 18; 17 and 13; 13, so rank 0 of layer 1 comes from share 2
    let three: [&[&[usize]]; 3] = [&[&[0], &[], &[]], &[&[], &[1], &[0]], &[&[], &[0], &[]]];
    check_shares(&rt, rt.alloc(), CORNER, CORNER_LAYERS, &three);
}

// Checks what the shares of a level have closed: for each share and each layer, the ranks that it holds.
fn check_shares(
    rt: &impl Abort,
    alloc: Global,
    text: &[u8],
    layers: &[&[Place]],
    shares: &[&[&[usize]]],
) {
    let count = u8::try_from(shares.len()).unwrap_or(MAX_SHARES);
    let mut books = shares_of(rt, alloc, text, count);
    for _ in 1..layers.len() {
        let layer = joined(rt, alloc, books.as_slice());
        close_all(rt, alloc, books.as_mut_slice(), &layer, false);
    }
    for (book, ranks) in books.iter().zip(shares) {
        assert_eq!(rt; book.layer().saturating_add(1), layers.len() as u64);
        check_share(rt, book, layers, ranks);
    }
}

// Checks that each closed layer of a book holds exactly these ranks of the layers.
fn check_share(rt: &impl Abort, book: &Book, layers: &[&[Place]], ranks: &[&[usize]]) {
    for (layer, (places, held)) in layers.iter().zip(ranks).enumerate() {
        for (place, rank) in held.iter().enumerate() {
            let (boxes, player, _) = places.get(*rank).expect(rt, "a rank");
            let position = book
                .closed_at(layer as u64, place as u64)
                .expect(rt, "a position");
            assert!(rt; is_position(&position, boxes, *player));
        }
        assert!(rt; book.closed_at(layer as u64, held.len() as u64).is_none());
    }
}

#[test]
fn a_layer_is_joined_in_the_memory_of_another_one(rt: HostRuntime) {
    let mut books = shares_of(&rt, rt.alloc(), CORNER, 3);
    let start = joined(&rt, rt.alloc(), books.as_slice());
    close_all(&rt, rt.alloc(), books.as_mut_slice(), &start, false);
    check_joins(&rt, rt.alloc(), books.as_slice(), start);
}

// Checks layer 1 of CORNER, joined in the memory of layer 0.
fn check_joins(rt: &impl Abort, alloc: Global, books: &[Book], start: Layer) {
    let [_, places, _] = CORNER_LAYERS else {
        panic!(rt; "three layers");
    };
    let (_, room) = Parents::of(start);
    let layer = Layer::join_in(alloc, books, room).expect(rt, "a layer");
    check_places(rt, &layer, places);
}

#[test]
fn only_all_shares_in_order_are_joined(rt: HostRuntime) {
    let mut books = shares_of(&rt, rt.alloc(), TWO_ENDS, 2);
    check_parts(&rt, rt.alloc(), books.as_slice());
    check_turned(&rt, rt.alloc(), books.as_mut_slice());
}

// Checks that neither one of two books nor an empty list is joined.
fn check_parts(rt: &impl Abort, alloc: Global, books: &[Book]) {
    assert!(rt; books.len() == 2);
    check_not_whole(rt, alloc, &books[..1]);
    check_not_whole(rt, alloc, &books[1..]);
    check_not_whole(rt, alloc, &books[..0]);
}

// Checks that two books are not joined the other way round.
fn check_turned(rt: &impl Abort, alloc: Global, books: &mut [Book]) {
    assert!(rt; books.len() == 2);
    books.swap(0, 1);
    check_not_whole(rt, alloc, books);
}

// Checks that books are not joined because they are not all the shares in order.
fn check_not_whole(rt: &impl Abort, alloc: Global, books: &[Book]) {
    assert_eq!(rt; Layer::join(alloc, books).err(), Some(JoinFault::NotWhole));
}
