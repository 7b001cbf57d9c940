//! Calls that are repeated after running out of memory: their arguments are unchanged, and the second call gives the
//! right result. `tests/refusals` runs each test again for each request for memory, which fails.
ghost use Rattle.std.specs.Prelude.{◌≡◌, length};
ghost use Rattle.grid.specs.States.{IsScene};

use crate::boards::{CORNER, HALL};
use crate::books::traces::CORNER_LAYERS;
use crate::books::{AMPLE, Place, book_of, check_places, level_of, parcel_of, tally};
use area::{Scratch, walk};
use claims::Ledger;
use grid::{Dir, Letter, Level, Moves, Square, State};
use layers::{Book, Layer};
use std::alloc::Global;
use std::process::Abort;
use std::slice;
use xsb::Collection;

/// Two boards with names, one of which has a fault.
const BOARDS: &[u8] = b"; one\n5#|#@$.#|5#\n\n####\n#@$.\n####\nTitle: two\n";

/// The text before a call appends to it.
const BEFORE: &[u8] = b"before";

#[test]
fn a_collection_is_read_again(rt: HostRuntime) {
    let mut answer = xsb::read(rt.alloc(), BOARDS);
    if answer.is_err() {
        answer = xsb::read(rt.alloc(), BOARDS);
    }
    assert!(&rt; answer.is_ok(), "refused twice");
    let entries = answer.expect(&rt, "a collection");
    let [one, two] = entries.as_slice() else {
        panic!(&rt; "two boards");
    };
    assert_eq!(&rt;
        (one.name.as_slice(), one.board.is_ok()),
        (b"one".as_slice(), true)
    );
    assert_eq!(&rt;
        (two.name.as_slice(), two.board.is_ok()),
        (b"two".as_slice(), false)
    );
}

#[test]
fn boards_are_asked_for_again(rt: HostRuntime) {
    let mut boards = Collection::of(BOARDS).expect(&rt, "a collection");
    for line in [Some(2), Some(4), None] {
        assert_eq!(&rt; next_line(&rt, rt.alloc(), &mut boards), line);
    }
}

// The first line of the next board. Out of memory, the call is repeated.
fn next_line(rt: &impl Abort, alloc: Global, boards: &mut Collection<'_>) -> Option<u32> {
    let mut answer = boards.next_board(alloc);
    if answer.is_err() {
        answer = boards.next_board(alloc);
    }
    assert!(rt; answer.is_ok(), "refused twice");
    Some(answer.ok()??.first_line)
}

#[test]
fn boards_with_rows_are_asked_for_again(rt: HostRuntime) {
    let mut boards = Collection::of(BOARDS).expect(&rt, "a collection");
    for lines in [Some((2, 2)), Some((4, 6)), None] {
        assert_eq!(&rt; lines_of_next(&rt, rt.alloc(), &mut boards), lines);
    }
}

// The lines of the first and the last row of the next board. Out of memory, the call is repeated.
fn lines_of_next(
    rt: &impl Abort,
    alloc: Global,
    boards: &mut Collection<'_>,
) -> Option<(u32, u32)> {
    let mut answer = boards.next_source(alloc);
    if answer.is_err() {
        answer = boards.next_source(alloc);
    }
    assert!(rt; answer.is_ok(), "refused twice");
    let rows = answer.ok()??.rows.ok()?;
    Some((rows.places.first()?.line, rows.places.last()?.line))
}

#[test]
fn a_level_is_written_again(rt: HostRuntime) {
    let level = level_of(&rt, rt.alloc(), HALL);
    let mut out = BEFORE.to_vec(rt.alloc()).expect(&rt, "memory");
    if xsb::write(&level, &mut out).is_err() {
        assert_eq!(&rt; out.as_slice(), BEFORE);
        assert!(&rt; xsb::write(&level, &mut out).is_ok(), "refused twice");
    }
    assert!(&rt; out.starts_with(BEFORE) && out.ends_with(HALL));
    assert_eq!(&rt; out.len(), BEFORE.len() + HALL.len());
}

#[test]
fn letters_are_parsed_and_written_again(rt: HostRuntime) {
    let mut answer = lurd::parse(rt.alloc(), b"2l u\n30RdD 9U");
    if answer.is_err() {
        answer = lurd::parse(rt.alloc(), b"2l u\n30RdD 9U");
    }
    assert!(&rt; answer.is_ok(), "refused twice");
    let moves = answer.expect(&rt, "letters");
    let mut out = BEFORE.to_vec(rt.alloc()).expect(&rt, "memory");
    if lurd::write(&moves, &mut out).is_err() {
        assert_eq!(&rt; out.as_slice(), BEFORE);
        assert!(&rt; lurd::write(&moves, &mut out).is_ok(), "refused twice");
    }
    assert_eq!(&rt;
        out.as_slice(),
        b"beforelluRRRRRRRRRRRRRRRRRRRRRRRRRRRRRRdDUUUUUUUUU".as_slice()
    );
}

#[test]
fn a_walk_is_appended_again(rt: HostRuntime) {
    let level = level_of(&rt, rt.alloc(), HALL);
    let state = State::start(rt.alloc(), &level).expect(&rt, "memory");
    check_walk(&rt, rt.alloc(), &level, &state);
}

// Checks a walk to the upper left of HALL, appended to a letter.
fn check_walk(rt: &impl Abort, alloc: Global, level: &Level, state: &State)
    requires { IsScene level.now state.now }
{
    let mut scratch = Scratch::new(alloc, level).expect(rt, "memory");
    let mut moves = Moves::new(alloc);
    let first = Letter {
        dir: Dir::L,
        push: false,
    };
    moves.push(first).expect(rt, "memory");
    if walk(level, state, Square(13), &mut scratch, &mut moves).is_err() {
        assert_eq!(rt; moves.len(), 1);
        let again = walk(level, state, Square(13), &mut scratch, &mut moves);
        assert!(rt; matches!(again, Ok(true)), "refused twice");
    }
    assert_eq!(rt; moves.len(), 5);
}

#[test]
fn layers_are_made_again(rt: HostRuntime) {
    let mut book = book_of(&rt, rt.alloc(), CORNER, AMPLE);
    for places in CORNER_LAYERS {
        next_layer(&rt, rt.alloc(), &mut book, places);
    }
    drop(book);
}

// Checks the last closed layer of a book, and closes the next one. Out of memory, each call is repeated.
fn next_layer(rt: &impl Abort, alloc: Global, book: &mut Book, places: &[Place]) {
    let layer = join_again(rt, alloc, book);
    check_places(rt, &layer, places);
    if book.begin(&layer).is_err() {
        assert!(rt; !book.has_begun());
        assert!(rt; book.begin(&layer).is_ok(), "refused twice");
    }
    for rank in 0..layer.len() {
        hand_back_again(rt, alloc, book, &layer, rank);
    }
    close_again(rt, book);
}

fn join_again(rt: &impl Abort, alloc: Global, book: &Book) -> Layer {
    let mut answer = Layer::join(alloc, slice::from_ref(book));
    if answer.is_err() {
        answer = Layer::join(alloc, slice::from_ref(book));
    }
    assert!(rt; answer.is_ok(), "refused twice");
    answer.expect(rt, "a layer")
}

fn hand_back_again(rt: &impl Abort, alloc: Global, book: &mut Book, layer: &Layer, rank: u64) {
    let parcel = parcel_of(rt, alloc, layer, rank);
    let before = tally(rt, book, 0);
    assert!(rt; book.workers() >= 1);
    if book.hand_back(0, &parcel).is_err() {
        assert_eq!(rt; tally(rt, book, 0), before);
        assert!(rt; book.workers() >= 1);
        assert!(rt; book.hand_back(0, &parcel).is_ok(), "refused twice");
    }
    assert_eq!(rt; tally(rt, book, 0), before.saturating_add(1));
}

fn close_again(rt: &impl Abort, book: &mut Book) {
    let layer = book.layer();
    let mut answer = book.close();
    if answer.is_err() {
        assert_eq!(rt; book.layer(), layer);
        answer = book.close();
    }
    assert!(rt; answer.is_ok(), "refused twice");
}

#[test]
fn a_ledger_is_made_again(rt: HostRuntime) {
    let mut answer = Ledger::new(rt.alloc(), 1);
    if answer.is_err() {
        answer = Ledger::new(rt.alloc(), 1);
    }
    assert!(&rt; answer.is_ok(), "refused twice");
    assert!(&rt; answer.is_ok_and(|(ledger, _)| ledger.audit(Vec::new(rt.alloc())) == 0));
}
