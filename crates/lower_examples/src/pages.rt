//! The examples at the head of `lib.rt` of the crates below `crew`. `tests/cited` compares them with the text here.
ghost use Rattle.std.specs.Prelude.{◌≡◌, length};
ghost use Rattle.grid.specs.Board.{start};
ghost use Rattle.grid.specs.States.{FitsLevel};

use crate::boards::{APART, BLOCKED, CORNER, ONE, TWO_ENDS};
use crate::books::level_of;
use area::Scratch;
use claims::Ledger;
use corrals::Corral;
use doom::Dead;
use grid::{Dir, Level, MAX_BOXES, Position, Square, State, Step};
use layers::{Book, Layer};
use lurd::Verdict;
use prices::{Distances, Matching, Slack};
use prover::{Outcome, Unheard};
use regions::Regions;
use solo::{Answer, solve_alone};
use std::alloc::Global;
use std::process::Abort;
use std::slice;
use store::Found;
use successors::share_of;

#[test]
fn page_of_grid(rt: HostRuntime) {
    let alloc = rt.alloc();
    let level = level_of(&rt, alloc, ONE);
    let mut state = State::start(alloc, &level).expect(&rt, "memory");
    assert_eq!(&rt; state.step(&level, Dir::L), Step::Blocked);
    assert_eq!(&rt; state.step(&level, Dir::R), Step::Pushed);
    assert!(&rt; state.is_solved(&level));
}

#[test]
fn page_of_counts(rt: HostRuntime) {
    assert_eq!(&rt; counts::digit_count(b"12#"), 2);
    assert_eq!(&rt; counts::times(b"12"), Some(12));
}

#[test]
fn page_of_spreading(rt: HostRuntime) {
    let mut numbers = [0u64; 4];
    spreading::for_each_spread(
        &rt,
        &mut numbers,
        2,
        &|nth, number: &mut u64| { *number = nth as u64 },
    );
    assert_eq!(&rt; numbers, [0, 1, 2, 3]);
}

#[test]
fn page_of_xsb(rt: HostRuntime) {
    let alloc = rt.alloc();
    let entries = xsb::read(alloc, b"; first\n#####\n#@$.#\n#####\n").expect(&rt, "memory");
    let [entry] = entries.as_slice() else {
        panic!(&rt; "one board");
    };
    assert_eq!(&rt; entry.name.as_slice(), b"first".as_slice());
    assert!(&rt; entry.board.is_ok());
}

#[test]
fn page_of_lurd(rt: HostRuntime) {
    let alloc = rt.alloc();
    let level = level_of(&rt, alloc, ONE);
    let moves = lurd::parse(alloc, b"R").expect(&rt, "letters");
    let verdict = lurd::replay(alloc, &level, &moves).expect(&rt, "memory");
    assert!(&rt;
        matches!(
            verdict,
            Verdict::Solved {
                pushes: 1,
                moves: 1
            }
        )
    );
}

#[test]
fn page_of_area(rt: HostRuntime) {
    let alloc = rt.alloc();
    let level = level_of(&rt, alloc, CORNER);
    level.tell_start();
    let start = Position::start(&level).expect(&rt, "few boxes");
    let mut scratch = Scratch::new(alloc, &level).expect(&rt, "memory");
    let normal = area::normal(&level, &start, &mut scratch);
    assert_eq!(&rt; normal.player(), Square(6));
}

#[test]
fn page_of_doom(rt: HostRuntime) {
    let alloc = rt.alloc();
    let level = level_of(&rt, alloc, CORNER);
    let dead = Dead::of(alloc, &level).expect(&rt, "memory");
    assert!(&rt; dead.is_dead(Square(8)));
    assert!(&rt; !dead.is_dead(Square(7)));
}

#[test]
fn page_of_prices(rt: HostRuntime) {
    let alloc = rt.alloc();
    let level = level_of(&rt, alloc, CORNER);
    level.tell_start();
    let start = Position::start(&level).expect(&rt, "few boxes");
    let distances = Distances::of(alloc, &level).expect(&rt, "memory");
    let mut matching = Matching::new();
    // the box is two pushes from its goal
    assert_eq!(&rt; distances.lower(&start, &mut matching), 2);
}

/// Whether a corral is found at the start of a level.
fn finds_corral(
    level: &Level,
    start: &Position,
    dead: &Dead,
    distances: &Distances,
    scratch: &mut Scratch,
    corral: &mut Corral,
) -> bool
    requires fits { FitsLevel level.now start.now }
    requires dead { dead.now ≡ level.now }
    requires distances { distances.now.level ≡ level.now }
    requires room { scratch.old.size ≡ length level.now.cells }
{
    let mut matching = Matching::new();
    distances.meet(start, &mut matching);
    area::flood(level, start, scratch);
    // one push is left after the next
    let slack = Slack::of(distances, start, Some(1), &matching);
    corrals::find(level, dead, start, scratch, &slack, corral)
}

/// Checks that a corral is found, and that it holds the box.
fn check_corral(
    rt: &impl Abort,
    alloc: Global,
    level: &Level,
    start: &Position,
    dead: &Dead,
    distances: &Distances,
)
    requires fits { FitsLevel level.now start.now }
    requires dead { dead.now ≡ level.now }
    requires distances { distances.now.level ≡ level.now }
{
    let mut scratch = Scratch::new(alloc, level).expect(rt, "memory");
    let mut corral = Corral::new(alloc, level).expect(rt, "memory");
    let found = finds_corral(level, start, dead, distances, &mut scratch, &mut corral);
    assert!(rt; found);
    assert!(rt; corral.holds(Square(13)));
}

/// `check_corral` for the start of this level.
fn check_start(rt: &impl Abort, alloc: Global, level: &Level, start: &Position)
    requires { FitsLevel level.now start.now }
{
    assert!(rt; level.boxes() <= MAX_BOXES);
    let dead = Dead::of(alloc, level).expect(rt, "memory");
    let distances = Distances::of(alloc, level).expect(rt, "memory");
    check_corral(rt, alloc, level, start, &dead, &distances);
}

#[test]
fn page_of_corrals(rt: HostRuntime) {
    let alloc = rt.alloc();
    let level = level_of(&rt, alloc, APART);
    level.tell_start();
    let start = Position::start(&level).expect(&rt, "few boxes");
    check_start(&rt, alloc, &level, &start);
}

#[test]
fn page_of_regions(rt: HostRuntime) {
    let alloc = rt.alloc();
    let level = level_of(&rt, alloc, BLOCKED);
    let start = Position::start(&level).expect(&rt, "few boxes");
    assert!(&rt; start.fits(&level));
    let mut regions = Regions::of_prices(alloc, &level).expect(&rt, "memory");
    let mut plan = regions.plan(alloc, &level, 1 << 20).expect(&rt, "memory");
    for job in plan.jobs() {
        job.run(alloc).expect(&rt, "memory");
    }
    regions.take(alloc, &level, plan).expect(&rt, "memory");
    let mut matching = Matching::new();
    // each box is two pushes from a goal, and one of them has to be pushed out of the row and back
    assert_eq!(&rt; regions.lower(&start, &mut matching), Some(6));
}

#[test]
fn page_of_successors(rt: HostRuntime) {
    let level = level_of(&rt, rt.alloc(), TWO_ENDS);
    let start = Position::start(&level).expect(&rt, "few boxes");
    // the squares are 9, 11 and 10
    assert_eq!(&rt; share_of(&start, 2), 0);
    assert_eq!(&rt; share_of(&start, 4), 2);
}

/// Checks that only the start of this level is found at first.
fn check_found(rt: &impl Abort, alloc: Global, level: &Level)
    requires { FitsLevel level.now (start level.now) }
{
    assert!(rt; level.boxes() == 1);
    let first = Position::start(level);
    let found = Found::of(alloc, level.boxes(), level.squares(), &first).expect(rt, "memory");
    assert!(rt; found.closed_len() == 1);
    assert!(rt; found.closed_at(1).is_none());
    drop(found);
}

#[test]
fn page_of_store(rt: HostRuntime) {
    let level = level_of(&rt, rt.alloc(), CORNER);
    level.tell_start();
    check_found(&rt, rt.alloc(), &level);
}

#[test]
fn page_of_layers(rt: HostRuntime) {
    let alloc = rt.alloc();
    let level = level_of(&rt, alloc, CORNER);
    let book = Book::of(alloc, level, None, 1_000, 1, 0, 1).expect(&rt, "memory");
    let layer = Layer::join(alloc, slice::from_ref(&book)).expect(&rt, "memory");
    assert_eq!(&rt; (layer.number(), layer.len()), (0, 1));
    drop(book);
}

#[test]
fn page_of_prover(rt: HostRuntime) {
    let alloc = rt.alloc();
    let level = level_of(&rt, alloc, CORNER);
    let progress = &mut Unheard;
    let best = prover::search(&rt, alloc, &level, None, 1_000, None, 1, progress);
    let best = best.expect(&rt, "memory");
    assert!(&rt; matches!(&best, Outcome::Least { pushes: 2, .. }));
    let none = prover::search(&rt, alloc, &level, Some(1), 100, None, 2, progress);
    let none = none.expect(&rt, "memory");
    assert!(&rt; matches!(&none, Outcome::NoneWithin));
}

#[test]
fn page_of_solo(rt: HostRuntime) {
    let alloc = rt.alloc();
    let level = level_of(&rt, alloc, CORNER);
    let answer = solve_alone(alloc, &level, None, 1_000).expect(&rt, "memory");
    assert!(&rt; matches!(&answer, Answer::Solved { pushes: 2, .. }));
}

#[test]
fn page_of_claims(rt: HostRuntime) {
    let alloc = rt.alloc();
    let (ledger, mut drawer) = Ledger::new(alloc, 2).expect(&rt, "memory");
    assert!(&rt; ledger.enrol(&mut drawer, 0));
    assert_eq!(&rt; ledger.draw(&mut drawer), Some(0));
    assert_eq!(&rt; ledger.draw(&mut drawer), Some(1));
    assert_eq!(&rt; ledger.draw(&mut drawer), None);
}
