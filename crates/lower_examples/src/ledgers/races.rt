//! Several threads at one ledger.
ghost use Rattle.std.specs.Prelude.{◌≡◌};
ghost use Rattle.std.specs.Arc.{arc_value};
ghost use Rattle.claims.specs.Hands.{newcomer};

use claims::{Drawer, Ledger};
use std::alloc::Global;
use std::process::Abort;
use std::sync::Arc;
use std::thread::{Threads, join};

// one more than the numbers of the ledger
const DRAWS: usize = 1001;

const RACES: usize = 10_000;

// A drawer, and the numbers that it has drawn until none was left.
fn drained<R: Abort>(rt: &R, alloc: Global, ledger: &Ledger, drawer: Drawer) -> (Drawer, Vec<u32>)
    requires { drawer.ledger ≡ ledger.now }
    ensures { result.0.ledger ≡ ledger.now }
{
    let mut drawer = drawer;
    let mut numbers = Vec::new(alloc);
    for _ in 0..DRAWS {
        let Some(number) = ledger.draw(&mut drawer) else {
            break;
        };
        numbers.push(number).expect(rt, "memory");
    }
    (drawer, numbers)
}

// Two threads drain the ledger.
fn drained_by_two<R: Threads + Abort + Sync>(
    rt: &R,
    alloc: Global,
    ledger: &Ledger,
    first: Drawer,
    second: Drawer,
) -> ((Drawer, Vec<u32>), (Drawer, Vec<u32>))
    requires { (first.ledger ≡ ledger.now) × (second.ledger ≡ ledger.now) }
    ensures { (result.0.0.ledger ≡ ledger.now) × (result.1.0.ledger ≡ ledger.now) }
{
    join(
        rt,
        move || -> (Drawer, Vec<u32>)
            requires { first.ledger ≡ ledger.now }
            ensures { result.0.ledger ≡ ledger.entry.now }
        { drained(rt, alloc, ledger, first) },
        move || -> (Drawer, Vec<u32>)
            requires { second.ledger ≡ ledger.now }
            ensures { result.0.ledger ≡ ledger.entry.now }
        { drained(rt, alloc, ledger, second) },
    )
}

// Four threads drain the ledger.
fn drained_by_four<R: Threads + Abort + Sync>(
    rt: &R,
    alloc: Global,
    ledger: &Ledger,
    drawers: (Drawer, Drawer, Drawer, Drawer),
) -> (
    ((Drawer, Vec<u32>), (Drawer, Vec<u32>)),
    ((Drawer, Vec<u32>), (Drawer, Vec<u32>)),
)
    requires left { (drawers.0.ledger ≡ ledger.now) × (drawers.1.ledger ≡ ledger.now) }
    requires right { (drawers.2.ledger ≡ ledger.now) × (drawers.3.ledger ≡ ledger.now) }
    ensures left { (result.0.0.0.ledger ≡ ledger.now) × (result.0.1.0.ledger ≡ ledger.now) }
    ensures right { (result.1.0.0.ledger ≡ ledger.now) × (result.1.1.0.ledger ≡ ledger.now) }
{
    let (first, second, third, fourth) = drawers;
    join(
        rt,
        move || -> ((Drawer, Vec<u32>), (Drawer, Vec<u32>))
            requires { (first.ledger ≡ ledger.now) × (second.ledger ≡ ledger.now) }
            ensures { (result.0.0.ledger ≡ ledger.entry.now) × (result.1.0.ledger ≡ ledger.entry.now) }
        { drained_by_two(rt, alloc, ledger, first, second) },
        move || -> ((Drawer, Vec<u32>), (Drawer, Vec<u32>))
            requires { (third.ledger ≡ ledger.now) × (fourth.ledger ≡ ledger.now) }
            ensures { (result.0.0.ledger ≡ ledger.entry.now) × (result.1.0.ledger ≡ ledger.entry.now) }
        { drained_by_two(rt, alloc, ledger, third, fourth) },
    )
}

// Four drawers at places of their own.
fn four_drawers<R: Abort>(
    rt: &R,
    ledger: &Ledger,
    drawer: Drawer,
) -> (Drawer, Drawer, Drawer, Drawer)
    requires { drawer ≡ newcomer ledger.now }
    ensures left { (result.0.ledger ≡ ledger.now) × (result.1.ledger ≡ ledger.now) }
    ensures right { (result.2.ledger ≡ ledger.now) × (result.3.ledger ≡ ledger.now) }
{
    let (mut first, rest) = ledger.split(drawer);
    let (mut second, rest) = ledger.split(rest);
    let (mut third, mut fourth) = ledger.split(rest);
    assert!(rt; ledger.enrol(&mut first, 0) && ledger.enrol(&mut second, 1));
    assert!(rt; ledger.enrol(&mut third, 2) && ledger.enrol(&mut fourth, 3));
    (first, second, third, fourth)
}

// Each two of four drawers meet.
fn meet_all(ledger: &Ledger, first: Drawer, second: Drawer, third: Drawer, fourth: Drawer)
    requires left { (first.ledger ≡ ledger.now) × (second.ledger ≡ ledger.now) }
    requires right { (third.ledger ≡ ledger.now) × (fourth.ledger ≡ ledger.now) }
{
    let (first, second) = ledger.meet(first, second);
    let (first, third) = ledger.meet(first, third);
    let (_, fourth) = ledger.meet(first, fourth);
    let (second, third) = ledger.meet(second, third);
    let (_, fourth) = ledger.meet(second, fourth);
    ledger.meet(third, fourth);
}

// The numbers of four lists, in order.
fn in_order<R: Abort>(rt: &R, alloc: Global, lists: [&[u32]; 4]) -> Vec<u32> {
    let mut all = Vec::new(alloc);
    for list in lists {
        all.extend_from_slice(list).expect(rt, "memory");
    }
    all.as_mut_slice().sort_unstable();
    all
}

#[test]
fn four_threads_draw_each_number_once(rt: HostRuntime) {
    let alloc = rt.alloc();
    let (ledger, drawer) = Ledger::new(alloc, 1000).expect(&rt, "memory");
    let drawers = four_drawers(&rt, &ledger, drawer);
    let (left, right) = drained_by_four(&rt, alloc, &ledger, drawers);
    let ((first, a), (second, b)) = left;
    let ((third, c), (fourth, d)) = right;
    meet_all(&ledger, first, second, third, fourth);
    let numbers = in_order(
        &rt,
        alloc,
        [a.as_slice(), b.as_slice(), c.as_slice(), d.as_slice()],
    );
    assert!(rt; numbers.len() == 1000);
    for i in 0..numbers.len() {
        assert!(rt; numbers[i] as usize == i, "number {i}");
    }
}

// A drawer with its ledger.
#[derive(Drop)]
struct Racer {
    ledger: Arc<Ledger>,
    drawer: Drawer,
    ghost at_home: { drawer.ledger ≡ arc_value ledger },
}

impl Racer {
    fn enrol(&mut self) -> bool {
        self.ledger.enrol(&mut self.drawer, 9)
    }
}

// Two drawers of one ledger.
fn rivals<R: Abort>(rt: &R, alloc: Global) -> (Racer, Racer) {
    let (ledger, drawer) = Ledger::new(alloc, 1).expect(rt, "memory");
    let (first, second) = ledger.split(drawer);
    let ledger = Arc::new(alloc, ledger).expect(rt, "memory");
    let shared = Arc::try_clone(&ledger).expect(rt, "memory");
    (
        Racer {
            ledger,
            drawer: first,
        },
        Racer {
            ledger: shared,
            drawer: second,
        },
    )
}

// The racers that got the place.
fn race<R: Abort>(rt: &R, alloc: Global, racers: Vec<Racer>) -> Vec<bool> {
    let mut won = Vec::new(alloc);
    for mut racer in racers {
        won.push(racer.enrol()).expect(rt, "memory");
    }
    won
}

#[test]
fn one_of_two_threads_gets_a_place(rt: HostRuntime) {
    let alloc = rt.alloc();
    let mut lefts = Vec::new(alloc);
    let mut rights = Vec::new(alloc);
    for _ in 0..RACES {
        let (left, right) = rivals(&rt, alloc);
        lefts.push(left).expect(&rt, "memory");
        rights.push(right).expect(&rt, "memory");
    }
    let (left, right) = join(
        &rt,
        move || race(&rt, alloc, lefts),
        move || race(&rt, alloc, rights),
    );
    assert!(rt; left.len() == RACES && right.len() == RACES);
    for i in 0..RACES {
        assert!(rt; left[i] != right[i], "race {i}");
    }
}
