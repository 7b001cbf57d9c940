//! Draws from a ledger.
ghost use Rattle.std.specs.Prelude.{◌≡◌, [], ◌∷◌};

mod races;

use claims::{Drawer, Ledger, PLACES};
use std::alloc::Global;
use std::process::Abort;

// A ledger of three numbers, and three drawers; the first two have places 0 and 1.
fn with_three<R: Abort>(rt: &R, alloc: Global) -> (Ledger, Drawer, Drawer, Drawer)
    ensures first { result.1.ledger ≡ result.0 }
    ensures others { (result.2.ledger ≡ result.0) × (result.3.ledger ≡ result.0) }
{
    let (ledger, drawer) = Ledger::new(alloc, 3).expect(rt, "memory");
    let (mut first, rest) = ledger.split(drawer);
    let (mut second, third) = ledger.split(rest);
    assert!(rt; ledger.enrol(&mut first, 0) && ledger.enrol(&mut second, 1));
    (ledger, first, second, third)
}

#[test]
fn three_drawers_share_three_numbers(rt: HostRuntime) {
    let (ledger, mut first, mut second, mut third) = with_three(&rt, rt.alloc());
    assert!(rt; ledger.draw(&mut first) == Some(0));
    assert!(rt; ledger.draw(&mut second) == Some(1));
    assert!(rt; ledger.draw(&mut first) == Some(2));
    assert!(rt; ledger.draw(&mut first).is_none() && ledger.draw(&mut second).is_none());
    assert!(rt; ledger.draw(&mut first).is_none() && ledger.draw(&mut second).is_none());
    assert!(rt; !ledger.enrol(&mut third, 0) && !third.has_place());
    assert!(rt; ledger.enrol(&mut third, 2) && third.has_place());
    assert!(rt; ledger.draw(&mut third).is_none());
}

#[test]
fn an_empty_ledger_gives_nothing(rt: HostRuntime) {
    let (ledger, mut drawer) = Ledger::new(rt.alloc(), 0).expect(&rt, "memory");
    assert!(rt; !ledger.enrol(&mut drawer, PLACES) && !drawer.has_place());
    assert!(rt; ledger.enrol(&mut drawer, PLACES - 1));
    assert!(rt; ledger.draw(&mut drawer).is_none() && ledger.draw(&mut drawer).is_none());
}

#[test]
fn a_drawer_has_one_place(rt: HostRuntime) {
    let (ledger, drawer) = Ledger::new(rt.alloc(), 2).expect(&rt, "memory");
    let (mut first, mut second) = ledger.split(drawer);
    assert!(rt; ledger.enrol(&mut first, 5) && !ledger.enrol(&mut first, 6));
    assert!(rt; ledger.enrol(&mut second, 6));
}

#[test]
fn a_drawer_without_a_place_draws_nothing(rt: HostRuntime) {
    let (ledger, drawer) = Ledger::new(rt.alloc(), 2).expect(&rt, "memory");
    let (mut first, mut second) = ledger.split(drawer);
    assert!(rt; ledger.draw(&mut first).is_none());
    assert!(rt; ledger.enrol(&mut second, 6) && ledger.draw(&mut second) == Some(0));
}

#[test]
fn drawers_that_met_draw_on(rt: HostRuntime) {
    let (ledger, drawer) = Ledger::new(rt.alloc(), 3).expect(&rt, "memory");
    let (mut first, second) = ledger.split(drawer);
    assert!(rt; ledger.enrol(&mut first, 7) && ledger.draw(&mut first) == Some(0));
    let (mut first, mut second) = ledger.meet(first, second);
    assert!(rt; first.has_place() && !second.has_place());
    assert!(rt; ledger.draw(&mut first) == Some(1) && ledger.draw(&mut second).is_none());
}

// Three drawers in a list.
fn listed<R: Abort>(
    rt: &R,
    alloc: Global,
    first: Drawer,
    second: Drawer,
    third: Drawer,
) -> Vec<Drawer>
    ensures { result.items ≡ first ∷ second ∷ third ∷ [] }
{
    let mut drawers = Vec::new(alloc);
    drawers.push(first).expect(rt, "memory");
    drawers.push(second).expect(rt, "memory");
    drawers.push(third).expect(rt, "memory");
    drawers
}

// The audit of three drawers.
fn audit_three<R: Abort>(
    rt: &R,
    alloc: Global,
    ledger: &Ledger,
    drawers: (Drawer, Drawer, Drawer),
) -> u64
    requires first { drawers.0.ledger ≡ ledger.now }
    requires second { drawers.1.ledger ≡ ledger.now }
    requires third { drawers.2.ledger ≡ ledger.now }
{
    let (first, second, third) = drawers;
    let all = listed(rt, alloc, first, second, third);
    ledger.audit(all)
}

#[test]
fn an_audit_tells_the_number_that_is_drawn_next(rt: HostRuntime) {
    let alloc = rt.alloc();
    let (ledger, mut first, mut second, third) = with_three(&rt, alloc);
    assert!(rt; ledger.audit(Vec::new(alloc)) == 0);
    assert!(rt; ledger.draw(&mut first) == Some(0) && ledger.draw(&mut second) == Some(1));
    assert!(rt; ledger.audit(Vec::new(alloc)) == 2);
    assert!(rt; ledger.draw(&mut first) == Some(2) && ledger.draw(&mut first).is_none());
    assert!(rt; ledger.draw(&mut first).is_none() && ledger.draw(&mut second).is_none());
    let next = audit_three(&rt, alloc, &ledger, (first, second, third));
    assert!(rt; next == 5, "two drawers asked once too often");
}
