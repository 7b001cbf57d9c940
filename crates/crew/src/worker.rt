ghost use Rattle.std.specs.Prelude.{◌≡◌, ◌<◌, ◌≤◌, [], ◌∷◌, ◌++◌, IsNone, true, IfErr, IfOk, OnOk, length, take};
ghost use Rattle.claims.specs.declared.views.Hand.{Hand};
ghost use Rattle.crew.specs.Work.{IsAtPlace, MayEnd, EndsWith, WasAnswered, AsksTheGate};
ghost use Rattle.crew.specs.inside.Batches.{AreOfLayer};
ghost use Rattle.crew.specs.inside.Ends.{HasEnded, IsEquipped};
ghost use Rattle.crew.specs.inside.Events.{IsTold, DrawsAtLast, HasLeft};

use crate::batch::{append_parcels, draw_batch, expand_each};
use crate::end::End;
use crate::event::draw_rank;
use crate::gate::Gate;
use crate::handing::hand_batch;
use crate::known::LockedBook;
use crate::shared::{Shared, Worker};
use area::Scratch;
use claims::{Drawer, Ledger, PLACES};
use layers::{Book, Layer, Parcel, expand_over};
use std::slice;
use std::sync::atomic::AtomicU64;
use std::sync::{Mutex, Wait};

/// Works on a layer as one worker: draws a rank, expands it without a lock, and hands the parcel back to each of the
/// books in order, each under the lock of that book alone. The workers of [`solve`](crate::solve) do the same with
/// batches of ranks. While another worker holds a book, this one enters the pending successors of the book of its own
/// number. The worker's place in the ledger is its number. After each draw that gives a rank, and each parcel that a
/// book accepted, it calls the gate without a lock.
///
/// Each of the books is made for `workers` workers. Any book may be behind a lock, so under the lock the worker
/// compares level, layer and number of workers. It ends with [`End::Stopped`] only if the gate may stop a worker,
/// with [`End::Drained`] only if its drawer has its place and is spent out, with [`End::NoPlace`] only if its drawer
/// has seen that place taken, with [`End::Refused`] only if a book of its own did not accept a parcel of the layer,
/// for that reason, and with [`End::Foreign`] only if a book was not its own: of another level, at another layer, or
/// made for another number of workers or for none of its number.
///
/// Its events are the ranks that it drew and the parcels that books accepted. It calls the gate after each event with
/// the event's number, and ends as stopped at the first event after which the gate stops it. If it ends as drained,
/// each book has accepted a parcel for each rank that it drew.
pub fn work<R: Wait, G: Gate>(
    rt: &R,
    layer: &Layer,
    books: &[Mutex<Book>],
    ledger: &Ledger,
    drawer: &mut Drawer,
    workers: u8,
    worker: u8,
    scratch: &mut Scratch,
    gate: &G,
) -> End
    requires room { scratch.old.size ≡ length layer.now.level.board.cells }
    requires ranks { ledger.now.len ≤ length layer.now.places }
    requires drawer { (drawer.old.ledger ≡ ledger.now) × IsNone drawer.old.hand.place }
    requires place { worker < PLACES }
    ensures end { MayEnd G.may_stop result }
    ensures hand { EndsWith worker drawer.new.hand result }
    ensures answered { WasAnswered layer.now workers worker result }
    ensures gate { AsksTheGate (G.may_answer gate.now layer.now.number worker) (length books.now) drawer.old.hand
        drawer.new.hand result }
    ensures ledger { drawer.new.ledger ≡ ledger.now }
    ensures size { scratch.new.size ≡ scratch.old.size }
{
    let held = AtomicU64::new(0);
    let shared = Shared {
        problem: layer.problem(),
        layer,
        books,
        ledger,
        workers,
        held: &held,
    };
    let mut parcels = Vec::new(scratch.allocator());
    work_at(rt, &shared, gate, drawer, worker, scratch, &mut parcels)
}

// Works on a layer as [`work`] does, by batches of at most as many ranks as there is capacity for parcels.
// The parcels are kept from layer to layer.
pub(crate) fn work_at<'a, R: Wait, G: Gate, B: LockedBook>(
    rt: &R,
    shared: &Shared<'_, 'a, B>,
    gate: &G,
    drawer: &mut Drawer,
    worker: u8,
    scratch: &mut Scratch,
    parcels: &mut Vec<Parcel<'a>>,
) -> End
    requires room { scratch.old.size ≡ length shared.now.layer.level.board.cells }
    requires drawer { (drawer.old.ledger ≡ shared.now.ledger) × IsNone drawer.old.hand.place }
    requires place { worker < PLACES }
    ensures ends { HasEnded G.may_stop shared.now.layer shared.now.workers worker drawer.new.hand result }
    ensures gate { AsksTheGate (G.may_answer gate.now shared.now.layer.number worker) shared.now.books drawer.old.hand
        drawer.new.hand result }
    ensures ledger { drawer.new.ledger ≡ shared.now.ledger }
    ensures size { scratch.new.size ≡ scratch.old.size }
{
    if !shared.ledger.enrol(drawer, worker) {
        return End::NoPlace;
    }
    let own = Worker::new(rt, shared, gate, worker);
    work_enrolled(&own, drawer, scratch, parcels)
}

// Works on a layer as [`work`] does, once the drawer has its place.
fn work_enrolled<'a, R: Wait, G: Gate, B: LockedBook>(
    worker: &Worker<'_, '_, '_, 'a, R, G, B>,
    drawer: &mut Drawer,
    scratch: &mut Scratch,
    parcels: &mut Vec<Parcel<'a>>,
) -> End
    requires ready { IsEquipped worker.now.shared.now worker.now.number scratch.old drawer.old }
    ensures ends { HasEnded G.may_stop worker.now.shared.now.layer worker.now.shared.now.workers worker.now.number
        drawer.new.hand result }
    ensures gate { AsksTheGate (G.may_answer worker.now.gate.now worker.now.shared.now.layer.number worker.now.number)
        worker.now.shared.now.books drawer.old.hand drawer.new.hand result }
    ensures ledger { drawer.new.ledger ≡ worker.now.shared.now.ledger }
    ensures size { scratch.new.size ≡ scratch.old.size }
{
    let shared = worker.shared;
    let mut nth = 0;
    let rank = match draw(worker, drawer, &mut nth) {
        Ok(rank) => rank,
        Err(end) => return end,
    };
    append_parcels(shared, rank, scratch, parcels);
    if parcels.is_empty() {
        return with_own_parcel(worker, drawer, scratch, &mut nth, rank);
    }
    let parcels = parcels.as_mut_slice();
    expand_each(shared, slice::from_ref(&rank), scratch, parcels);
    by_batches(worker, drawer, scratch, &mut nth, parcels)
}

// Works as [`by_batches`] does, with one parcel on the stack, that of a rank. Only a worker without memory for parcels
// takes this large stack frame.
#[inline(never)]
fn with_own_parcel<R: Wait, G: Gate, B: LockedBook>(
    worker: &Worker<'_, '_, '_, '_, R, G, B>,
    drawer: &mut Drawer,
    scratch: &mut Scratch,
    nth: &mut u64,
    rank: u64,
) -> End
    requires ready { IsEquipped worker.now.shared.now worker.now.number scratch.old drawer.old }
    requires within { rank < length worker.now.shared.now.layer.places }
    ensures ends { HasEnded G.may_stop worker.now.shared.now.layer worker.now.shared.now.workers worker.now.number
        drawer.new.hand result }
    ensures gate { (hand : Hand) → HasLeft (G.may_answer worker.now.gate.now worker.now.shared.now.layer.number
        worker.now.number) worker.now.shared.now.books 1 hand drawer.old.hand nth.old → AsksTheGate (G.may_answer
        worker.now.gate.now worker.now.shared.now.layer.number worker.now.number) worker.now.shared.now.books hand
        drawer.new.hand result }
    ensures ledger { drawer.new.ledger ≡ worker.now.shared.now.ledger }
    ensures size { scratch.new.size ≡ scratch.old.size }
{
    let shared = worker.shared;
    let mut own = [expand_over(shared.problem, shared.layer, rank, scratch)];
    by_batches(worker, drawer, scratch, nth, &mut own)
}

// Hands back the first parcel, and then draws batch after batch and hands back the parcels of each.
fn by_batches<'a, R: Wait, G: Gate, B: LockedBook>(
    worker: &Worker<'_, '_, '_, 'a, R, G, B>,
    drawer: &mut Drawer,
    scratch: &mut Scratch,
    nth: &mut u64,
    parcels: &mut [Parcel<'a>],
) -> End
    requires ready { IsEquipped worker.now.shared.now worker.now.number scratch.old drawer.old }
    requires some { 0 < length parcels.old }
    requires first { AreOfLayer worker.now.shared.now.layer (take 1 parcels.old) }
    ensures ends { HasEnded G.may_stop worker.now.shared.now.layer worker.now.shared.now.workers worker.now.number
        drawer.new.hand result }
    ensures gate { (hand : Hand) → HasLeft (G.may_answer worker.now.gate.now worker.now.shared.now.layer.number
        worker.now.number) worker.now.shared.now.books 1 hand drawer.old.hand nth.old → AsksTheGate (G.may_answer
        worker.now.gate.now worker.now.shared.now.layer.number worker.now.number) worker.now.shared.now.books hand
        drawer.new.hand result }
    ensures ledger { drawer.new.ledger ≡ worker.now.shared.now.ledger }
    ensures size { scratch.new.size ≡ scratch.old.size }
{
    let mut filled = 1;
    for _ in worker.rt.forever() {
        if let Err(end) = hand_batch(worker, &parcels[..filled], nth) {
            return end;
        }
        match draw_batch(worker, drawer, scratch, nth, parcels) {
            Ok(count) => filled = count,
            Err(end) => return end,
        }
        if filled == 0 {
            return End::Drained;
        }
    }
    unreachable!()
}

// Draws a rank of the layer, and then passes the gate.
pub(crate) fn draw<R: Wait, G: Gate, B: LockedBook>(
    worker: &Worker<'_, '_, '_, '_, R, G, B>,
    drawer: &mut Drawer,
    nth: &mut u64,
) -> Result<u64, End>
    requires place { IsAtPlace worker.now.shared.now.ledger worker.now.number drawer.old }
    ensures within { IfOk result (λ rank. rank < length worker.now.shared.now.layer.places) }
    ensures drawn { IfOk result (λ rank. drawer.new.hand.numbers ≡ drawer.old.hand.numbers ++ rank ∷ []) }
    ensures ends { IfErr result
        (λ end. HasEnded G.may_stop worker.now.shared.now.layer worker.now.shared.now.workers worker.now.number
        drawer.new.hand end) }
    ensures goes_on { OnOk result (IsTold (G.may_answer worker.now.gate.now worker.now.shared.now.layer.number
        worker.now.number) nth.old true nth.new) }
    ensures gate { IfErr result (λ end. DrawsAtLast (G.may_answer worker.now.gate.now
        worker.now.shared.now.layer.number worker.now.number) drawer.old.hand nth.old drawer.new.hand nth.new end) }
    ensures place { IsAtPlace worker.now.shared.now.ledger worker.now.number drawer.new }
{
    let shared = worker.shared;
    let event = draw_rank(shared.layer, shared.ledger, drawer, worker.number)?;
    let rank = event.rank();
    worker.pass(event, nth)?;
    Ok(rank)
}
