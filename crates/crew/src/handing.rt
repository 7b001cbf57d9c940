//! Handing parcels back to books, each under the lock of its book.
ghost use Rattle.std.specs.Prelude.{◌*◌, true, IfErr, OnOk, length};
ghost use Rattle.layers.specs.BookView.{IsLawfulBook};
ghost use Rattle.claims.specs.declared.views.Hand.{Hand};
ghost use Rattle.crew.specs.Work.{IsOfLayer};
ghost use Rattle.crew.specs.inside.Batches.{AreOfLayer};
ghost use Rattle.crew.specs.inside.Ends.{HasEnded};
ghost use Rattle.crew.specs.inside.Events.{IsTold, MayGoOn, EndsAtOnce, IsCutOff};
ghost use Rattle.crew.specs.inside.Handing.{HandsBack, WasHandedBack};

use crate::end::End;
use crate::event::Event;
use crate::gate::Gate;
use crate::known::LockedBook;
use crate::locking::with_lock;
use crate::shared::{Shared, Worker};
use layers::Parcel;
use std::sync::{Mutex, Wait};

// Hands the parcels of a batch back to each of the books in order.
pub(crate) fn hand_batch<R: Wait, G: Gate, B: LockedBook>(
    worker: &Worker<'_, '_, '_, '_, R, G, B>,
    batch: &[Parcel<'_>],
    nth: &mut u64,
) -> Result<(), End>
    requires { AreOfLayer worker.now.shared.now.layer batch.now }
    ensures ends { (hand : Hand) → IfErr result
        (λ end. HasEnded G.may_stop worker.now.shared.now.layer worker.now.shared.now.workers worker.now.number hand
        end) }
    ensures goes_on { OnOk result (MayGoOn (G.may_answer worker.now.gate.now worker.now.shared.now.layer.number
        worker.now.number) nth.old (worker.now.shared.now.books * length batch.now) nth.new) }
    ensures gate { IfErr result (λ end. IsCutOff (G.may_answer worker.now.gate.now worker.now.shared.now.layer.number
        worker.now.number) (worker.now.shared.now.books * length batch.now) nth.old nth.new end) }
{
    let shared = worker.shared;
    for book in shared.books {
        hand_batch_to(worker, book, batch, nth)?;
    }
    Ok(())
}

// Hands the parcels of a batch back to one book, in order.
fn hand_batch_to<R: Wait, G: Gate, B: LockedBook>(
    worker: &Worker<'_, '_, '_, '_, R, G, B>,
    book: &Mutex<B>,
    batch: &[Parcel<'_>],
    nth: &mut u64,
) -> Result<(), End>
    requires { AreOfLayer worker.now.shared.now.layer batch.now }
    ensures ends { (hand : Hand) → IfErr result
        (λ end. HasEnded G.may_stop worker.now.shared.now.layer worker.now.shared.now.workers worker.now.number hand
        end) }
    ensures goes_on { OnOk result (MayGoOn (G.may_answer worker.now.gate.now worker.now.shared.now.layer.number
        worker.now.number) nth.old (length batch.now) nth.new) }
    ensures gate { IfErr result (λ end. IsCutOff (G.may_answer worker.now.gate.now worker.now.shared.now.layer.number
        worker.now.number) (length batch.now) nth.old nth.new end) }
{
    for parcel in batch {
        hand_over(worker, book, parcel, nth)?;
    }
    Ok(())
}

// Hands a parcel back to the book behind a lock, and then passes the gate.
fn hand_over<R: Wait, G: Gate, B: LockedBook>(
    worker: &Worker<'_, '_, '_, '_, R, G, B>,
    book: &Mutex<B>,
    parcel: &Parcel<'_>,
    nth: &mut u64,
) -> Result<(), End>
    requires { IsOfLayer worker.now.shared.now.layer parcel.now }
    ensures ends { (hand : Hand) → IfErr result
        (λ end. HasEnded G.may_stop worker.now.shared.now.layer worker.now.shared.now.workers worker.now.number hand
        end) }
    ensures goes_on { OnOk result
        (IsTold (G.may_answer worker.now.gate.now worker.now.shared.now.layer.number worker.now.number) nth.old true
        nth.new) }
    ensures gate { IfErr result (λ end. EndsAtOnce (G.may_answer worker.now.gate.now
        worker.now.shared.now.layer.number worker.now.number) nth.old nth.new end) }
{
    let event = hand_to(worker.rt, worker.shared, worker.number, book, parcel)?;
    worker.pass(event, nth)
}

// Hands a parcel of the layer back to the book behind a lock. It knows no gate, so none is called under the lock.
fn hand_to<R: Wait, B: LockedBook>(
    rt: &R,
    shared: &Shared<'_, '_, B>,
    worker: u8,
    book: &Mutex<B>,
    parcel: &Parcel<'_>,
) -> Result<Event, End>
    requires { IsOfLayer shared.now.layer parcel.now }
    ensures { WasHandedBack shared.now.layer shared.now.workers worker parcel.now result }
{
    let layer = shared.layer;
    let workers = shared.workers;
    let held = shared.held;
    with_lock(
        rt,
        shared,
        worker,
        book,
        &|book: &mut B|
            requires parcel { IsOfLayer layer.now parcel.now }
            requires takes { B.takes layer.now.level }
            ensures handed { HandsBack layer.entry.now workers worker parcel.entry.now (B.book book.entry.now) result
                (B.book book.exit.now) }
            ensures lawful { IsLawfulBook (B.book book.entry.now) }
        { book.hand_in(layer, workers, held, worker, parcel) },
    )
}
