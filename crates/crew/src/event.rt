//! The events of a worker. Each gives a value, and only with such a value does the worker call the gate.
ghost use Rattle.std.specs.Prelude.{◌≡◌, ◌≤◌, IfErr, IfOk, OnErr, length};
ghost use Rattle.layers.specs.BookView.{IsLawfulBook};
ghost use Rattle.crew.specs.Work.{IsAtPlace, IsOfLayer, HasDrawn, DrawEnds};
ghost use Rattle.crew.specs.inside.Handing.{HandsBack};

use crate::end::End;
use crate::held::tell_growth;
use claims::{Drawer, Ledger};
use layers::{Book, Layer, Parcel, Refusal};
use std::sync::atomic::AtomicU64;

/// An event of a worker: it drew the rank, or a book accepted its parcel of the rank. Only [`draw_rank`] and
/// [`hand_in`] make one.
#[derive(Drop)]
pub(crate) struct Event {
    worker: u8,
    rank: u64,
}

impl Event {
    /// The rank.
    pub(crate) fn rank(&self) -> u64
        ensures { result ≡ self.now.rank }
    {
        self.rank
    }
}

/// Draws a rank of the layer.
pub(crate) fn draw_rank(
    layer: &Layer,
    ledger: &Ledger,
    drawer: &mut Drawer,
    worker: u8,
) -> Result<Event, End>
    requires ranks { ledger.now.len ≤ length layer.now.places }
    requires place { IsAtPlace ledger.now worker drawer.old }
    ensures ok { IfOk result (λ event. HasDrawn layer.now ledger.now drawer.old.hand event.rank drawer.new.hand) }
    ensures own { IfOk result (λ event. event.worker ≡ worker) }
    ensures none { OnErr result (drawer.new.hand.numbers ≡ drawer.old.hand.numbers) }
    ensures end { IfErr result (λ end. DrawEnds worker drawer.new.hand end) }
    ensures place { IsAtPlace ledger.now worker drawer.new }
{
    match ledger.draw(drawer) {
        Some(rank) => Ok(Event {
            worker,
            rank: u64::from(rank),
        }),
        None => Err(End::Drained),
    }
}

/// Hands a parcel of the layer back to a book of its level, and adds the book's growth to the shared number of
/// positions.
pub(crate) fn hand_in(
    book: &mut Book,
    layer: &Layer,
    workers: u8,
    held: &AtomicU64,
    worker: u8,
    parcel: &Parcel<'_>,
) -> Result<Event, End>
    requires parcel { IsOfLayer layer.now parcel.now }
    requires level { book.old.level ≡ layer.now.level }
    ensures handed { HandsBack layer.now workers worker parcel.now book.old result book.new }
    ensures lawful { IsLawfulBook book.old }
{
    book.tell();
    if book.workers() != workers {
        return Err(End::Foreign);
    }
    if worker >= workers {
        return Err(End::Foreign);
    }
    let before = book.positions_at_least();
    let handed = book.hand_back_own(worker, parcel);
    tell_growth(held, before, book.positions_at_least());
    match handed {
        Ok(()) => Ok(Event {
            worker,
            rank: parcel.rank(),
        }),
        Err(Refusal::OtherLevel) => Err(End::Foreign),
        Err(Refusal::OtherLayer) => Err(End::Foreign),
        Err(refusal) => Err(End::Refused(refusal)),
    }
}
