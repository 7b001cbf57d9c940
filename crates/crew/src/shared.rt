//! The data that the workers of a layer share, and a worker.
ghost use Rattle.std.specs.Prelude.{◌≡◌, ℕ, true, IfErr, OnOk};
ghost use Rattle.claims.specs.declared.views.Hand.{Hand};
ghost use Rattle.layers.specs.LayerView.{LayerView};
ghost use Rattle.crew.specs.declared.end.End.TheVariants.{Stopped};
ghost use Rattle.crew.specs.inside.Ends.{HasEnded};
ghost use Rattle.crew.specs.inside.Events.{IsTold, EndsAtOnce};

use crate::end::End;
use crate::event::Event;
use crate::gate::Gate;
use crate::known::LockedBook;
use claims::Ledger;
use layers::{Layer, Problem};
use std::marker::Model;
use std::sync::atomic::AtomicU64;
use std::sync::{Mutex, Wait};

/// The data that the workers of a layer share: the layer and its problem, the books, each behind a lock of its own, the
/// ledger of the layer's ranks, and the number of workers for which the books are made. Contracts see the layer, the
/// ledger, the number of books, and the number of workers.
#[derive(Drop)]
pub(crate) struct Shared<'s, 'a, B: LockedBook> {
    pub(crate) problem: &'a Problem,
    pub(crate) layer: &'s Layer,
    pub(crate) books: &'s [Mutex<B>],
    pub(crate) ledger: &'s Ledger,
    pub(crate) workers: u8,
    // the number of positions of all books, as the workers add to it
    pub(crate) held: &'s AtomicU64,
}

impl<'s, 'a, B: LockedBook> Model for Shared<'s, 'a, B> {
    ghost use Rattle.std.specs.Prelude.{length};
    ghost use Rattle.crew.specs.inside.Sharing.{AreOfOneLayer, SharedView};

    ghost Value = { SharedView };

    ghost view = { λ a. record {
      layer = a.layer.now;
      ledger = a.ledger.now;
      books = length a.books.now;
      workers = a.workers;
    } };

    ghost invariant = { λ a. AreOfOneLayer a.layer.now a.problem.now a.ledger.now × B.takes a.layer.now.level };
}

/// A worker of a layer: its number, the handle with which it may block, and the gate, which only [`Worker::pass`]
/// calls.
#[derive(Drop)]
pub(crate) struct Worker<'r, 'p, 's, 'a, R: Wait, G: Gate, B: LockedBook> {
    pub(crate) rt: &'r R,
    pub(crate) shared: &'p Shared<'s, 'a, B>,
    pub(crate) number: u8,
    gate: &'p G,
}

impl<'r, 'p, 's, 'a, R: Wait, G: Gate, B: LockedBook> Worker<'r, 'p, 's, 'a, R, G, B> {
    /// A worker with a number.
    pub(crate) fn new(
        rt: &'r R,
        shared: &'p Shared<'s, 'a, B>,
        gate: &'p G,
        number: u8,
    ) -> Worker<'r, 'p, 's, 'a, R, G, B>
        ensures shared { result.shared.now ≡ shared.now }
        ensures gate { result.gate.now ≡ gate.now }
        ensures number { result.number ≡ number }
    {
        Worker {
            rt,
            shared,
            number,
            gate,
        }
    }

    /// Counts an event of this worker, and calls the gate.
    pub(crate) fn pass(&self, _event: Event, nth: &mut u64) -> Result<(), End>
        requires own { _event.worker ≡ self.now.number }
        ensures stops { IfErr result (λ end. end ≡ Stopped) }
        ensures ends { (layer : LayerView) (workers : ℕ) (hand : Hand) →
            IfErr result (λ end. HasEnded G.may_stop layer workers self.now.number hand end) }
        ensures goes_on { OnOk result
            (IsTold (G.may_answer self.now.gate.now self.now.shared.now.layer.number self.now.number) nth.old true
            nth.new) }
        ensures gate { IfErr result
            (λ end. EndsAtOnce (G.may_answer self.now.gate.now self.now.shared.now.layer.number self.now.number) nth.old
            nth.new end) }
    {
        let shared = self.shared;
        *nth = nth.saturating_add(1);
        if self.gate.pass(shared.layer.number(), self.number, *nth) {
            Ok(())
        } else {
            Err(End::Stopped)
        }
    }
}
