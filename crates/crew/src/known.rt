//! What is behind a lock: any book, or one that is known to be of a problem, so that no worker compares its level.
ghost use Rattle.std.specs.Prelude.{⊤, ◌≡◌, [], None};
ghost use Rattle.successors.specs.Problems.{Problem};
ghost use Rattle.layers.specs.BookView.{BookView, IsLawfulBook};
ghost use Rattle.crew.specs.Work.{IsOfLayer};
ghost use Rattle.crew.specs.inside.Handing.{HandsBack};

use crate::end::End;
use crate::event::{Event, hand_in};
use crate::held::enter_into;
use layers::{Book, Layer, Parcel};
use std::marker::{Brand, Model, PhantomData};
use std::sync::atomic::AtomicU64;

/// A problem. Only proofs know it: a caller picks it where it passes [`Brand`].
pub(crate) trait OneProblem {
    ghost problem: { Problem };
}

impl OneProblem for Brand {
    ghost problem = { record { board = record { cols = 0; cells = [] }; cap = None } };
}

/// A book behind a lock.
pub(crate) trait LockedBook {
    // the book as contracts see it
    ghost book: { Self → BookView };

    // whether parcels of the problem may be handed in
    ghost takes: { Problem → Type 0 };

    /// Hands a parcel of the layer back, as [`hand_in`] does.
    fn hand_in(
        &mut self,
        layer: &Layer,
        workers: u8,
        held: &AtomicU64,
        worker: u8,
        parcel: &Parcel<'_>,
    ) -> Result<Event, End>
        requires parcel { IsOfLayer layer.now parcel.now }
        requires takes { takes layer.now.level }
        ensures handed { HandsBack layer.now workers worker parcel.now (book self.old) result (book self.new) }
        ensures lawful { IsLawfulBook (book self.old) };

    /// Enters its pending successors, as [`enter_into`] does.
    fn enter_into(&mut self, held: &AtomicU64, least: usize) -> bool
        ensures { self.new ≡ self.old };
}

impl LockedBook for Book {
    ghost book = { λ book. book };

    ghost takes = { λ _. ⊤ };

    fn hand_in(
        &mut self,
        layer: &Layer,
        workers: u8,
        held: &AtomicU64,
        worker: u8,
        parcel: &Parcel<'_>,
    ) -> Result<Event, End> {
        self.tell();
        if !self.is_of_layer(layer) {
            return Err(End::Foreign);
        }
        hand_in(self, layer, workers, held, worker, parcel)
    }

    fn enter_into(&mut self, held: &AtomicU64, least: usize) -> bool {
        enter_into(self, held, least)
    }
}

/// A book that is known to be of the problem of `K`.
#[derive(Drop)]
pub(crate) struct KnownBook<K: OneProblem> {
    book: Book,
    of: PhantomData<K>,
}

impl<K: OneProblem> Model for KnownBook<K> {
    ghost use Rattle.std.specs.Prelude.{◌≡◌};
    ghost use Rattle.layers.specs.BookView.{BookView};

    ghost Value = { BookView };

    ghost view = { λ a. a.book };

    ghost invariant = { λ a. a.book.level ≡ K.problem };
}

impl<K: OneProblem> KnownBook<K> {
    /// A book of the problem.
    pub(crate) fn of(book: Book) -> KnownBook<K>
        requires { book.level ≡ K.problem }
    {
        KnownBook {
            book,
            of: PhantomData,
        }
    }

    /// The book.
    pub(crate) fn into_book(self) -> Book {
        self.book
    }
}

impl<K: OneProblem> LockedBook for KnownBook<K> {
    ghost book = { λ book. book };

    ghost takes = { λ problem. K.problem ≡ problem };

    fn hand_in(
        &mut self,
        layer: &Layer,
        workers: u8,
        held: &AtomicU64,
        worker: u8,
        parcel: &Parcel<'_>,
    ) -> Result<Event, End> {
        hand_in(&mut self.book, layer, workers, held, worker, parcel)
    }

    fn enter_into(&mut self, held: &AtomicU64, least: usize) -> bool {
        enter_into(&mut self.book, held, least)
    }
}
