//! Lending books to workers, each behind a lock of its own, and taking them back.
ghost use Rattle.std.specs.Prelude.{◌≡◌, ◌↔◌, ◌≤◌, IsTrue, IfOk, length};
ghost use Rattle.std.specs.Bool.{MatchBool};
ghost use Rattle.claims.specs.Hands.{newcomer};
ghost use Rattle.crew.specs.Configured.{IsWithinLimits};
ghost use Rattle.crew.specs.Lending.{ComesBack, ComeBack};
ghost use Rattle.crew.specs.inside.Known.{AreOf};

use crate::config::Config;
use crate::desks::Desks;
use crate::gate::Gate;
use crate::held::Within;
use crate::known::{KnownBook, OneProblem};
use crate::settings::Settings;
use crate::shared::Shared;
use claims::{Drawer, Ledger};
use layers::{Book, Layer};
use std::alloc::{AllocError, Global};
use std::marker::Brand;
use std::sync::atomic::AtomicU64;
use std::sync::{Mutex, Wait};
use std::thread::Threads;

// Lets the workers at the desks work on a layer with the books, which are of its level and hold `positions` positions
// together, and returns what is behind the locks once all workers have ended, each soon after the books hold more than
// the limit. Fails only if out of memory.
pub(crate) fn lend<'a, R: Threads + Wait + Sync, G: Gate + Sync>(
    rt: &R,
    settings: &Settings<'_, G>,
    books: Vec<Book>,
    layer: &Layer,
    desks: &mut Desks<'a>,
    positions: u64,
) -> Result<Vec<Book>, AllocError>
    requires few { length layer.now.places ≤ settings.now.config.limit }
    requires desks { desks.old ≡ layer.now.level }
    requires books { AreOf layer.now.level books.items }
    ensures desks { desks.new ≡ desks.old }
{
    lend_known::<R, G, Brand>(rt, settings, books, layer, desks, positions)
}

// `lend` where the problem of `K` is the layer's.
fn lend_known<'a, R: Threads + Wait + Sync, G: Gate + Sync, K: OneProblem + Send>(
    rt: &R,
    settings: &Settings<'_, G>,
    books: Vec<Book>,
    layer: &Layer,
    desks: &mut Desks<'a>,
    positions: u64,
) -> Result<Vec<Book>, AllocError>
    requires few { length layer.now.places ≤ settings.now.config.limit }
    requires desks { desks.old ≡ layer.now.level }
    requires books { AreOf layer.now.level books.items }
    requires problem { K.problem ≡ layer.now.level }
    ensures desks { desks.new ≡ desks.old }
{
    let alloc = settings.alloc;
    let limit = settings.config.limit;
    let (ledger, drawer) = ledger_of(alloc, layer, limit)?;
    let locks = lock_each::<K>(alloc, books)?;
    let held = AtomicU64::new(positions);
    let gate = Within {
        gate: settings.gate,
        held: &held,
        limit,
    };
    let shared = Shared {
        problem: desks.problem(),
        layer,
        books: locks.as_slice(),
        ledger: &ledger,
        workers: settings.config.workers.saturating_add(1),
        held: &held,
    };
    desks.work(rt, &shared, &gate, drawer);
    unlock_each(alloc, locks)
}

// A ledger of the layer's ranks, which are at most `_limit`, and a drawer without a place. Fails only if out of memory.
fn ledger_of(alloc: Global, layer: &Layer, _limit: u32) -> Result<(Ledger, Drawer), AllocError>
    requires { length layer.now.places ≤ _limit }
    ensures { IfOk result (λ made. (made.0.len ≡ length layer.now.places) × (made.1 ≡ newcomer made.0)) }
{
    Ledger::new(alloc, layer.len() as u32)
}

// Each of the books, which are of the problem of `K`, behind a lock of its own, in order. Fails only if out of memory.
fn lock_each<K: OneProblem>(
    alloc: Global,
    books: Vec<Book>,
) -> Result<Vec<Mutex<KnownBook<K>>>, AllocError>
    requires { AreOf K.problem books.items }
{
    let mut locks = Vec::with_capacity(alloc, books.len())?;
    for book in books {
        locks.push(Mutex::new(KnownBook::of(book)))?;
    }
    Ok(locks)
}

// The book behind each of the locks, in order. Fails only if out of memory.
fn unlock_each<K: OneProblem>(
    alloc: Global,
    locks: Vec<Mutex<KnownBook<K>>>,
) -> Result<Vec<Book>, AllocError> {
    let mut books = Vec::with_capacity(alloc, locks.len())?;
    for lock in locks {
        books.push(lock.into_inner().into_book())?;
    }
    Ok(books)
}

// Whether these may be the books that were lent: all shares in order, made by the configuration for the layer's level,
// and each at work on the layer.
pub(crate) fn come_back(books: &[Book], config: Config, layer: &Layer) -> bool
    requires { IsWithinLimits config }
    ensures { MatchBool result (ComeBack config layer.now books.now) (¬ (ComeBack config layer.now books.now)) }
{
    if books.len() != config.locks as usize {
        return false;
    }
    for place in 0..books.len() {
        if !is_lent_book(&books[place], place, config, layer) {
            return false;
        }
    }
    true
}

// Whether a book shows what the book lent at an index must show.
fn is_lent_book(book: &Book, place: usize, config: Config, layer: &Layer) -> bool
    requires { IsWithinLimits config }
    ensures { IsTrue result ↔ ComesBack config layer.now place book.now }
{
    book.tell();
    book.limit() == config.limit
        && book.workers() == config.workers + 1
        && book.share() as usize == place
        && book.shares() == config.locks
        && book.layer() == layer.number()
        && book.has_begun()
        && book.is_of_layer(layer)
}
