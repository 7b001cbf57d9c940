//! What the workers of a search keep from layer to layer.
ghost use Rattle.std.specs.Prelude.{◌≡◌, ℕ, ◌+◌, ◌≤◌, Some, length};
ghost use Rattle.claims.specs.Hands.{newcomer};
ghost use Rattle.crew.specs.inside.Desks.{AreRoomy, HaveDrawers};

use crate::batch::most_of_one;
use crate::gate::Gate;
use crate::known::LockedBook;
use crate::shared::Shared;
use crate::workers::work_all;
use area::Scratch;
use claims::{Drawer, Ledger, PLACES};
use grid::Level;
use layers::{Parcel, Problem};
use std::alloc::{AllocError, Global};
use std::marker::Model;
use std::sync::Wait;
use std::thread::Threads;

/// The memory of a worker: a scratch and parcels, which it keeps from layer to layer, and a drawer of the ledger of the
/// current layer.
#[derive(Drop)]
pub(crate) struct Desk<'a> {
    pub(crate) scratch: Scratch,
    // with capacity for the greatest batch
    pub(crate) parcels: Vec<Parcel<'a>>,
    pub(crate) drawer: Option<Drawer>,
    // keeps what the next worker writes off the cache lines that this one reads
    apart: [u64; 16],
}

/// The desks of workers over one problem.
#[derive(Drop)]
pub(crate) struct Desks<'a> {
    problem: &'a Problem,
    desks: Vec<Desk<'a>>,
}

impl<'a> Model for Desks<'a> {
    ghost use Rattle.std.specs.Prelude.{◌≤◌, length};
    ghost use Rattle.successors.specs.Problems.{Problem};
    ghost use Rattle.claims.specs.declared.ledger.TheConstants.{PLACES};
    ghost use Rattle.crew.specs.inside.Desks.{AreRoomy};

    ghost Value = { Problem };

    ghost view = { λ a. a.problem.now };

    ghost invariant = { λ a. (length a.desks.items ≤ PLACES) ×
        AreRoomy (length a.problem.now.board.cells) a.desks.items };
}

impl<'a> Desks<'a> {
    /// Desks for `workers` workers, or for fewer if memory runs out.
    pub(crate) fn of(alloc: Global, problem: &'a Problem, workers: u8) -> Desks<'a>
        requires { workers ≤ PLACES }
        ensures { result ≡ problem.now }
    {
        let desks = desks_of(alloc, problem.level(), workers);
        Desks { problem, desks }
    }

    /// The problem.
    pub(crate) fn problem(&self) -> &'a Problem
        ensures { result.now ≡ self.now }
    {
        self.problem
    }

    /// Lets the workers at these desks work on a layer, and waits until all of them have ended.
    pub(crate) fn work<R: Threads + Wait + Sync, G: Gate + Sync, B: LockedBook + Send>(
        &mut self,
        rt: &R,
        shared: &Shared<'_, 'a, B>,
        gate: &G,
        drawer: Drawer,
    )
        requires problem { self.old ≡ shared.now.layer.level }
        requires drawer { drawer ≡ newcomer shared.now.ledger }
        ensures { self.new ≡ self.old }
    {
        work_first(rt, self.desks.as_mut_slice(), shared, gate, drawer);
    }
}

// Desks for `workers` workers, or for fewer if memory runs out.
fn desks_of<'a>(alloc: Global, level: &Level, workers: u8) -> Vec<Desk<'a>>
    ensures many { length result.items ≤ workers }
    ensures room { AreRoomy (length level.now.cells) result.items }
{
    let mut desks = Vec::new(alloc);
    for _ in 0..workers {
        if append_desk(alloc, level, workers, &mut desks).is_err() {
            return desks;
        }
    }
    desks
}

// Appends a desk for one of `workers` workers. Fails only if out of memory, and then leaves the desks unchanged.
fn append_desk<'a>(
    alloc: Global,
    level: &Level,
    workers: u8,
    desks: &mut Vec<Desk<'a>>,
) -> Result<(), AllocError>
    ensures many { length desks.new.items ≤ length desks.old.items + 1 }
    ensures room { AreRoomy (length level.now.cells) desks.old.items →
        AreRoomy (length level.now.cells) desks.new.items }
{
    let parcels = Vec::with_capacity(alloc, most_of_one(workers))?;
    let scratch = Scratch::new(alloc, level)?;
    desks.push(Desk {
        scratch,
        parcels,
        drawer: None,
        apart: [0; 16],
    })?;
    Ok(())
}

// Gives drawers to at most as many workers as the layer has ranks, lets these work, and waits until all of them have
// ended. One more would draw no rank, and its thread would start for nothing.
fn work_first<'a, R: Threads + Wait + Sync, G: Gate + Sync, B: LockedBook + Send>(
    rt: &R,
    desks: &mut [Desk<'a>],
    shared: &Shared<'_, 'a, B>,
    gate: &G,
    drawer: Drawer,
)
    requires places { length desks.old ≤ PLACES }
    requires room { AreRoomy (length shared.now.layer.level.board.cells) desks.old }
    requires drawer { drawer ≡ newcomer shared.now.ledger }
    ensures room { AreRoomy (length shared.now.layer.level.board.cells) desks.new }
{
    let many = most_at_work(desks.len(), shared.layer.len());
    let first = &mut desks[..many];
    deal(shared.ledger, drawer, first);
    work_all(rt, first, shared, gate);
}

// The number of workers that can each draw one of the ranks.
fn most_at_work(workers: usize, ranks: u64) -> usize
    ensures { result ≤ workers }
{
    ranks.min(workers as u64) as usize
}

// Gives each desk a drawer of its own.
fn deal(ledger: &Ledger, drawer: Drawer, desks: &mut [Desk<'_>])
    requires drawer { drawer ≡ newcomer ledger.now }
    ensures drawers { HaveDrawers ledger.now (length desks.old) desks.new }
    ensures room { (size : ℕ) → AreRoomy size desks.old → AreRoomy size desks.new }
{
    let mut rest = drawer;
    for place in 0..desks.len() {
        let (kept, own) = ledger.split(rest);
        rest = kept;
        give(&mut desks[place], own);
    }
}

// Gives a desk a drawer.
fn give(desk: &mut Desk<'_>, own: Drawer)
    ensures drawer { desk.new.drawer ≡ Some own }
    ensures kept { desk.new.scratch ≡ desk.old.scratch }
{
    desk.drawer = Some(own);
}
