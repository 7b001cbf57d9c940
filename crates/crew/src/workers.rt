//! Workers that run side by side, each at a desk.
ghost use Rattle.std.specs.Prelude.{◌≡◌, ◌<◌, ◌≤◌, Some, length};
ghost use Rattle.claims.specs.Hands.{newcomer};
ghost use Rattle.crew.specs.inside.Desks.{AreRoomy, HaveDrawers};

use crate::desks::Desk;
use crate::gate::Gate;
use crate::known::LockedBook;
use crate::shared::Shared;
use crate::worker::work_at;
use claims::PLACES;
use spreading::for_each_spread;
use std::sync::Wait;
use std::thread::Threads;

// Lets a worker at each of the desks work on the layer, each in a thread of its own if one can start, and waits until
// all of them have ended.
pub(crate) fn work_all<'a, R: Threads + Wait + Sync, G: Gate + Sync, B: LockedBook + Send>(
    rt: &R,
    desks: &mut [Desk<'a>],
    shared: &Shared<'_, 'a, B>,
    gate: &G,
)
    requires places { length desks.old ≤ PLACES }
    requires drawers { HaveDrawers shared.now.ledger (length desks.old) desks.old }
    requires room { AreRoomy (length shared.now.layer.level.board.cells) desks.old }
    ensures room { AreRoomy (length shared.now.layer.level.board.cells) desks.new }
{
    let threads = desks.len();
    for_each_spread(
        rt,
        desks,
        threads,
        &|place, desk: &mut Desk<'_>|
            requires place { place < PLACES }
            requires drawer { desk.now.drawer ≡ Some (newcomer shared.now.ledger) }
            requires room { desk.now.scratch.size ≡ length shared.now.layer.level.board.cells }
            ensures { desk.exit.now.scratch.size ≡ desk.entry.now.scratch.size }
        { help(rt, desk, shared, gate, place as u8) },
    );
}

// Works on the layer as one worker, with the memory of the desk. Its result is ignored.
fn help<'a, R: Wait, G: Gate, B: LockedBook>(
    rt: &R,
    desk: &mut Desk<'a>,
    shared: &Shared<'_, 'a, B>,
    gate: &G,
    worker: u8,
)
    requires place { worker < PLACES }
    requires drawer { desk.old.drawer ≡ Some (newcomer shared.now.ledger) }
    requires room { desk.old.scratch.size ≡ length shared.now.layer.level.board.cells }
    ensures room { desk.new.scratch.size ≡ desk.old.scratch.size }
{
    if let Some(mut own) = desk.drawer.take() {
        work_at(
            rt,
            shared,
            gate,
            &mut own,
            worker,
            &mut desk.scratch,
            &mut desk.parcels,
        );
    }
}
