//! The moves of the least play with given pushes.
ghost use Rattle.std.specs.Prelude.{◌≡◌, IfOk, OnOk, length};
ghost use Rattle.grid.specs.Board.{Scene};
ghost use Rattle.grid.specs.States.{IsScene};
ghost use Rattle.successors.specs.Expansion.{after_push};
ghost use Rattle.area.specs.Pushes.{CanPush};
ghost use Rattle.successors.specs.LeastPlays.{ArePlayed, WritesLeastPlay, WritesPush};

use area::{Scratch, walk};
use grid::{Letter, Level, Moves, Push, State};
use std::alloc::{AllocError, Global};

/// The moves of the least play with these pushes: it has the fewest moves, and of those plays the least text in the
/// order `d`, `l`, `r`, `u`. Some play from the level's start has these pushes. `scratch` is the level's.
///
/// The only error is running out of memory.
pub fn play_pushes(
    alloc: Global,
    level: &Level,
    pushes: &[Push],
    scratch: &mut Scratch,
) -> Result<Moves, AllocError>
    requires played { ArePlayed level.now pushes.now }
    requires room { scratch.old.size ≡ length level.now.cells }
    ensures least { IfOk result (λ moves. (t : Scene) × WritesLeastPlay level.now pushes.now t moves) }
    ensures size { scratch.new.size ≡ scratch.old.size }
{
    let mut state = State::start(alloc, level)?;
    let mut moves = Moves::new(alloc);
    for push in pushes {
        make_push(level, &mut state, *push, scratch, &mut moves)?;
    }
    Ok(moves)
}

// Walks behind the box by the least walk, pushes the box, and appends the letters.
fn make_push(
    level: &Level,
    state: &mut State,
    push: Push,
    scratch: &mut Scratch,
    moves: &mut Moves,
) -> Result<(), AllocError>
    requires scene { IsScene level.now state.old }
    requires possible { CanPush level.now state.old push }
    requires room { scratch.old.size ≡ length level.now.cells }
    ensures state { OnOk result (state.new ≡ after_push level.now state.old push) }
    ensures written { OnOk result (WritesPush level.now state.old push moves.old moves.new) }
    ensures size { scratch.new.size ≡ scratch.old.size }
{
    let behind = level.next(push.square, push.dir.opposite());
    let found = walk(level, state, behind, scratch, moves)?;
    prove!(found);
    state.set_player(level, behind);
    state.step(level, push.dir);
    moves.push(Letter {
        dir: push.dir,
        push: true,
    })
}
