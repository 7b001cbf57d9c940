//! The moves of a play, from its pushes.
ghost use Rattle.std.specs.Prelude.{◌≡◌, ◌<◌, OnOk, length};
ghost use Rattle.grid.specs.States.{IsScene};

use area::{Scratch, walk};
use grid::{Letter, Level, Moves, Push, State};
use std::alloc::{AllocError, Global};

/// The moves of the play that makes these pushes, each after a shortest walk, if they are possible.
pub(crate) fn moves_by(alloc: Global, level: &Level, pushes: &[Push]) -> Result<Moves, AllocError> {
    let mut scratch = Scratch::new(alloc, level)?;
    let moves = moves_in(alloc, level, pushes, &mut scratch);
    drop(scratch);
    moves
}

// The same, with memory for walks.
fn moves_in(
    alloc: Global,
    level: &Level,
    pushes: &[Push],
    scratch: &mut Scratch,
) -> Result<Moves, AllocError>
    requires { scratch.old.size ≡ length level.now.cells }
{
    let mut state = State::start(alloc, level)?;
    let mut moves = Moves::new(alloc);
    for push in pushes {
        if push.square.0 as usize >= level.squares() {
            break;
        }
        append_push(level, *push, &mut state, scratch, &mut moves)?;
    }
    Ok(moves)
}

// Appends the moves of a push, and of a shortest walk to it.
fn append_push(
    level: &Level,
    push: Push,
    state: &mut State,
    scratch: &mut Scratch,
    moves: &mut Moves,
) -> Result<(), AllocError>
    requires inside { push.square < length level.now.cells }
    requires scene { IsScene level.now state.old }
    requires room { scratch.old.size ≡ length level.now.cells }
    ensures scene { OnOk result (IsScene level.now state.new) }
    ensures room { OnOk result (scratch.new.size ≡ length level.now.cells) }
{
    let Push { square, dir } = push;
    let begin = moves.len();
    let behind = level.next(square, dir.opposite());
    let _ = walk(level, state, behind, scratch, moves)?;
    moves.push(Letter { dir, push: true })?;
    for index in begin..moves.len() {
        state.step(level, moves.as_slice()[index].dir);
    }
    Ok(())
}
