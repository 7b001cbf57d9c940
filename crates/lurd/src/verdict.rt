ghost use Rattle.std.specs.Prelude.{IfOk};
ghost use Rattle.lurd.specs.Verdict.{IsVerdict};

use grid::{Level, Moves, State, Step};
use std::alloc::{AllocError, Global};

/// The result of playing letters on a level from its start, by the rules of the game.
#[derive(Clone, Copy, PartialEq, Eq, Debug)]
pub enum Verdict {
    /// Each letter is a step as its case says, and at the end every box is on a goal. `pushes` counts the letters in
    /// upper case, `moves` all letters.
    Solved { pushes: usize, moves: usize },
    /// Each letter is a step as its case says, and at the end some box is off goal.
    Unsolved { pushes: usize, moves: usize },
    /// No step is possible in the direction of the letter at this index, counted from 1, whatever its case.
    Blocked { at: usize },
    /// The letter at this index, counted from 1, is in lower case and its step pushes a box, or is in upper case and
    /// its step does not.
    WrongCase { at: usize },
}

/// The verdict on the letters, played on the level from its start. The first letter that is wrong decides. Fails
/// only if out of memory.
#[tactic(auto, using(crate::proofs::Replaying::leading))]
pub fn replay(alloc: Global, level: &Level, moves: &Moves) -> Result<Verdict, AllocError>
    ensures { IfOk result (λ verdict. IsVerdict level.now moves.now verdict) }
{
    let mut state = State::start(alloc, level)?;
    let mut pushes = 0;
    for (index, letter) in moves.as_slice().iter().enumerate() {
        match state.step(level, letter.dir) {
            Step::Blocked => return Ok(Verdict::Blocked { at: index + 1 }),
            Step::Walked if letter.push => return Ok(Verdict::WrongCase { at: index + 1 }),
            Step::Pushed if !letter.push => return Ok(Verdict::WrongCase { at: index + 1 }),
            Step::Walked => {}
            Step::Pushed => pushes += 1,
        }
    }
    let moves = moves.len();
    if state.is_solved(level) {
        Ok(Verdict::Solved { pushes, moves })
    } else {
        Ok(Verdict::Unsolved { pushes, moves })
    }
}
