//! Laws of texts and verdicts that callers may rely on. Each is the contract of a function that does nothing: call it
//! in a proof to use the law.
ghost use Rattle.std.specs.Prelude.{◌≡◌, ◌≤◌, ℕ, List, length};
ghost use Rattle.grid.specs.Board.{Board};
ghost use Rattle.grid.specs.Plays.{IsSolution, dirs_of};
ghost use Rattle.grid.specs.declared.dir.Dir.{Dir};
ghost use Rattle.grid.specs.declared.moves.Letter.{Letter};
ghost use Rattle.grid.specs.declared.square.Push.{Push};
ghost use Rattle.lurd.specs.ExactlyOne.{ExactlyOne};
ghost use Rattle.lurd.specs.Text.{IsText, bytes_of};
ghost use Rattle.lurd.specs.Parsing.{Reads};
ghost use Rattle.lurd.specs.Verdict.{IsVerdict};
ghost use Rattle.lurd.specs.Solving.{WritesSolution};

use crate::limits::MAX_MOVES;
use crate::verdict::Verdict;

/// Bytes are either a text of exactly one list of letters, or have exactly one first fault.
#[tactic(auto, using(crate::proofs::Readings::one_reading))]
pub fn one_reading()
    ensures { (bytes : List ℕ) → ExactlyOne (λ r. Reads bytes r) }
{}

/// What [`write`](crate::write) appends is a text of its letters, if these are at most [`MAX_MOVES`](crate::MAX_MOVES).
#[tactic(auto, using(crate::proofs::Written::written_text))]
pub fn written_text()
    ensures { (letters : List Letter) → length letters ≤ MAX_MOVES → IsText (bytes_of letters) letters }
{}

/// Each level and list of letters have exactly one verdict.
#[tactic(auto, using(crate::proofs::Verdicts::one_verdict))]
pub fn one_verdict()
    ensures { (board : Board) (letters : List Letter) → ExactlyOne (λ v. IsVerdict board letters v) }
{}

/// Letters with the verdict `Solved` write a solution with that many pushes and moves, and the letters of each
/// solution have that verdict.
#[tactic(auto, using(crate::proofs::lemmas::Solutions::of_solution))]
pub fn solved_is_solution()
    ensures there { (board : Board) (letters : List Letter) (pushes moves : ℕ) →
        IsVerdict board letters (Verdict.Solved pushes moves) → WritesSolution board letters pushes moves }
    ensures back { (board : Board) (ds : List Dir) (ps : List Push) → IsSolution board ds ps →
        (letters : List Letter) × (dirs_of letters ≡ ds) ×
        IsVerdict board letters (Verdict.Solved (length ps) (length ds)) }
{}
