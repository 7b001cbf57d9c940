//! Laws of the reports of all commands except `best` and `prove`. Each is the contract of a function that does nothing:
//! call it in a proof to use the law. A level may have several solutions with the fewest pushes, so `best` and `prove`
//! may have several right reports.
ghost use Rattle.std.specs.Prelude.{◌≡◌, ℕ, List, Option, length};
ghost use Rattle.grid.specs.Board.{Board};
ghost use Rattle.grid.specs.declared.moves.Letter.{Letter};
ghost use Rattle.lurd.specs.Verdict.{IsVerdict};
ghost use Rattle.successors.specs.Capping.{capped};
ghost use Rattle.solo.specs.Answers.{IsAnswer};
ghost use Rattle.sokopar.specs.DeadMap.{IsDeadReport};
ghost use Rattle.sokopar.specs.OneAtMost.{IsOneAtMost};
ghost use Rattle.sokopar.specs.Report.{Report, IsCheckReport, IsShowReport, IsReplayReport};
ghost use Rattle.sokopar.specs.Rereading.{ReadsAsShown};
ghost use Rattle.sokopar.specs.Retelling.{ReplaysAsTold};
ghost use Rattle.sokopar.specs.Showing.{IsRangeReport};
ghost use Rattle.sokopar.specs.Solving.{IsSolveReport};

use lurd::Verdict;
use lurd::laws::{one_reading, one_verdict, written_text};
use solo::Answer;
use solo::laws::an_answer_is_the_only_one;
use xsb::laws::one_collection;

/// The solution of an answer replays as solved, with the answer's numbers of pushes and moves.
pub fn solution_replays()
    ensures { (board : Board) (cap : Option ℕ) (limit : ℕ) (moves : List Letter) (pushes positions : ℕ) →
        IsAnswer (capped board cap) limit (Answer.Solved moves pushes positions) →
        IsVerdict board moves (Verdict.Solved pushes (length moves)) }
{}

/// If [`run_replay`](crate::run_replay) reads the line of a solution that [`run_solve`](crate::run_solve) wrote, it
/// reports that the line solves the level, with the same numbers. The solution must have at most
/// [`MAX_MOVES`](lurd::MAX_MOVES) moves.
pub fn printed_solution_replays()
    ensures { (cap : Option ℕ) (limit n : ℕ) (bytes : List ℕ) (report : Report) →
        IsSolveReport cap limit n bytes report → report.status ≡ 0 →
        ReplaysAsTold n bytes report }
{
    written_text();
    one_reading();
    one_verdict();
    one_collection();
}

/// The text that [`run_show_range`](crate::run_show_range) writes is a collection of exactly the lawful levels of the
/// range, in order, with the same names and boards. A text with more than [`MAX_FILE`](xsb::MAX_FILE) bytes is one too,
/// but no engine reads so long a file.
pub fn shown_levels_read_back()
    ensures { (from to : ℕ) (bytes : List ℕ) (report : Report) →
        IsRangeReport from to bytes report → ReadsAsShown from to bytes report }
{
    one_collection();
}

/// Each input of `check`, `show`, `dead`, `replay` and `solve` has at most one report: two reports for the same bytes,
/// level number, solution, cap and limit have the same text and the same status.
pub fn one_report()
    ensures check { (bytes : List ℕ) → IsOneAtMost (λ report. IsCheckReport bytes report) }
    ensures show { (n : ℕ) (bytes : List ℕ) → IsOneAtMost (λ report. IsShowReport n bytes report) }
    ensures dead { (n : ℕ) (bytes : List ℕ) → IsOneAtMost (λ report. IsDeadReport n bytes report) }
    ensures replay { (n : ℕ) (bytes : List ℕ) (solution : Option (List ℕ)) →
        IsOneAtMost (λ report. IsReplayReport n bytes solution report) }
    ensures solve { (cap : Option ℕ) (limit n : ℕ) (bytes : List ℕ) →
        IsOneAtMost (λ report. IsSolveReport cap limit n bytes report) }
{
    one_collection();
    one_reading();
    one_verdict();
    an_answer_is_the_only_one();
}
