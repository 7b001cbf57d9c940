//! The judgement of a given solution.
ghost use Rattle.std.specs.Prelude.{◌≡◌, ◌≢◌, ◌≤◌, ℕ, List, Option, Some, None, Ok, length, IfOk, IfErr, OnOk};
ghost use Rattle.grid.specs.Board.{Board};
ghost use Rattle.lurd.specs.declared.limits.TheConstants.{MAX_MOVES};
ghost use Rattle.sokopar.specs.Judging.{IsJudged, IsJudgedGiven, IsJudgedText, IsJudgedWith, uncapped};
ghost use Rattle.sokopar.specs.Levels.{stopped_by};
ghost use Rattle.sokopar.specs.Runs.{ReadsIfSome, ReadsWhole, Stops};

use crate::compare::compare;
use crate::fault::RunFault;
use crate::reads::read_whole;
use crate::source::Source;
use crate::watch::Watch;
use grid::{Level, LevelFault, MAX_BOXES, Moves};
use judging::{Counts, Judgement, Settings};
use lurd::{LurdFault, Verdict, parse, replay};
use std::alloc::{AllocError, Global};
use std::thread::Threads;

/// The judgement of a solution if opening or reading it stopped for a fault.
pub(crate) fn stopped_by(fault: RunFault) -> Judgement
    ensures { result ≡ stopped_by fault }
{
    match fault {
        RunFault::OutOfMemory => Judgement::OutOfMemory {
            given: None,
            at_least: None,
        },
        _ => Judgement::CannotRead,
    }
}

/// The judgement of moves by a search.
#[tactic(auto, using(crate::proofs::Judging::of_verdict))]
fn prove_moves<R: Threads + Sync, P: Watch>(
    rt: &R,
    alloc: Global,
    level: &Level,
    moves: Moves,
    workers: u8,
    settings: Settings,
    watch: &mut P,
) -> Result<Judgement, AllocError>
    requires bound { length moves ≤ MAX_MOVES }
    requires uncapped { settings.cap ≡ None }
    ensures { IfOk result (λ judgement. IsJudged settings level.now (Some moves) judgement) }
{
    let verdict = replay(alloc, level, &moves)?;
    match verdict {
        Verdict::Solved {
            pushes,
            moves: count,
        } => {
            let given = Counts {
                pushes,
                moves: count,
            };
            if level.boxes() > MAX_BOXES {
                return Ok(Judgement::TooManyBoxes(Some(given)));
            }
            let judgement = compare(rt, alloc, level, given, moves, workers, settings, watch);
            Ok(judgement)
        }
        Verdict::Unsolved { .. } => Ok(Judgement::Replayed(verdict)),
        Verdict::Blocked { .. } => Ok(Judgement::Replayed(verdict)),
        Verdict::WrongCase { .. } => Ok(Judgement::Replayed(verdict)),
    }
}

/// The judgement of moves, by a search or by the rules alone.
#[tactic(auto, using(crate::proofs::Judging::by_search, crate::proofs::Judging::by_replay))]
fn judge_moves<R: Threads + Sync, P: Watch>(
    rt: &R,
    alloc: Global,
    level: &Level,
    moves: Moves,
    proves: bool,
    workers: u8,
    settings: Settings,
    watch: &mut P,
) -> Result<Judgement, AllocError>
    requires bound { length moves ≤ MAX_MOVES }
    requires uncapped { settings.cap ≡ None }
    ensures { IfOk result (λ judgement. IsJudgedGiven proves settings level.now moves judgement) }
{
    if proves {
        return prove_moves(rt, alloc, level, moves, workers, settings, watch);
    }
    let verdict = replay(alloc, level, &moves)?;
    Ok(Judgement::Replayed(verdict))
}

/// The judgement of a text with a fault.
fn bad_text(fault: LurdFault) -> Result<Judgement, AllocError>
    ensures text { IfOk result (λ judgement. judgement ≡ Judgement.BadText fault) }
    ensures memory { OnOk result (fault ≢ LurdFault.OutOfMemory) }
{
    match fault {
        LurdFault::OutOfMemory => Err(AllocError),
        _ => Ok(Judgement::BadText(fault)),
    }
}

/// The judgement of a text on a lawful level.
#[tactic(auto, using(crate::proofs::Judging::of_text, crate::proofs::Judging::of_fault))]
fn judge_text<R: Threads + Sync, P: Watch>(
    rt: &R,
    alloc: Global,
    level: &Level,
    text: &[u8],
    proves: bool,
    workers: u8,
    settings: Settings,
    watch: &mut P,
) -> Result<Judgement, AllocError>
    requires uncapped { settings.cap ≡ None }
    ensures { IfOk result (λ judgement. IsJudgedText proves settings level.now text.now judgement) }
{
    match parse(alloc, text) {
        Ok(moves) => judge_moves(rt, alloc, level, moves, proves, workers, settings, watch),
        Err(fault) => bad_text(fault),
    }
}

/// The judgement of the solution of a lawful level. It reads the solution to its end.
#[tactic(auto, using(crate::proofs::Reading::stops_after))]
fn judge_lawful<R: Threads + Sync, T: Source, P: Watch>(
    rt: &R,
    alloc: Global,
    level: &Level,
    proves: bool,
    workers: u8,
    settings: Settings,
    solution: &mut T,
    watch: &mut P,
) -> Result<Judgement, RunFault>
    ensures ok { IfOk result (λ judgement. (text : List ℕ) ×
        ReadsWhole (T.seen solution.old) (T.seen solution.new) text ×
        IsJudgedText proves (uncapped settings) level.now text judgement) }
    ensures err { IfErr result (Stops (T.seen solution.old) (T.seen solution.new)) }
{
    let settings = Settings {
        cap: None,
        ..settings
    };
    let text = read_whole(alloc, solution)?;
    Ok(judge_text(
        rt,
        alloc,
        level,
        text.as_slice(),
        proves,
        workers,
        settings,
        watch,
    )?)
}

/// The judgement of a board and its solution, which is proved by a search or only replayed. It reads the solution to its
/// end if the board is lawful, and not otherwise.
#[tactic(auto, using(crate::proofs::Judged::on_board))]
pub(crate) fn judge_given<R: Threads + Sync, T: Source, P: Watch>(
    rt: &R,
    alloc: Global,
    board: &Result<Level, LevelFault>,
    proves: bool,
    workers: u8,
    settings: Settings,
    solution: &mut T,
    watch: &mut P,
) -> Result<Judgement, RunFault>
    ensures ok { IfOk result (λ judgement. (text : Option (List ℕ)) ×
        ReadsIfSome (T.seen solution.old) (T.seen solution.new) text ×
        IsJudgedWith proves settings board.now text judgement) }
    ensures err { IfErr result (λ fault. ((lawful : Board) × (board.now ≡ Ok lawful)) ×
        Stops (T.seen solution.old) (T.seen solution.new) fault) }
{
    match board {
        Ok(level) => judge_lawful(rt, alloc, level, proves, workers, settings, solution, watch),
        Err(fault) => Ok(Judgement::Faulty(*fault)),
    }
}
