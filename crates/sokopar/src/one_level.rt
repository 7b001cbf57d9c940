//! The reports of `best` and `prove` on one level.
ghost use Rattle.std.specs.Prelude.{◌≡◌, Ok, Some, ◌⊎◌, ◌≤◌, ℕ, List, Option, None, length, IfOk, IfErr, true, false};
ghost use Rattle.grid.specs.Board.{Board};
ghost use Rattle.sokopar.specs.Listing.{IsLevelAt};
ghost use Rattle.sokopar.specs.OneLevel.{IsLevelReport, IsWhole, level_report};
ghost use Rattle.sokopar.specs.Runs.{ReadsIfSome, Stops};

use crate::fault::RunFault;
use crate::given::judge_given;
use crate::listing::level_of;
use crate::proving::LevelRequest;
use crate::report::Report;
use crate::search::judge_board;
use crate::show::no_level;
use crate::source::Source;
use crate::watch::Watch;
use judging::{Judgement, Settings, Text, put_judgement, put_letters_line};
use std::alloc::{AllocError, Global};
use std::thread::Threads;
use xsb::MAX_FILE;

/// The report of a judgement. Fails if memory ran out.
fn report_of(alloc: Global, settings: Settings, judgement: &Judgement) -> Result<Report, AllocError>
    ensures { IfOk result (λ report. IsWhole judgement.now × (report ≡ level_report settings judgement.now)) }
{
    if matches!(judgement, Judgement::OutOfMemory { .. }) {
        return Err(AllocError);
    }
    let mut text = Text::new(alloc);
    put_judgement(&mut text, settings, judgement)?;
    text.put(b"\n")?;
    put_letters_line(&mut text, judgement)?;
    Ok(Report::new(text, judgement.kind().status()))
}

/// The report of `best` on level N of a collection.
pub(crate) fn best_in<R: Threads + Sync, P: Watch>(
    rt: &R,
    alloc: Global,
    bytes: &[u8],
    request: LevelRequest,
    watch: &mut P,
) -> Result<Report, AllocError>
    requires number { 1 ≤ request.number }
    requires bound { length bytes.now ≤ MAX_FILE }
    ensures { IfOk result (λ report. IsLevelReport false request.settings request.number bytes.now None report) }
{
    let settings = request.settings;
    match level_of(alloc, bytes, request.number)? {
        None => no_level(alloc, request.number),
        Some(board) => {
            let judgement = judge_board(rt, alloc, &board, request.workers, settings, watch);
            let report = report_of(alloc, settings, &judgement)?;
            Ok(report)
        }
    }
}

/// The report of `prove` on level N of a collection. It reads the solution to its end if the level is lawful, and not
/// otherwise.
pub(crate) fn prove_in<R: Threads + Sync, T: Source, P: Watch>(
    rt: &R,
    alloc: Global,
    bytes: &[u8],
    request: LevelRequest,
    solution: &mut T,
    watch: &mut P,
) -> Result<Report, RunFault>
    requires number { 1 ≤ request.number }
    requires bound { length bytes.now ≤ MAX_FILE }
    ensures ok { IfOk result (λ report. (text : Option (List ℕ)) ×
        ReadsIfSome (T.seen solution.old) (T.seen solution.new) text
        × IsLevelReport true request.settings request.number bytes.now text report) }
    ensures err { IfErr result (λ fault. ((fault ≡ RunFault.OutOfMemory) × (T.seen solution.new ≡ T.seen solution.old))
        ⊎ ((board : Board) × IsLevelAt bytes.now request.number (Some (Ok board)) ×
        Stops (T.seen solution.old) (T.seen solution.new) fault)) }
{
    let workers = request.workers;
    let settings = request.settings;
    match level_of(alloc, bytes, request.number)? {
        None => Ok(no_level(alloc, request.number)?),
        Some(board) => {
            let judgement = judge_given(
                rt, alloc, &board, true, workers, settings, solution, watch,
            )?;
            Ok(report_of(alloc, settings, &judgement)?)
        }
    }
}
